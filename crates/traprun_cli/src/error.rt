ghost use Rattle.std.specs.Prelude.{◌≡◌};
ghost use Rattle.traprun_cli.specs.Errors.{status_of_error, error_at};

use common_errors::common::CommonError;
use common_errors::statuses::{JOB_REFUSED, PAGE_REFUSED};

/// Why a run over many pages stopped. Pages and plates are numbered from 0.
#[derive(Clone, Copy, Debug, Drop, PartialEq, Eq)]
pub enum TraprunError {
    /// The job as a whole is refused, or a plate when its end is checked after the last page; or memory ran out, at any
    /// place.
    Whole(CommonError),
    /// The 257th `showpage` stands at this offset.
    TooManyPages(u32),
    /// This page is refused.
    AtPage(u32, CommonError),
    /// This page has no image in this plate's file.
    Ends(u32, u32),
    /// This plate's file has another image after that of the last page.
    Extra(u32),
}

impl TraprunError {
    /// The status that the program exits with, one of `common_errors::statuses`.
    pub fn exit_status(&self) -> u8
        ensures { result ≡ status_of_error self.now }
    {
        match self {
            TraprunError::Whole(common_error) | TraprunError::AtPage(_, common_error) => {
                common_error.exit_status()
            }
            TraprunError::TooManyPages(_) => JOB_REFUSED,
            TraprunError::Ends(_, _) | TraprunError::Extra(_) => PAGE_REFUSED,
        }
    }
}

/// Adds the page number to a page's error. Out of memory is reported without one.
pub fn error_at(page: u32, common_error: CommonError) -> TraprunError
    ensures { result ≡ error_at page common_error }
{
    match common_error {
        CommonError::Memory => TraprunError::Whole(CommonError::Memory),
        other => TraprunError::AtPage(page, other),
    }
}
