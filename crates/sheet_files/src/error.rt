ghost use Rattle.std.specs.Prelude.{◌≡◌};
ghost use Rattle.sheet_files.specs.Errors.{error_of, status_of_error};

use common_errors::common::CommonError;
use common_errors::statuses::PAGE_REFUSED;
use plate_rows::error::RereadError;
use sheet_geometry::sheet_errors::SheetError;

/// Why a command of a sheet did not do its work.
#[derive(Clone, Copy, Drop)]
pub enum TrapsheetError {
    /// An error that a page can have as well: the words, a file, memory, or a plate without details.
    Common(CommonError),
    /// The sheet of the plates is refused.
    OfSheet(SheetError),
    /// This plate, from 0, is not the same as when it was checked: it has another header, or a fault now.
    Changed(u32),
}

/// The program's error for what stopped a second reading.
pub fn error_of(error: RereadError) -> TrapsheetError
    ensures { result ≡ error_of error }
{
    match error {
        RereadError::Changed(plate) => TrapsheetError::Changed(plate),
        RereadError::Unread(plate) => TrapsheetError::Common(CommonError::Read(Some(plate))),
    }
}

impl TrapsheetError {
    /// The status that the program exits with, one of `common_errors::statuses`.
    pub fn exit_status(&self) -> u8
        ensures { result ≡ status_of_error self.now }
    {
        match self {
            TrapsheetError::Common(common_error) => common_error.exit_status(),
            TrapsheetError::OfSheet(_) | TrapsheetError::Changed(_) => PAGE_REFUSED,
        }
    }
}
