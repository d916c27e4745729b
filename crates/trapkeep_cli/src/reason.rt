ghost use Rattle.std.specs.Prelude.{◌≡◌, length};
ghost use Rattle.trapkeep_cli.specs.ErrorCases.{RefusesError, error_line as line_spec, error_status as status_spec};

use common_errors::common::CommonError;
use common_errors::line::Line;
use common_errors::statuses::{PAGE_REFUSED, USAGE};
use common_errors::telling::tell_line;
use outside::rack::Rack;

/// Why a command did not do its work.
#[derive(Clone, Copy, Drop)]
pub enum TrapkeepError {
    /// The words are no command of the program.
    NoCommand,
    /// The job, a plate or the page is refused, a file could not be read or written, or memory ran out.
    Page(CommonError),
    /// The width is more than 128 pixels.
    TooWide,
}

// Prints the line of an error and returns its status, whether or not the line could be printed.
pub(crate) fn refuse_by<R: Rack>(rack: &mut R, reason: &TrapkeepError) -> u8
    ensures { RefusesError reason.now (R.state rack.old) (R.state rack.new) result }
{
    tell_line(rack, &reason.line());
    reason.exit_status()
}

impl TrapkeepError {
    // The status that the program exits with after this error.
    fn exit_status(&self) -> u8
        ensures { result ≡ status_spec self.now }
    {
        match self {
            TrapkeepError::NoCommand => USAGE,
            TrapkeepError::Page(error) => error.exit_status(),
            TrapkeepError::TooWide => PAGE_REFUSED,
        }
    }

    // The line that is printed for this error.
    fn line(&self) -> Line
        ensures { result ≡ line_spec self.now }
    {
        match self {
            TrapkeepError::NoCommand => Line::of_text(
                b"usage: trapkeep --rich-black W [--black-limit L] [--except NAME] ... JOB REPORT NAME:IN:OUT ... | trapkeep --underprint NAME=W ... JOB REPORT NAME:IN:OUT ...",
            ),
            TrapkeepError::Page(error) => error.line(),
            TrapkeepError::TooWide => Line::of_text(b"keepaway: TooWide"),
        }
    }
}
