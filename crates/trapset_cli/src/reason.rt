ghost use Rattle.std.specs.Prelude.{◌≡◌, ◌≤◌, ◌++◌, decimal, length};
ghost use Rattle.trapset_cli.specs.ErrorCases.{RefusesError, error_line as line_spec, error_status as status_spec};
ghost use Rattle.common_errors.specs.Lines.{line};

use common_errors::common::CommonError;
use common_errors::line::Line;
use common_errors::statuses::{NOT_READ, NOT_WRITTEN, SET_REFUSED, USAGE};
use common_errors::telling::tell_line;
use outside::rack::Rack;

/// Why a command did not do its work.
#[derive(Clone, Copy, Drop)]
pub enum TrapsetError {
    /// The words are no command of the program.
    NoCommand,
    /// The job, a plate or the page is refused, a plate could not be written, or memory ran out.
    Page(CommonError),
    /// The set could not be read.
    SetUnread,
    /// The set could not be written.
    SetUnwritten,
    /// The set's first bad line, counted from 1.
    BadLine(u32),
    /// The set is for other plates.
    Differs,
}

// Prints the line of an error and returns its status, whether or not the line could be printed.
pub(crate) fn refuse_by<R: Rack>(rack: &mut R, reason: &TrapsetError) -> u8
    ensures { RefusesError reason.now (R.state rack.old) (R.state rack.new) result }
{
    tell_line(rack, &reason.line());
    reason.exit_status()
}

impl TrapsetError {
    // The status that the program exits with after this error.
    fn exit_status(&self) -> u8
        ensures { result ≡ status_spec self.now }
    {
        match self {
            TrapsetError::NoCommand => USAGE,
            TrapsetError::Page(error) => error.exit_status(),
            TrapsetError::SetUnread => NOT_READ,
            TrapsetError::SetUnwritten => NOT_WRITTEN,
            TrapsetError::BadLine(_) | TrapsetError::Differs => SET_REFUSED,
        }
    }

    // The line that is printed for this error.
    fn line(&self) -> Line
        ensures { result ≡ line_spec self.now }
    {
        match self {
            TrapsetError::NoCommand => Line::of_text(
                b"usage: trapset traps JOB SET NAME:IN ... | trapset apply SET IN:OUT ...",
            ),
            TrapsetError::Page(error) => error.line(),
            TrapsetError::SetUnread => Line::of_text(b"read fault: set"),
            TrapsetError::SetUnwritten => Line::of_text(b"write fault: set"),
            TrapsetError::BadLine(line) => Line::of_number(b"set: BadLine ", *line),
            TrapsetError::Differs => Line::of_text(b"set: Differs"),
        }
    }
}
