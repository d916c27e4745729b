ghost use Rattle.std.specs.Prelude.{◌≡◌, ◌++◌, ◌≤◌, length, decimal};
ghost use Rattle.common_errors.specs.Lines.{line};
ghost use Rattle.traprun_cli.specs.Errors.{RefusesRun, line_of_error};

use crate::error::TraprunError;
use common_errors::line::Line;
use common_errors::telling::tell_line;
use outside::rack::Rack;

/// Prints the line of an error and returns its status, whether or not the line could be printed.
pub fn refuse_run<R: Rack>(rack: &mut R, error: &TraprunError) -> u8
    ensures { RefusesRun error.now (R.state rack.old) (R.state rack.new) result }
{
    tell_line(rack, &error.line());
    error.exit_status()
}

impl TraprunError {
    /// The line that is printed for this error, its LF included. The form is this project's own.
    pub fn line(&self) -> Line
        ensures { result ≡ line_of_error self.now }
    {
        match self {
            TraprunError::Whole(common_error) => common_error.line(),
            TraprunError::TooManyPages(at) => number_line(b"run: TooManyPages at ", *at, b""),
            TraprunError::AtPage(page, common_error) => common_error.numbered_line(*page),
            TraprunError::Ends(page, plate) => ends_line(*page, *plate),
            TraprunError::Extra(plate) => number_line(b"run: plate ", *plate, b": Extra"),
        }
    }
}

fn ends_line(page: u32, plate: u32) -> Line
    ensures { result ≡ line_of_error (TraprunError.Ends page plate) }
{
    let mut reported = Line::new();
    reported.push(b"page ");
    reported.push_number(page as u64);
    reported.push(b": plate ");
    reported.push_number(plate as u64);
    reported.push(b": Ends");
    reported.push(b"\n");
    reported
}

// A line of a number between two texts.
fn number_line(before: &[u8], number: u32, suffix: &[u8]) -> Line
    requires before { length before.now ≤ 50 }
    requires suffix { length suffix.now ≤ 50 }
    ensures { result ≡ line (before.now ++ decimal number ++ suffix.now) }
{
    let mut reported = Line::new();
    reported.push(before);
    reported.push_number(number as u64);
    reported.push(suffix);
    reported.push(b"\n");
    reported
}
