ghost use Rattle.std.specs.Prelude.{◌≡◌};
ghost use Rattle.sheet_files.specs.Errors.{RefusesSheet, line_of_error, sheet_line};

use crate::error::TrapsheetError;
use common_errors::common::CommonError;
use common_errors::line::Line;
use common_errors::telling::tell_line;
use outside::rack::Rack;
use sheet_geometry::sheet_errors::SheetError;

/// Prints the line of an error and returns its status, whether or not the line could be printed.
pub fn refuse_sheet<R: Rack>(rack: &mut R, error: &TrapsheetError) -> u8
    ensures { RefusesSheet error.now (R.state rack.old) (R.state rack.new) result }
{
    tell_line(rack, &error.line());
    error.exit_status()
}

impl TrapsheetError {
    /// The line that is printed for this error, its LF included. The form is this project's own.
    pub fn line(&self) -> Line
        ensures { result ≡ line_of_error self.now }
    {
        match self {
            TrapsheetError::Common(common_error) => common_error.line(),
            TrapsheetError::OfSheet(common_error) => common_line(common_error),
            TrapsheetError::Changed(plate) => Line::of_number(b"sheet: Changed in plate ", *plate),
        }
    }
}

fn common_line(common_error: &SheetError) -> Line
    ensures { result ≡ sheet_line common_error.now }
{
    match common_error {
        SheetError::Fault(fault) => CommonError::Page(*fault).line(),
        SheetError::Far(zone) => Line::of_number(b"sheet: Far in zone ", *zone),
        SheetError::Uncut => Line::of_text(b"sheet: Uncut"),
    }
}
