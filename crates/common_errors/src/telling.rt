//! Lines that are printed on a rack.

ghost use Rattle.common_errors.specs.Telling.{KeepsFiles, Refuses, TellsText};

use crate::common::CommonError;
use crate::line::Line;
use outside::rack::Rack;

/// Prints a line, or a prefix of it where the rack fails; a failure is ignored.
pub fn tell_line<R: Rack>(rack: &mut R, line: &Line)
    ensures files { KeepsFiles (R.state rack.old) (R.state rack.new) }
    ensures text { TellsText line.now (R.state rack.old) (R.state rack.new) }
{
    let _reported = rack.tell(line.as_slice());
}

/// Prints the line of an error and returns its status, whether or not the line could be printed.
pub fn refuse<R: Rack>(rack: &mut R, error: &CommonError) -> u8
    ensures { Refuses error.now (R.state rack.old) (R.state rack.new) result }
{
    tell_line(rack, &error.line());
    error.exit_status()
}
