ghost use Rattle.std.specs.Prelude.{map, string_bytes};
ghost use Rattle.trapkeep_cli.specs.Clauses.{Success, Usage, RefusedInput, ReadFault, WriteFault, LeavesFiles, FaultLine, Locality, Completeness};
ghost use Rattle.trapkeep_cli.specs.Endings.{Ends};

use crate::carry::run_command;
use crate::reason::{TrapkeepError, refuse_by};
use keep_words::words::read_words;
use outside::rack::Rack;
use outside::tray::Tray;
use pgm_plates::laws::{not_both, one_fault, one_plate};
use std::alloc::Global;

/// Runs the command of the words, and returns the status that the program exits with.
///
/// `--rich-black W [--black-limit L] [--except NAME] ... JOB REPORT NAME:IN:OUT ...` reads the job, then each
/// plate in the order of the words, draws the inks under black back from where black ends, and only then writes: each
/// plate in order, and then the report. `--underprint NAME=W ... JOB REPORT NAME:IN:OUT ...` does the same with
/// whites under colour. There are one to sixteen plates. There are no threads.
///
/// The status is 0 if the work is done; 2 if the words are no command; 3 if the job has a fault or lacks the details of
/// a plate's colorant; 4 if a plate's file has a fault, the plates do not make a page, or a width is more than 128
/// pixels; 5 if a read failed; 6 if a write failed; and 7 if memory ran out. Each error prints one line that names the
/// cause.
pub fn trapkeep_main<T: Tray, R: Rack>(
    alloc: Global,
    words: &[String],
    tray: &mut T,
    rack: &mut R,
) -> u8
    ensures success { Success (map string_bytes words.now) (T.state tray.old) (T.state tray.new)
        (R.state rack.old) (R.state rack.new) result }
    ensures usage { Usage (map string_bytes words.now) (T.state tray.old) (T.state tray.new)
        (R.state rack.old) (R.state rack.new) result }
    ensures refused_input { RefusedInput (map string_bytes words.now) (T.state tray.old)
        (T.state tray.new) (R.state rack.old) (R.state rack.new) result }
    ensures read_fault { ReadFault (map string_bytes words.now) (T.state tray.old)
        (T.state tray.new) (R.state rack.old) (R.state rack.new) result }
    ensures write_fault { WriteFault (map string_bytes words.now) (T.state tray.old)
        (T.state tray.new) (R.state rack.old) (R.state rack.new) result }
    ensures memory { LeavesFiles (R.state rack.old) (R.state rack.new) result }
    ensures fault_line { FaultLine (R.state rack.old) (R.state rack.new) result }
    ensures locality { Locality (map string_bytes words.now) (T.state tray.old) }
    ensures completeness { Completeness (map string_bytes words.now) (T.state tray.old)
        (T.state tray.new) (R.state rack.old) (R.state rack.new) result }
{
    not_both();
    one_plate();
    one_fault();
    run(alloc, words, tray, rack)
}

fn run<T: Tray, R: Rack>(alloc: Global, words: &[String], tray: &mut T, rack: &mut R) -> u8
    ensures { Ends (map string_bytes words.now) (T.state tray.old) (T.state tray.new)
        (R.state rack.old) (R.state rack.new) result }
{
    match read_words(words) {
        Some(command) => run_command(alloc, &command, tray, rack),
        None => refuse_by(rack, &TrapkeepError::NoCommand),
    }
}
