ghost use Rattle.std.specs.Prelude.{map, string_bytes};
ghost use Rattle.trapset_cli.specs.Clauses.{Success, Usage, RefusedInput, ReadFault, WriteFault, LeavesFiles, SetFault, FaultLine, Completeness};
ghost use Rattle.trapset_cli.specs.Endings.{Ends};

use crate::carry::run_command;
use crate::command::read_words;
use crate::reason::{TrapsetError, refuse_by};
use outside::rack::Rack;
use outside::tray::Tray;
use pgm_plates::laws::{not_both, one_fault, one_plate};
use std::alloc::Global;

/// Runs the command of the words, and returns the status that the program exits with.
///
/// `traps JOB SET NAME:IN ...` reads the job, then each plate in the order of the words, traps the page, and writes the
/// set of the changes. `apply SET IN:OUT ...` reads each plate in the order of the words, then the set, applies its
/// runs to the plates, and only then writes each plate in order. There are one to sixteen plates. There are no threads.
///
/// The status is 0 if the work is done; 2 if the words are no command; 3 if the job has a fault or lacks the details of
/// a plate's colorant; 4 if a plate's file has a fault, or the plates do not make a page; 5 if a read failed; 6 if a
/// write failed; 7 if memory ran out; and 8 if the set has a bad line or is for other plates. Each error prints one
/// line that names the cause.
pub fn trapset_main<T: Tray, R: Rack>(
    alloc: Global,
    words: &[String],
    tray: &mut T,
    rack: &mut R,
) -> u8
    ensures success { Success (map string_bytes words.now) (T.state tray.old) (T.state tray.new)
        (R.state rack.old) (R.state rack.new) result }
    ensures usage { Usage (map string_bytes words.now) (T.state tray.old) (T.state tray.new)
        (R.state rack.old) (R.state rack.new) result }
    ensures refused_input { RefusedInput (map string_bytes words.now) (T.state tray.old)
        (T.state tray.new) (R.state rack.old) (R.state rack.new) result }
    ensures read_fault { ReadFault (map string_bytes words.now) (T.state tray.old)
        (T.state tray.new) (R.state rack.old) (R.state rack.new) result }
    ensures write_fault { WriteFault (map string_bytes words.now) (T.state tray.old)
        (T.state tray.new) (R.state rack.old) (R.state rack.new) result }
    ensures memory { LeavesFiles (R.state rack.old) (R.state rack.new) result }
    ensures set_fault { SetFault (map string_bytes words.now) (T.state tray.old)
        (T.state tray.new) (R.state rack.old) (R.state rack.new) result }
    ensures fault_line { FaultLine (R.state rack.old) (R.state rack.new) result }
    ensures completeness { Completeness (map string_bytes words.now) (T.state tray.old)
        (T.state tray.new) (R.state rack.old) (R.state rack.new) result }
{
    not_both();
    one_plate();
    one_fault();
    run(alloc, words, tray, rack)
}

fn run<T: Tray, R: Rack>(alloc: Global, words: &[String], tray: &mut T, rack: &mut R) -> u8
    ensures { Ends (map string_bytes words.now) (T.state tray.old) (T.state tray.new)
        (R.state rack.old) (R.state rack.new) result }
{
    match read_words(words) {
        Some(command) => run_command(alloc, &command, tray, rack),
        None => refuse_by(rack, &TrapsetError::NoCommand),
    }
}
