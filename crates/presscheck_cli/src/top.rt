ghost use Rattle.std.specs.Prelude.{◌≡◌, map, string_bytes};
ghost use Rattle.presscheck_cli.specs.Clauses.{Success, Usage, RefusedInput, ReadFault, TellFault, FaultLine, Completeness};
ghost use Rattle.presscheck_cli.specs.Endings.{Ends, RefusesWords};
ghost use Rattle.presscheck_cli.specs.Text.{usage_line as usage_spec};
ghost use Rattle.common_errors.specs.Telling.{KeepsFiles};

use crate::check::run_check;
use crate::words::read_words;
use common_errors::line::Line;
use common_errors::statuses::USAGE;
use common_errors::telling::tell_line;
use outside::rack::Rack;
use outside::tray::Tray;
use pgm_plates::laws::{not_both, one_fault, one_plate};
use std::alloc::Global;

/// Prints how many samples of a page misregister could leave bare, before it is trapped and after, and returns the
/// status that the program exits with.
///
/// The words are `RADIUS JOB NAME:IN ...`: by how many samples, from 0 to 16, each plate may shift to each side, the
/// job's file, and one to sixteen plates with the names of their colorants. It reads the job, then each plate in the
/// order of the words, and prints `press check`, `radius R`, `before A`, `after B` and `end`. No file is created.
///
/// The status is 0 if the text is printed; 2 if the words are no command; 3 if the job has a fault or lacks the details
/// of a plate's colorant; 4 if a plate's file has a fault, or the plates do not make a page; 5 if a read failed; 6 if
/// the text could not be printed; and 7 if memory ran out. Each error prints one line that names the cause.
pub fn presscheck_main<T: Tray, R: Rack>(
    alloc: Global,
    words: &[String],
    tray: &mut T,
    rack: &mut R,
) -> u8
    ensures success { Success (map string_bytes words.now) (T.state tray.old) (T.state tray.new)
        (R.state rack.old) (R.state rack.new) result }
    ensures usage { Usage (map string_bytes words.now) (T.state tray.old) (T.state tray.new)
        (R.state rack.old) (R.state rack.new) result }
    ensures refused_input { RefusedInput (map string_bytes words.now) (T.state tray.old)
        (T.state tray.new) (R.state rack.old) (R.state rack.new) result }
    ensures read_fault { ReadFault (map string_bytes words.now) (T.state tray.old)
        (T.state tray.new) (R.state rack.old) (R.state rack.new) result }
    ensures tell_fault { TellFault (map string_bytes words.now) (T.state tray.old)
        (T.state tray.new) (R.state rack.old) (R.state rack.new) result }
    ensures no_file { KeepsFiles (R.state rack.old) (R.state rack.new) }
    ensures fault_line { FaultLine (R.state rack.old) (R.state rack.new) result }
    ensures completeness { Completeness (map string_bytes words.now) (T.state tray.old)
        (T.state tray.new) (R.state rack.old) (R.state rack.new) result }
{
    not_both();
    one_plate();
    one_fault();
    run(alloc, words, tray, rack)
}

fn run<T: Tray, R: Rack>(alloc: Global, words: &[String], tray: &mut T, rack: &mut R) -> u8
    ensures { Ends (map string_bytes words.now) (T.state tray.old) (T.state tray.new)
        (R.state rack.old) (R.state rack.new) result }
{
    match read_words(words) {
        Some(check) => run_check(alloc, &check, tray, rack),
        None => refuse_words(rack),
    }
}

// Words that are no check are refused by this program's own usage line.
fn refuse_words<R: Rack>(rack: &mut R) -> u8
    ensures { RefusesWords (R.state rack.old) (R.state rack.new) result }
{
    tell_line(
        rack,
        &Line::of_text(b"usage: presscheck RADIUS JOB NAME:IN ..."),
    );
    USAGE
}
