ghost use Rattle.std.specs.Prelude.{◌≡◌, map, string_bytes};
ghost use Rattle.traprun_cli.specs.Clauses.{Success, Usage, RefusedInput, ReadFault, WriteFault, LeavesPages, FaultLine, Completeness};
ghost use Rattle.traprun_cli.specs.Endings.{EndsWords, RefusesWords};
ghost use Rattle.traprun_cli.specs.Text.{usage_line as usage_spec};

use crate::run::run_order;
use crate::words::read_words;
use band_claims::Gate;
use common_errors::line::Line;
use common_errors::statuses::USAGE;
use common_errors::telling::tell_line;
use outside::rack::Rack;
use outside::tray::Tray;
use std::alloc::Global;
use std::thread::Threads;

/// Traps each page of a job of many pages, and returns the status that the program exits with.
///
/// The words are `WORKERS BAND JOB REPORT NAME:IN:OUT ...`: the workers, from 1 to 64, the rows of a band, from 1 to
/// 4,096, the job's file, the report's, and one to sixteen plates, each with the name of its colorant, the file that is
/// read and the one that is written. The job has one `showpage` for each page, and each plate's file one image. Page k,
/// counted from 0, is written to OUT and REPORT, each followed by `.` and k. It is read, trapped and written before the
/// next one is read; after the last page each plate's file has to end.
///
/// The status is 0 if all pages are written; 2 if the words are no command; 3 if the job has a fault, or lacks the
/// details of a plate's colorant; 4 if a plate's file has a fault, too few images or too many, or the plates do not
/// make a page; 5 if a read failed; 6 if a write failed; and 7 if memory ran out. Each error prints one line that
/// names the cause. If a run stops at one page, the files of the pages before it are whole.
pub fn traprun_main<H: Threads + Sync, T: Tray, R: Rack, G: Gate + Sync>(
    rt: &H,
    alloc: Global,
    words: &[String],
    tray: &mut T,
    rack: &mut R,
    gate: &G,
) -> u8
    ensures success { Success (map string_bytes words.now) (T.state tray.old) (T.state tray.new)
        (R.state rack.old) (R.state rack.new) result }
    ensures usage { Usage (map string_bytes words.now) (T.state tray.old) (T.state tray.new)
        (R.state rack.old) (R.state rack.new) result }
    ensures refused_input { RefusedInput (map string_bytes words.now) (T.state tray.old)
        (T.state tray.new) (R.state rack.old) (R.state rack.new) result }
    ensures read_fault { ReadFault (map string_bytes words.now) (T.state tray.old)
        (T.state tray.new) (R.state rack.old) (R.state rack.new) result }
    ensures write_fault { WriteFault (map string_bytes words.now) (T.state tray.old)
        (T.state tray.new) (R.state rack.old) (R.state rack.new) result }
    ensures memory { LeavesPages (map string_bytes words.now) (T.state tray.old)
        (T.state tray.new) (R.state rack.old) (R.state rack.new) result }
    ensures fault_line { FaultLine (R.state rack.old) (R.state rack.new) result }
    ensures completeness { Completeness (map string_bytes words.now) (T.state tray.old)
        (T.state tray.new) (R.state rack.old) (R.state rack.new) result }
{
    run(rt, alloc, words, tray, rack, gate)
}

fn run<H: Threads + Sync, T: Tray, R: Rack, G: Gate + Sync>(
    rt: &H,
    alloc: Global,
    words: &[String],
    tray: &mut T,
    rack: &mut R,
    gate: &G,
) -> u8
    ensures { EndsWords (map string_bytes words.now) (T.state tray.old) (T.state tray.new)
        (R.state rack.old) (R.state rack.new) result }
{
    match read_words(words) {
        Some(order) => run_order(rt, alloc, &order, tray, rack, gate),
        None => refuse_words(rack),
    }
}

// Words that are no run are refused by this program's own usage line.
fn refuse_words<R: Rack>(rack: &mut R) -> u8
    ensures { RefusesWords (R.state rack.old) (R.state rack.new) result }
{
    tell_line(
        rack,
        &Line::of_text(b"usage: traprun WORKERS BAND JOB REPORT NAME:IN:OUT ..."),
    );
    USAGE
}
