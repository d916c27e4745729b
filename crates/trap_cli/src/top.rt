ghost use Rattle.std.specs.Prelude.{map, string_bytes};
ghost use Rattle.trap_cli.specs.Clauses.{Success, Usage, RefusedInput, ReadFault, WriteFault, LeavesFiles, FaultLine, Locality, SamplePage, Completeness};
ghost use Rattle.trap_cli.specs.Endings.{Ends};

use crate::command::{Command, read_words};
pub use crate::ending::Ended;
use crate::ending::end_with_error;
use crate::page::run_page;
use crate::sample::run_sample;
use band_claims::Gate;
use common_errors::common::CommonError;
use outside::rack::Rack;
use outside::tray::Tray;
use page_model::parts::OutOfMemory;
use pgm_plates::laws::{not_both, one_fault, one_plate};
use std::alloc::Global;
use std::thread::Threads;

/// Runs the command of the words, and returns the status that the program exits with, and at status 0 the receipt of
/// the work.
///
/// `page [--workers N] [--band B] JOB REPORT NAME:IN:OUT ...` reads the job, then each plate in the order of the words,
/// traps the page by N workers in bands of B rows, and only then writes: each plate in order, and then the report.
/// `sample NUMBER WIDTH HEIGHT WORKERS` traps a page of the program's own in bands of 64 rows and prints its report.
/// The workers are threads of `rt`, and `gate` is called for each piece that one of them claims. What is written is the
/// same for every number of workers, every band, and every order in which the workers claim and publish.
///
/// The status is 0 if the work is done; 2 if the words are no command; 3 if the job has a fault or lacks the details of
/// a plate's colorant; 4 if a plate's file has a fault, or the plates do not make a page; 5 if a read failed; 6 if a
/// write failed; and 7 if memory ran out. Each error prints one line that names the cause.
///
/// The receipt of status 0 is the closed table of the page that the job and the plates make, in bands of B rows, or of
/// the sample page, in bands of 64. In it every piece is done and every cell is that of the whole-page rule; no piece
/// was published twice, by the workers or by the caller alone after them; and each piece is accounted for: the workers
/// published it or saw it done, or saw it claimed or a need of it not done.
pub fn trap_main<H: Threads + Sync, T: Tray, R: Rack, G: Gate + Sync>(
    rt: &H,
    alloc: Global,
    words: &[String],
    tray: &mut T,
    rack: &mut R,
    gate: &G,
) -> Ended
    ensures success { Success (map string_bytes words.now) (T.state tray.old) (T.state tray.new)
        (R.state rack.old) (R.state rack.new) result.status result.receipt }
    ensures usage { Usage (map string_bytes words.now) (T.state tray.old) (T.state tray.new)
        (R.state rack.old) (R.state rack.new) result.status }
    ensures refused_input { RefusedInput (map string_bytes words.now) (T.state tray.old)
        (T.state tray.new) (R.state rack.old) (R.state rack.new) result.status }
    ensures read_fault { ReadFault (map string_bytes words.now) (T.state tray.old)
        (T.state tray.new) (R.state rack.old) (R.state rack.new) result.status }
    ensures write_fault { WriteFault (map string_bytes words.now) (T.state tray.old)
        (R.state rack.old) (R.state rack.new) result.status }
    ensures memory { LeavesFiles (R.state rack.old) (R.state rack.new) result.status }
    ensures fault_line { FaultLine (R.state rack.old) (R.state rack.new) result.status }
    ensures locality { Locality (map string_bytes words.now) (T.state tray.old) }
    ensures sample { SamplePage (map string_bytes words.now) (T.state tray.old) (T.state tray.new)
        (R.state rack.old) (R.state rack.new) result.status }
    ensures completeness { Completeness (map string_bytes words.now) (T.state tray.old)
        (T.state tray.new) (R.state rack.old) (R.state rack.new) result.status }
{
    not_both();
    one_plate();
    one_fault();
    run(rt, alloc, words, tray, rack, gate)
}

fn run<H: Threads + Sync, T: Tray, R: Rack, G: Gate + Sync>(
    rt: &H,
    alloc: Global,
    words: &[String],
    tray: &mut T,
    rack: &mut R,
    gate: &G,
) -> Ended
    ensures { Ends (map string_bytes words.now) (T.state tray.old) (T.state tray.new)
        (R.state rack.old) (R.state rack.new) result.status result.receipt }
{
    match read_words(alloc, words) {
        Ok(Some(Command::Page(page))) => run_page(rt, alloc, &page, tray, rack, gate),
        Ok(Some(Command::Sample(sample))) => run_sample(rt, alloc, sample, rack, gate),
        Ok(None) => end_with_error(rack, &CommonError::Usage),
        Err(OutOfMemory) => end_with_error(rack, &CommonError::Memory),
    }
}
