ghost use Rattle.std.specs.Prelude.{map, string_bytes};
ghost use Rattle.trappool_cli.specs.Clauses.{AnswersEach, AnswersLines, BeginsList, Completeness, IsStatus, JudgesList, LeavesFiles, RefusedList, Success, Untold, Usage};
ghost use Rattle.trappool_cli.specs.Endings.{Ends};

use crate::answering::answer_all;
use crate::asking::{make_replies, refuse_list, refuse_words};
use crate::words::read_words;
use job_list::laws::one_reading;
use outside::rack::Rack;
use outside::tray::Tray;
use page_files::laws::one_verdict;
use std::alloc::Global;
use std::sync::Wait;
use std::thread::Threads;
use trap_pool::TakeGate;

/// Traps the pages of a list of jobs, and returns the status that the program exits with.
///
/// The words are `WORKERS LIST`: from 1 to 64 workers, and the file of the list, which has a line `JOB REPORT
/// NAME:IN:OUT ...` for each job. It reads the list, then for each line in order the job and the plates, and traps the
/// pages by the workers, which are threads of `rt`; `gate` is called for each line that one of them takes. Only then it
/// writes: line by line the plates and the report of a page that was trapped, and prints `job K: done`, or `job K: `
/// and why line K is refused, or `job K: TooLarge`. A line whose files can't be written is refused, and the next line
/// goes on.
///
/// The status is 0 if every line is done; 2 if the words are no command; 3 if the list has a bad line; 5 if the list
/// could not be read; 6 if a line could not be printed, after which nothing is written; 7 if memory ran out before the
/// first write; and 9 if some line was refused.
pub fn trappool_main<H: Threads + Wait + Sync, T: Tray, R: Rack, G: TakeGate + Sync>(
    rt: &H,
    alloc: Global,
    words: &[String],
    tray: &mut T,
    rack: &mut R,
    gate: &G,
) -> u8
    ensures ends { Ends (map string_bytes words.now) (T.state tray.old) (T.state tray.new)
        (R.state rack.old) (R.state rack.new) result }
    ensures usage { Usage (map string_bytes words.now) (T.state tray.old) (T.state tray.new)
        (R.state rack.old) (R.state rack.new) result }
    ensures refused_list { RefusedList (map string_bytes words.now) (T.state tray.old)
        (T.state tray.new) (R.state rack.old) (R.state rack.new) result }
    ensures files { LeavesFiles (R.state rack.old) (R.state rack.new) result }
    ensures success { Success (map string_bytes words.now) (T.state tray.old) (R.state rack.old)
        (R.state rack.new) result }
    ensures untold { Untold (R.state rack.old) (R.state rack.new) result }
    ensures answers { AnswersLines (map string_bytes words.now) (T.state tray.old)
        (T.state tray.new) (R.state rack.old) (R.state rack.new) result }
    ensures judged { JudgesList (map string_bytes words.now) (T.state tray.old)
        (T.state tray.new) (R.state rack.old) (R.state rack.new) result }
    ensures each_line { AnswersEach (map string_bytes words.now) (T.state tray.old)
        (T.state tray.new) (R.state rack.old) (R.state rack.new) result }
    ensures begins { BeginsList (map string_bytes words.now) (T.state tray.old)
        (T.state tray.new) result }
    ensures completeness { Completeness (map string_bytes words.now) (T.state tray.old)
        (T.state tray.new) (R.state rack.old) (R.state rack.new) result }
    ensures statuses { IsStatus result }
{
    one_reading();
    one_verdict();
    run(rt, alloc, words, tray, rack, gate)
}

fn run<H: Threads + Wait + Sync, T: Tray, R: Rack, G: TakeGate + Sync>(
    rt: &H,
    alloc: Global,
    words: &[String],
    tray: &mut T,
    rack: &mut R,
    gate: &G,
) -> u8
    ensures { Ends (map string_bytes words.now) (T.state tray.old) (T.state tray.new)
        (R.state rack.old) (R.state rack.new) result }
{
    let Some(asked) = read_words(words) else {
        return refuse_words(rack);
    };
    match make_replies(rt, alloc, asked, tray, gate) {
        Ok((lines, replies)) => answer_all(rack, &lines, replies),
        Err(fault) => refuse_list(rack, fault),
    }
}
