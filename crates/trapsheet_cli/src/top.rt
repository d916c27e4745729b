ghost use Rattle.std.specs.Prelude.{◌≤◌, length, map, string_bytes};
ghost use Rattle.trapsheet_cli.specs.Clauses.{Completeness, FaultLine, LeavesFiles, Locality, ReadFault, RefusedInput, Reopened, Success, Usage, WriteFault};
ghost use Rattle.trapsheet_cli.specs.Endings.{EndsWords, RefusesWords, TellsUsage};
ghost use Rattle.page_model.specs.Limits.{most_plates};

use crate::run::run_order;
use crate::words::read_words;
use common_errors::line::Line;
use common_errors::statuses::USAGE;
use common_errors::telling::tell_line;
use outside::rack::Rack;
use outside::tray::Tray;
use sheet_files::laws::one_sheet_verdict;
use sheet_files::windows::WINDOW;
use sheet_geometry::budget::Budget;
use std::alloc::Global;
use std::thread::Threads;

/// Traps a sheet of any size, and returns the status that the program exits with.
///
/// The words are `WORKERS JOB REPORT NAME:IN:OUT ...`: the workers, from 1 to 64, the job's file, the report's, and one
/// to sixteen plates, each with the name of its colorant, the file that is read and the one that is written. Plate k is
/// read by tray k and written by rack k. The job is read by the first tray, before its plate, and the report is written
/// by the first rack, after all plates; lines are printed on it.
///
/// The job is read to its end, and then the plates are, side by side by the workers, which are threads of `rt`. All are
/// checked, and of a plate only its header is kept: if several plates are refused, the line names the first in the
/// order of the words, and which of the later ones were begun is not said. Then each plate is begun once more, and
/// strip by strip from the top its rows are read, trapped in windows by the workers, and written. A sheet that can't be
/// cut into strips of one height is read into memory as a whole. What is written is the same for every number of
/// workers, and that of the undivided sheet.
///
/// The status is 0 if the work is done; 2 if the words are no command; 3 if the job has a fault or lacks the details of
/// a plate's colorant; 4 if a plate's file has a fault, or the plates do not make a sheet that can be trapped, or a
/// plate is not the same when it is begun once more; 5 if a read failed; 6 if a write failed; and 7 if memory ran out.
/// Each error prints one line that names the cause. No file is created before all memory is allocated and each plate
/// has its header again.
pub fn trapsheet_main<H: Threads + Sync, T: Tray + Send, R: Rack + Send>(
    rt: &H,
    alloc: Global,
    words: &[String],
    trays: &mut [T],
    racks: &mut [R],
) -> u8
    requires trays { most_plates ≤ length trays.old }
    requires racks { most_plates ≤ length racks.old }
    ensures success { Success (map string_bytes words.now) (map T.state trays.old)
        (map T.state trays.new) (map R.state racks.old) (map R.state racks.new) result }
    ensures usage { Usage (map string_bytes words.now) (map T.state trays.old)
        (map T.state trays.new) (map R.state racks.old) (map R.state racks.new) result }
    ensures refused_input { RefusedInput (map string_bytes words.now) (map T.state trays.old)
        (map T.state trays.new) (map R.state racks.old) (map R.state racks.new) result }
    ensures read_fault { ReadFault (map string_bytes words.now) (map T.state trays.old)
        (map T.state trays.new) (map R.state racks.old) (map R.state racks.new) result }
    ensures write_fault { WriteFault (map string_bytes words.now) (map T.state trays.old)
        (map R.state racks.old) (map R.state racks.new) result }
    ensures memory { LeavesFiles (map R.state racks.old) (map R.state racks.new) result }
    ensures fault_line { FaultLine (map R.state racks.old) (map R.state racks.new) result }
    ensures reopened { Reopened (map string_bytes words.now) (map T.state trays.old)
        (map T.state trays.new) (map R.state racks.old) (map R.state racks.new) }
    ensures locality { Locality (map string_bytes words.now) (map T.state trays.old) }
    ensures completeness { Completeness (map string_bytes words.now) (map T.state trays.old)
        (map T.state trays.new) (map R.state racks.old) (map R.state racks.new) result }
{
    one_sheet_verdict();
    trapsheet_within(rt, alloc, words, &WINDOW, trays, racks)
}

/// Does what `trapsheet_main` does, with windows of at most the budget's rows and samples; if these are the usual rows,
/// the windows of a narrow sheet have twice as many, and those of a wide one fewer.
pub fn trapsheet_within<H: Threads + Sync, T: Tray + Send, R: Rack + Send>(
    rt: &H,
    alloc: Global,
    words: &[String],
    budget: &Budget,
    trays: &mut [T],
    racks: &mut [R],
) -> u8
    requires trays { most_plates ≤ length trays.old }
    requires racks { most_plates ≤ length racks.old }
    ensures { EndsWords (map string_bytes words.now) (map T.state trays.old)
        (map T.state trays.new) (map R.state racks.old) (map R.state racks.new) result }
{
    match read_words(words) {
        Some(order) => run_order(rt, alloc, &order, budget, trays, racks),
        None => refuse_words(racks),
    }
}

// Words that are no sheet are refused by this program's own usage line.
fn refuse_words<R: Rack>(racks: &mut [R]) -> u8
    requires { 1 ≤ length racks.old }
    ensures { RefusesWords (map R.state racks.old) (map R.state racks.new) result }
{
    tell_usage(&mut racks[0]);
    USAGE
}

fn tell_usage<R: Rack>(rack: &mut R)
    ensures { TellsUsage (R.state rack.old) (R.state rack.new) }
{
    tell_line(
        rack,
        &Line::of_text(b"usage: trapsheet WORKERS JOB REPORT NAME:IN:OUT ..."),
    );
}
