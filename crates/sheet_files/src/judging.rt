ghost use Rattle.std.specs.Prelude.{◌≡◌, ◌≤◌, length, map};
ghost use Rattle.job_reader.specs.InRange.{IsJob};
ghost use Rattle.page_files.specs.Inputs.{sources};
ghost use Rattle.sheet_files.specs.Judging.{JudgesRest, JudgesSheet};
ghost use Rattle.page_model.specs.Limits.{most_plates};

use crate::error::TrapsheetError;
use crate::gather::read_first;
use crate::planning::{PlannedSheet, plan_headers};
use job_reader::job::Job;
use lists::names::NameList;
use outside::tray::Tray;
use page_model::bounds::MOST_PLATES;
use pgm_plates::bounds::Bounds;
use pgm_plates::laws::file_fault_within;
use pgm_plates::rows::Header;
use plate_rows::laws::plates_judged;
use plate_rows::sharing::judge_plates;
use sheet_geometry::budget::Budget;
use std::alloc::Global;
use std::convert::AsStr;
use std::thread::Threads;

/// Reads the job of that name from the first tray, and then the plates, plate k from tray k, to their ends, side by
/// side on as many threads as there are workers; and checks the sheet that they make. Of a plate only its header is
/// kept. The names are those of the plates' colorants.
///
/// The error is the first of these: a read that fails, the job's fault, a plate's fault, a plate without details, a
/// fault of the sheet, or out of memory. If several plates are refused it is the first of them in the order of the
/// files; some of the plates after it may have been read as well.
pub fn judge_sheet<H: Threads + Sync, T: Tray + Send, S: AsStr + Sync>(
    rt: &H,
    alloc: Global,
    workers: u32,
    trays: &mut [T],
    job: &str,
    names: &NameList,
    inputs: &[S],
    budget: &Budget,
) -> Result<PlannedSheet, TrapsheetError>
    requires some_workers { 1 ≤ workers }
    requires some { 1 ≤ length inputs.now }
    requires few { length inputs.now ≤ most_plates }
    requires named { length names.now ≡ length inputs.now }
    requires trays { length inputs.now ≤ length trays.old }
    ensures { JudgesSheet (sources job.now names.now (map S.text inputs.now)) budget.now
        (map T.state trays.old) (map T.state trays.new) result }
{
    match read_first(alloc, trays, job) {
        Ok(read) => judge_rest(rt, alloc, workers, trays, read, names, inputs, budget),
        Err(error) => Err(error),
    }
}

// Checks the plates after the job, and the sheet of both.
fn judge_rest<H: Threads + Sync, T: Tray + Send, S: AsStr + Sync>(
    rt: &H,
    alloc: Global,
    workers: u32,
    trays: &mut [T],
    job: Job,
    names: &NameList,
    inputs: &[S],
    budget: &Budget,
) -> Result<PlannedSheet, TrapsheetError>
    requires some_workers { 1 ≤ workers }
    requires some { 1 ≤ length inputs.now }
    requires few { length inputs.now ≤ most_plates }
    requires named { length names.now ≡ length inputs.now }
    requires trays { length inputs.now ≤ length trays.old }
    requires job { IsJob job }
    ensures { JudgesRest names.now (map S.text inputs.now) budget.now job (map T.state trays.old)
        (map T.state trays.new) result }
{
    plates_judged();
    file_fault_within(Bounds::Sheet);
    let none = Header {
        width: 0,
        height: 0,
        maxval: 0,
    };
    let mut headers = [none; MOST_PLATES];
    match judge_plates(rt, workers, trays, inputs, &mut headers) {
        Ok(()) => plan_headers(alloc, job, &headers[..inputs.len()], names, budget),
        Err(common_error) => Err(TrapsheetError::Common(common_error)),
    }
}
