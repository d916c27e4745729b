ghost use Rattle.std.specs.Prelude.{◌≡◌, ◌≤◌, ℕ, List, length, map};
ghost use Rattle.job_reader.specs.InRange.{IsJob};
ghost use Rattle.page_files.specs.Gathering.{Gathers, GathersRest};
ghost use Rattle.page_files.specs.Inputs.{sources};
ghost use Rattle.page_model.specs.Limits.{most_plates};

use crate::assemble::assemble_planes;
use crate::job::read_job_file;
use crate::plates::read_plates;
use common_errors::common::CommonError;
use job_reader::job::Job;
use lists::names::NameList;
use outside::tray::Tray;
use page_model::page::Page;
use pgm_plates::laws::plane_turns_back;
use std::alloc::Global;
use std::convert::AsStr;

/// Reads the job of that name and then each plate in the order of its file, to their ends, and makes a page of them.
/// The names are those of the plates' colorants.
///
/// It stops at the first error: a read that fails, the job's fault, a plate's fault, a plate without details, a fault
/// of the page, or out of memory. No file is begun after the one that is refused.
pub fn gather<T: Tray, S: AsStr>(
    alloc: Global,
    tray: &mut T,
    job: &str,
    names: &NameList,
    inputs: &[S],
) -> Result<Page, CommonError>
    requires some { 1 ≤ length inputs.now }
    requires few { length inputs.now ≤ most_plates }
    requires named { length names.now ≡ length inputs.now }
    ensures { Gathers (sources job.now names.now (map S.text inputs.now)) (T.state tray.old)
        (T.state tray.new) result }
{
    let read = read_job_file(alloc, tray, job)?;
    gather_plates(alloc, tray, read, names, inputs)
}

// Reads the plates after the job, and makes a page of both.
fn gather_plates<T: Tray, S: AsStr>(
    alloc: Global,
    tray: &mut T,
    job: Job,
    names: &NameList,
    inputs: &[S],
) -> Result<Page, CommonError>
    requires some { 1 ≤ length inputs.now }
    requires few { length inputs.now ≤ most_plates }
    requires named { length names.now ≡ length inputs.now }
    requires job { IsJob job }
    ensures { (name : List ℕ) → GathersRest (sources name names.now (map S.text inputs.now)) job
        (T.state tray.old) (T.state tray.new) result }
{
    let planes = read_plates(alloc, tray, inputs)?;
    plane_turns_back();
    assemble_planes(alloc, job, planes, names)
}
