ghost use Rattle.std.specs.Prelude.{◌≡◌, ◌<◌, ◌≤◌, ℕ, IfOk, IsTrue, length};
ghost use Rattle.job_reader.specs.InRange.{IsJob};
ghost use Rattle.trap_c.specs.Fit.{ArePlanesFit, IsCall, IsFull, IsLayout};
ghost use Rattle.trap_c.specs.Pages.{Fills, Gives, page_of as page_spec, page_with as page_with_spec};
ghost use Rattle.page_model.specs.Planes.{plane_at};
ghost use Rattle.trap_c.specs.Planes.{planes_in};
ghost use Rattle.trap_c.specs.Sources.{numbers};
ghost use Rattle.page_model.specs.Limits.{most_plates};

use crate::fit::first_above;
use crate::layout::Layout;
use crate::planes::{Copies, planes_of};
use crate::source::Source;
use common_errors::common::CommonError;
use job_reader::job::Job;
use job_reader::reader::read_job;
use lists::names::{NameList, OutOfMemory};
use page_files::assemble::assemble_planes;
use page_model::page::Page;
use ps_tokens::faults::JobError;
use std::alloc::Global;

/// Makes a page of a job's bytes and of the planes in the samples.
pub fn page_of(
    alloc: Global,
    job: &[u8],
    names: &NameList,
    source: &Source<'_>,
    layout: Layout,
) -> Result<Page, CommonError>
    requires { IsCall names.now layout (length (numbers source.now)) }
    ensures gives { Gives (page_spec job.now names.now
        (planes_in layout (numbers source.now) (length names.now))) result }
    ensures layout { IfOk result (Fills layout (length names.now)) }
{
    match read_job(alloc, job) {
        Ok(job) => page_of_job(alloc, job, names, source, layout),
        Err(JobError::Fault(fault)) => Err(CommonError::Job(fault)),
        Err(JobError::OutOfMemory) => Err(CommonError::Memory),
    }
}

/// Makes a page of a job and of the planes in the samples.
pub fn page_of_job(
    alloc: Global,
    job: Job,
    names: &NameList,
    source: &Source<'_>,
    layout: Layout,
) -> Result<Page, CommonError>
    requires call { IsCall names.now layout (length (numbers source.now)) }
    requires job { IsJob job }
    ensures gives { Gives (page_with_spec job names.now
        (planes_in layout (numbers source.now) (length names.now))) result }
    ensures layout { IfOk result (Fills layout (length names.now)) }
{
    match planes_of(alloc, source, layout, names) {
        Ok(copies) => page_with(alloc, job, names, copies, layout),
        Err(OutOfMemory) => Err(CommonError::Memory),
    }
}

fn page_with(
    alloc: Global,
    job: Job,
    names: &NameList,
    copies: Copies,
    layout: Layout,
) -> Result<Page, CommonError>
    requires layout { IsLayout layout }
    requires some { 1 ≤ length names.now }
    requires few { length names.now ≤ most_plates }
    requires count { length copies.planes ≡ length names.now }
    requires planes { (c : ℕ) → c < length copies.planes
        → IsFull layout (plane_at copies.planes c) }
    requires fit { IsTrue copies.are_fit → ArePlanesFit copies.planes }
    requires job { IsJob job }
    ensures gives { Gives (page_with_spec job names.now copies.planes) result }
    ensures layout { IfOk result (Fills layout (length names.now)) }
{
    match first_above(&copies.planes, copies.are_fit) {
        Some(common_error) => Err(common_error),
        None => assemble_planes(alloc, job, copies.planes, names),
    }
}
