ghost use Rattle.std.specs.Prelude.{◌≡◌, ◌≤◌, IfOk, MatchOption, length};
ghost use Rattle.job_reader.specs.InRange.{IsJob};
ghost use Rattle.job_reader.specs.Jobs.{job_of};
ghost use Rattle.trap_c.specs.Fit.{IsCall};
ghost use Rattle.trap_c.specs.Pages.{Fills};
ghost use Rattle.trap_c.specs.Places.{IsPlaced};
ghost use Rattle.trap_c.specs.Planes.{planes_in};
ghost use Rattle.trap_c.specs.Sources.{numbers};
ghost use Rattle.trap_c.specs.Windows.{GivesWindow, IsMovedJob, IsRead, near_window, window_by, window_with};

use crate::error::{CallError, CallFault};
use crate::layout::Layout;
use crate::page::page_of_job;
use crate::place::Place;
use crate::shift::{first_far, moved_job, suits};
use crate::source::Source;
use common_errors::common::CommonError;
use job_reader::job::Job;
use job_reader::reader::read_job;
use lists::names::{NameList, OutOfMemory};
use page_model::page::Page;
use ps_tokens::faults::JobError;
use std::alloc::Global;

/// Makes the page of a window, of a job's bytes and of the planes in the samples. `known` is the job that was read of these
/// bytes, if it was.
pub fn window_of(
    alloc: Global,
    bytes: &[u8],
    known: Option<&Job>,
    names: &NameList,
    source: &Source<'_>,
    layout: Layout,
    place: &Place,
) -> Result<Page, CallError>
    requires call { IsCall names.now layout (length (numbers source.now)) }
    requires placed { IsPlaced layout place.now }
    requires read { MatchOption known (Unit {0}) (λ job. IsRead bytes.now job.now) }
    ensures gives { GivesWindow (window_by layout place.now (job_of bytes.now) names.now
        (planes_in layout (numbers source.now) (length names.now))) result }
    ensures layout { IfOk result (Fills layout (length names.now)) }
{
    match known {
        Some(job) => window_of_job(alloc, job, names, source, layout, place),
        None => window_of_bytes(alloc, bytes, names, source, layout, place),
    }
}

fn window_of_bytes(
    alloc: Global,
    job: &[u8],
    names: &NameList,
    source: &Source<'_>,
    layout: Layout,
    place: &Place,
) -> Result<Page, CallError>
    requires call { IsCall names.now layout (length (numbers source.now)) }
    requires placed { IsPlaced layout place.now }
    ensures gives { GivesWindow (window_by layout place.now (job_of job.now) names.now
        (planes_in layout (numbers source.now) (length names.now))) result }
    ensures layout { IfOk result (Fills layout (length names.now)) }
{
    match read_job(alloc, job) {
        Ok(job) => window_of_job(alloc, &job, names, source, layout, place),
        Err(JobError::Fault(fault)) => Err(CallError::Page(CommonError::Job(fault))),
        Err(JobError::OutOfMemory) => Err(CallError::Page(CommonError::Memory)),
    }
}

fn window_of_job(
    alloc: Global,
    job: &Job,
    names: &NameList,
    source: &Source<'_>,
    layout: Layout,
    place: &Place,
) -> Result<Page, CallError>
    requires call { IsCall names.now layout (length (numbers source.now)) }
    requires placed { IsPlaced layout place.now }
    requires job { IsJob job.now }
    ensures gives { GivesWindow (window_with layout place.now job.now names.now
        (planes_in layout (numbers source.now) (length names.now))) result }
    ensures layout { IfOk result (Fills layout (length names.now)) }
{
    if !suits(job, layout, place) {
        return Err(CallError::Call(CallFault::Place));
    }
    match moved_job(alloc, job, layout, place) {
        Ok(moved) => window_of_moved(alloc, moved, names, source, layout),
        Err(OutOfMemory) => Err(CallError::Page(CommonError::Memory)),
    }
}

// The window of a job whose paths are moved. That the job is in range is known, except for its vertices.
fn window_of_moved(
    alloc: Global,
    job: Job,
    names: &NameList,
    source: &Source<'_>,
    layout: Layout,
) -> Result<Page, CallError>
    requires call { IsCall names.now layout (length (numbers source.now)) }
    requires job { IsMovedJob job }
    ensures gives { GivesWindow (near_window job names.now
        (planes_in layout (numbers source.now) (length names.now))) result }
    ensures layout { IfOk result (Fills layout (length names.now)) }
{
    if let Some(zone) = first_far(&job.zones) {
        return Err(CallError::Far(zone));
    }
    match page_of_job(alloc, job, names, source, layout) {
        Ok(page) => Ok(page),
        Err(common_error) => Err(CallError::Page(common_error)),
    }
}
