ghost use Rattle.std.specs.Prelude.{◌≡◌, ◌≤◌, All, IfOk, MatchOption, length};
ghost use Rattle.page_model.specs.Conditions.{IsPlane};
ghost use Rattle.page_model.specs.Counts.{page_counts};
ghost use Rattle.page_model.specs.Limits.{most_maxval};
ghost use Rattle.page_model.specs.Tints.{trapped_planes};
ghost use Rattle.trap_report.specs.Report.{report_of};
ghost use Rattle.trap_c.specs.Fit.{IsCall};
ghost use Rattle.job_reader.specs.Jobs.{job_of};
ghost use Rattle.trap_c.specs.Calls.{Works};
ghost use Rattle.trap_c.specs.WindowCalls.{WorksWindow};
ghost use Rattle.trap_c.specs.Windows.{IsRead, call_window, named_window, window_by};
ghost use Rattle.trap_c.specs.Places.{IsPlaced};
ghost use Rattle.trap_c.specs.Requests.{asked};
ghost use Rattle.trap_c.specs.Pages.{call_page, named_page, page_of as page_spec, error_or};
ghost use Rattle.trap_c.specs.Planes.{planes_in};
ghost use Rattle.trap_c.specs.Sources.{numbers};

use crate::error::{CallError, CallFault};
use crate::fit::call_fault;
use crate::layout::Layout;
use crate::names::names_of;
use crate::page::page_of;
use crate::place::{Place, is_place};
use crate::request::Request;
use crate::source::Source;
use crate::tally::trapped_window;
use crate::window::window_of;
use common_errors::common::CommonError;
use job_reader::job::Job;
use lists::names::{Name, NameList, OutOfMemory};
use page_model::laws::trapped_planes_law;
use page_model::page::Page;
use page_model::parts::{Counts, PlaneList};
use page_tally::Trapped;
use std::alloc::Global;
use strip_engine::trap_alone;
use trap_report::report::report;

/// A page after trapping, its report, and what that counts.
#[derive(Drop)]
pub struct Done {
    pub planes: PlaneList,
    pub report: Name,
    pub counts: Counts,
}

/// What a call says of a page that was trapped: the report, and what it counts.
#[derive(Drop)]
pub struct Told {
    pub report: Name,
    pub counts: Counts,
}

/// Carries out a call up to the planes after trapping, which are still to be written to the samples. `most` is the
/// greatest number that a sample's type holds.
pub fn carry_out(
    alloc: Global,
    most: u32,
    request: &Request<'_>,
    source: &Source<'_>,
) -> Result<Done, CallError>
    requires { most ≤ most_maxval }
    ensures { Works most request.now.layout (numbers source.now)
        (call_page most (asked request.now) (numbers source.now)) result }
{
    match names_of(alloc, request.names) {
        Ok(names) => carry_out_named(alloc, most, request, &names, source),
        Err(OutOfMemory) => Err(CallError::Page(CommonError::Memory)),
    }
}

fn carry_out_named(
    alloc: Global,
    most: u32,
    request: &Request<'_>,
    names: &NameList,
    source: &Source<'_>,
) -> Result<Done, CallError>
    requires { most ≤ most_maxval }
    ensures { let layout = request.now.layout in
        Works most layout (numbers source.now)
        (named_page most request.now.job.now names.now layout (numbers source.now)) result }
{
    let layout = request.layout;
    if let Some(fault) = call_fault(most, names.as_slice(), layout, source.count()) {
        return Err(CallError::Call(fault));
    }
    trap_source(alloc, request.job, names, source, layout)
}

fn trap_source(
    alloc: Global,
    job: &[u8],
    names: &NameList,
    source: &Source<'_>,
    layout: Layout,
) -> Result<Done, CallError>
    requires { IsCall names.now layout (length (numbers source.now)) }
    ensures { let planes = planes_in layout (numbers source.now) (length names.now) in
        Works layout.maxval layout (numbers source.now)
        (error_or (page_spec job.now names.now planes)) result }
{
    match page_of(alloc, job, names, source, layout) {
        Ok(page) => match trap_whole(alloc, &page) {
            Ok(done) => Ok(done),
            Err(OutOfMemory) => Err(CallError::Page(CommonError::Memory)),
        },
        Err(common_error) => Err(CallError::Page(common_error)),
    }
}

fn trap_whole(alloc: Global, page: &Page) -> Result<Done, OutOfMemory>
    ensures planes { IfOk result (λ done. done.planes ≡ trapped_planes page.now) }
    ensures report { IfOk result (λ done. done.report ≡ report_of page.now (page_counts page.now)) }
    ensures in_range { All IsPlane (trapped_planes page.now) }
{
    trapped_planes_law(page);
    let Trapped { planes, counts } = trap_alone(alloc, page)?;
    let report = report(alloc, page, &counts)?;
    Ok(Done {
        planes,
        report,
        counts,
    })
}

/// Carries out a window's call up to the planes after trapping, whose cores are still to be written to the samples.
/// `most` is the greatest number that a sample's type holds, and `known` the job that was read of the request's bytes, if it was.
pub fn carry_out_window(
    alloc: Global,
    most: u32,
    request: &Request<'_>,
    known: Option<&Job>,
    place: &Place,
    source: &Source<'_>,
) -> Result<Done, CallError>
    requires most { most ≤ most_maxval }
    requires read { MatchOption known (Unit {0}) (λ job. IsRead request.now.job.now job.now) }
    ensures { WorksWindow most request.now.layout place.now (numbers source.now)
        (call_window most (asked request.now) place.now (numbers source.now)) result }
{
    match names_of(alloc, request.names) {
        Ok(names) => carry_out_named_window(alloc, most, request, known, place, &names, source),
        Err(OutOfMemory) => Err(CallError::Page(CommonError::Memory)),
    }
}

fn carry_out_named_window(
    alloc: Global,
    most: u32,
    request: &Request<'_>,
    known: Option<&Job>,
    place: &Place,
    names: &NameList,
    source: &Source<'_>,
) -> Result<Done, CallError>
    requires most { most ≤ most_maxval }
    requires read { MatchOption known (Unit {0}) (λ job. IsRead request.now.job.now job.now) }
    ensures { let layout = request.now.layout in
        WorksWindow most layout place.now (numbers source.now)
        (named_window most request.now.job.now names.now layout place.now (numbers source.now))
        result }
{
    let layout = request.layout;
    if let Some(fault) = call_fault(most, names.as_slice(), layout, source.count()) {
        return Err(CallError::Call(fault));
    }
    if !is_place(layout, place) {
        return Err(CallError::Call(CallFault::Place));
    }
    trap_window(alloc, request.job, known, names, source, layout, place)
}

fn trap_window(
    alloc: Global,
    job: &[u8],
    known: Option<&Job>,
    names: &NameList,
    source: &Source<'_>,
    layout: Layout,
    place: &Place,
) -> Result<Done, CallError>
    requires call { IsCall names.now layout (length (numbers source.now)) }
    requires placed { IsPlaced layout place.now }
    requires read { MatchOption known (Unit {0}) (λ known. IsRead job.now known.now) }
    ensures { let planes = planes_in layout (numbers source.now) (length names.now) in
        WorksWindow layout.maxval layout place.now (numbers source.now)
        (window_by layout place.now (job_of job.now) names.now planes) result }
{
    let page = window_of(alloc, job, known, names, source, layout, place)?;
    match trapped_window(alloc, &page, place) {
        Ok(done) => Ok(done),
        Err(OutOfMemory) => Err(CallError::Page(CommonError::Memory)),
    }
}
