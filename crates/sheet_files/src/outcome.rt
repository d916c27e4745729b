ghost use Rattle.std.specs.Prelude.{◌≡◌, ◌≤◌, IfOk, map};
ghost use Rattle.page_model.specs.Counts.{page_counts};
ghost use Rattle.page_model.specs.Page.{plates};
ghost use Rattle.page_model.specs.Tints.{trapped_planes};
ghost use Rattle.sheet_engine.specs.Whole.{IsCounted};
ghost use Rattle.trap_report.specs.Report.{report_of};
ghost use Rattle.sheet_files.specs.Trapping.{CanCut, CanTrap, IsTrappedSheet, plane_with};
ghost use Rattle.page_model.specs.Conditions.{IsPage};

use crate::reporting::counts_in_report;
use crate::whole::{TrappedSheet, trap_sheet};
use lists::list::List;
use page_model::page::Page;
use page_model::parts::{Name, OutOfMemory, PageParts, Plane, PlaneList, Tints};
use page_tally::Trapped;
use sheet_engine::counts::SheetCounts;
use sheet_geometry::plan::{Plan, Rulers};
use sheet_geometry::window_sheet::Sheet;
use std::alloc::Global;
use std::thread::Threads;
use strip_engine::trap_alone;
use trap_report::parts::report_parts;
use trap_report::report::report;

/// A sheet after trapping: its planes, and its report.
#[derive(Drop)]
pub struct SheetOutcome {
    pub planes: PlaneList,
    pub report: Name,
}

/// Traps a sheet as it is planned: window by window, the windows of a strip by `workers` workers; or as a page, by one
/// thread. It fails only where memory runs out.
pub fn outcome_of<H: Threads + Sync>(
    rt: &H,
    alloc: Global,
    parts: PageParts,
    plan: Plan,
    workers: u32,
) -> Result<SheetOutcome, OutOfMemory>
    requires some_workers { 1 ≤ workers }
    requires can { CanTrap parts plan }
    ensures planes { IfOk result (λ o. o.planes ≡ trapped_planes parts) }
    ensures report { IfOk result (λ o. o.report ≡ report_of parts (page_counts parts)) }
{
    match plan {
        Plan::Strips(rulers) => cut_outcome(rt, alloc, parts, &rulers, workers),
        Plan::Windows(rulers) => cut_outcome(rt, alloc, parts, &rulers, workers),
        Plan::Page => whole_outcome(alloc, parts),
    }
}

// A page after trapping by one thread, which frees the page.
fn whole_outcome(alloc: Global, parts: PageParts) -> Result<SheetOutcome, OutOfMemory>
    requires { IsPage parts }
    ensures planes { IfOk result (λ o. o.planes ≡ trapped_planes parts) }
    ensures report { IfOk result (λ o. o.report ≡ report_of parts (page_counts parts)) }
{
    page_outcome(alloc, &page_of(parts))
}

// A sheet after trapping, window by window, which frees the sheet.
fn cut_outcome<H: Threads + Sync>(
    rt: &H,
    alloc: Global,
    parts: PageParts,
    rulers: &Rulers,
    workers: u32,
) -> Result<SheetOutcome, OutOfMemory>
    requires some_workers { 1 ≤ workers }
    requires can { CanCut parts rulers.now }
    ensures planes { IfOk result (λ o. o.planes ≡ trapped_planes parts) }
    ensures report { IfOk result (λ o. o.report ≡ report_of parts (page_counts parts)) }
{
    sheet_outcome(rt, alloc, &Sheet::of(parts), rulers, workers)
}

// The page that a sheet is.
fn page_of(parts: PageParts) -> Page
    requires { IsPage parts }
    ensures { result ≡ parts }
{
    match Page::new(parts) {
        Ok(page) => page,
        Err(_) => unreachable!(),
    }
}

// A page after trapping by one thread.
fn page_outcome(alloc: Global, page: &Page) -> Result<SheetOutcome, OutOfMemory>
    ensures planes { IfOk result (λ o. o.planes ≡ trapped_planes page.now) }
    ensures report { IfOk result (λ o. o.report ≡ report_of page.now (page_counts page.now)) }
{
    let trapped = trap_alone(alloc, page)?;
    let Trapped { planes, counts } = trapped;
    match report(alloc, page, &counts) {
        Ok(report) => Ok(SheetOutcome { planes, report }),
        Err(_) => Err(OutOfMemory),
    }
}

// A sheet after trapping, window by window.
fn sheet_outcome<H: Threads + Sync>(
    rt: &H,
    alloc: Global,
    sheet: &Sheet,
    rulers: &Rulers,
    workers: u32,
) -> Result<SheetOutcome, OutOfMemory>
    requires some_workers { 1 ≤ workers }
    requires can { CanCut sheet.now rulers.now }
    ensures planes { IfOk result (λ o. o.planes ≡ trapped_planes sheet.now) }
    ensures report { IfOk result (λ o. o.report ≡ report_of sheet.now (page_counts sheet.now)) }
{
    let workers = workers as usize;
    let trapped = trap_sheet(rt, alloc, sheet, &rulers.across, &rulers.down, workers)?;
    with_report(alloc, sheet, trapped)
}

// The planes of a trapped sheet, with its report.
fn with_report(
    alloc: Global,
    sheet: &Sheet,
    trapped: TrappedSheet,
) -> Result<SheetOutcome, OutOfMemory>
    requires { IsTrappedSheet sheet.now trapped }
    ensures planes { IfOk result (λ o. o.planes ≡ trapped_planes sheet.now) }
    ensures report { IfOk result (λ o. o.report ≡ report_of sheet.now (page_counts sheet.now)) }
{
    let TrappedSheet { tints, counts } = trapped;
    let report = sheet_report(alloc, sheet, counts)?;
    let planes = planes_with(alloc, sheet, tints)?;
    Ok(SheetOutcome { planes, report })
}

fn sheet_report(alloc: Global, sheet: &Sheet, counts: SheetCounts) -> Result<Name, OutOfMemory>
    requires { IsCounted sheet.now counts }
    ensures { IfOk result (λ text. text ≡ report_of sheet.now (page_counts sheet.now)) }
{
    let _valid = sheet.plates();
    let counts = counts_in_report(counts);
    report_parts(alloc, sheet.parts(), &counts)
}

// The planes of these tints, with the sides and the maxval of a sheet.
fn planes_with(alloc: Global, sheet: &Sheet, tints: List<Tints>) -> Result<PlaneList, OutOfMemory>
    ensures { IfOk result (λ planes. planes ≡ map (plane_with sheet.now) tints) }
{
    let all = tints.into_vec();
    let mut planes = List::new(alloc);
    for plate in all {
        if planes.push(plane_of(sheet, plate)).is_err() {
            return Err(OutOfMemory);
        }
    }
    Ok(planes)
}

// The plane of these tints, with the sides and the maxval of a sheet.
fn plane_of(sheet: &Sheet, tints: Tints) -> Plane
    ensures { result ≡ plane_with sheet.now tints }
{
    Plane {
        width: sheet.width(),
        height: sheet.height(),
        maxval: sheet.maxval(),
        tints,
    }
}
