ghost use Rattle.std.specs.Prelude.{◌≡◌, All, IfOk};
ghost use Rattle.page_model.specs.Conditions.{IsPlane};
ghost use Rattle.page_model.specs.Tints.{trapped_planes};
ghost use Rattle.sheet_engine.specs.Growth.{AddsArea, LiesOn};
ghost use Rattle.trap_c.specs.Cores.{AreNone, HasCounts, core_counts};
ghost use Rattle.trap_c.specs.Places.{core_of as core_spec};
ghost use Rattle.trap_c.specs.ReportRecords.{AreFew};
ghost use Rattle.trap_report.specs.Report.{sided_report_of};

use crate::place::{Place, core_of};
use crate::work::Done;
use lists::list::List;
use lists::memory::no_counts;
use page_model::laws::trapped_planes_law;
use page_model::page::Page;
use page_model::parts::{Counts, OutOfMemory, PlaneList};
use sheet_engine::counts::SheetCounts;
use sheet_engine::tile::trap_tile;
use sheet_geometry::cuts::Cut;
use std::alloc::Global;
use trap_report::report::sided_report;

fn none_of(alloc: Global, page: &Page) -> Result<SheetCounts, OutOfMemory>
    ensures { IfOk result (AreNone page.now) }
{
    Ok(SheetCounts {
        zone_samples: no_counts(alloc, page.zones() as usize)?,
        zone_changed: no_counts(alloc, page.zones() as usize)?,
        plate_changed: no_counts(alloc, page.plates() as usize)?,
        edges: 0,
    })
}

fn counts_of(counts: SheetCounts) -> Counts
    ensures { HasCounts counts result }
{
    Counts {
        zone_samples: List::from_vec(counts.zone_samples),
        zone_changed: List::from_vec(counts.zone_changed),
        edges: counts.edges,
        plate_changed: List::from_vec(counts.plate_changed),
    }
}

/// A window after trapping, and the counts of its core.
#[derive(Drop)]
pub struct Tallied {
    pub planes: PlaneList,
    pub counts: Counts,
}

fn tally_core(alloc: Global, page: &Page, core: &Cut) -> Result<Tallied, OutOfMemory>
    requires { LiesOn page.now core.now }
    ensures planes { IfOk result (λ done. done.planes ≡ trapped_planes page.now) }
    ensures counts { IfOk result (λ done. done.counts ≡ core_counts page.now core.now) }
{
    let _valid = page.plates();
    let mut counts = none_of(alloc, page)?;
    let planes = trap_tile(alloc, page, core, &mut counts)?;
    Ok(Tallied {
        planes,
        counts: counts_of(counts),
    })
}

fn tally_window(alloc: Global, page: &Page, place: &Place) -> Result<Tallied, OutOfMemory>
    requires { LiesOn page.now (core_spec place.now) }
    ensures planes { IfOk result (λ done. done.planes ≡ trapped_planes page.now) }
    ensures counts { IfOk result (λ done. done.counts
        ≡ core_counts page.now (core_spec place.now)) }
{
    tally_core(alloc, page, &core_of(place))
}

/// The planes of a window after trapping, and its core's part of the report.
pub fn trapped_window(alloc: Global, page: &Page, place: &Place) -> Result<Done, OutOfMemory>
    requires { LiesOn page.now (core_spec place.now) }
    ensures planes { IfOk result (λ done. done.planes ≡ trapped_planes page.now) }
    ensures report { IfOk result (λ done. done.report ≡ sided_report_of page.now
        place.now.sheet_width place.now.sheet_height
        (core_counts page.now (core_spec place.now))) }
    ensures counts { IfOk result (λ done. done.counts
        ≡ core_counts page.now (core_spec place.now)) }
    ensures few { IfOk result (λ done. AreFew done.counts) }
    ensures in_range { All IsPlane (trapped_planes page.now) }
{
    let _valid = page.plates();
    trapped_planes_law(page);
    let Tallied { planes, counts } = tally_window(alloc, page, place)?;
    let report = sided_report(alloc, page, place.sheet_width, place.sheet_height, &counts)?;
    Ok(Done {
        planes,
        report,
        counts,
    })
}
