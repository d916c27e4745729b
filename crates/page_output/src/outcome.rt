ghost use Rattle.std.specs.Prelude.{◌≡◌, ◌≤◌, IfOk};
ghost use Rattle.page_model.specs.Counts.{page_counts};
ghost use Rattle.page_model.specs.Limits.{most_band_height, most_workers};
ghost use Rattle.page_model.specs.Tints.{trapped_planes};
ghost use Rattle.trap_engine.specs.Receipts.{IsWholeReceipt};
ghost use Rattle.trap_report.specs.Report.{AreCounts, report_of};

use band_claims::{Closed, Gate};
use page_model::page::Page;
use page_model::parts::{Name, OutOfMemory, PlaneList};
use std::alloc::Global;
use std::thread::Threads;
use trap_engine::{Trapped, trap_page};
use trap_report::report::report;

/// A page after trapping, its report, and the table at which it was trapped.
#[derive(Drop)]
pub struct Outcome {
    pub planes: PlaneList,
    pub report: Name,
    pub receipt: Closed,
}

/// Traps a page by `workers` workers, in bands of `band` rows, and makes its report. It fails only where memory runs
/// out.
pub fn outcome_of<H: Threads + Sync, G: Gate + Sync>(
    rt: &H,
    alloc: Global,
    page: &Page,
    workers: u32,
    band: u32,
    gate: &G,
) -> Result<Outcome, OutOfMemory>
    requires some_workers { 1 ≤ workers }
    requires few_workers { workers ≤ most_workers }
    requires some_rows { 1 ≤ band }
    requires few_rows { band ≤ most_band_height }
    ensures planes { IfOk result (λ o. o.planes ≡ trapped_planes page.now) }
    ensures report { IfOk result (λ o. o.report ≡ report_of page.now (page_counts page.now)) }
    ensures receipt { IfOk result (λ o. IsWholeReceipt page.now band o.receipt) }
{
    let (trapped, receipt) = trap_page(rt, alloc, page, workers, band, gate)?;
    report_trapped(alloc, page, trapped, receipt)
}

// The trapped page with its report.
fn report_trapped(
    alloc: Global,
    page: &Page,
    trapped: Trapped,
    receipt: Closed,
) -> Result<Outcome, OutOfMemory>
    requires counts { AreCounts page.now trapped.counts }
    ensures planes { IfOk result (λ o. o.planes ≡ trapped.planes) }
    ensures report { IfOk result (λ o. o.report ≡ report_of page.now trapped.counts) }
    ensures receipt { IfOk result (λ o. o.receipt ≡ receipt) }
{
    let Trapped { planes, counts } = trapped;
    match report(alloc, page, &counts) {
        Ok(report) => Ok(Outcome {
            planes,
            report,
            receipt,
        }),
        Err(_) => Err(OutOfMemory),
    }
}
