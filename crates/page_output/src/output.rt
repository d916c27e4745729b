ghost use Rattle.std.specs.Prelude.{◌≡◌, ◌≤◌, length, map};
ghost use Rattle.page_model.specs.Limits.{most_band_height, most_workers};
ghost use Rattle.page_model.specs.Page.{plates};
ghost use Rattle.page_output.specs.Output.{PutsOut, targets};

use crate::outcome::outcome_of;
use band_claims::{Closed, Gate};
use common_errors::common::CommonError;
use outside::rack::Rack;
use page_files::writing::write_page;
use page_model::laws::trapped_planes_law;
use page_model::page::Page;
use std::alloc::Global;
use std::convert::AsStr;
use std::thread::Threads;

/// How a page is trapped and written: by how many workers, from 1 to 64, in bands of how many rows, from 1 to 4,096;
/// and the files that its plates, in their order, and its report are written to.
#[derive(Drop)]
pub struct OutputArgs<'a, S> {
    pub workers: u32,
    pub band: u32,
    pub outputs: &'a [S],
    pub report: &'a str,
}

/// Traps the page, writes its files, and returns the receipt. All memory is allocated before the first file is created.
///
/// The error is `Memory`, which leaves all files as they were, or `Write`, as `page_files::write_page` gives it.
pub fn put_out<H: Threads + Sync, S: AsStr, R: Rack, G: Gate + Sync>(
    rt: &H,
    alloc: Global,
    page: &Page,
    order: &OutputArgs<'_, S>,
    rack: &mut R,
    gate: &G,
) -> Result<Closed, CommonError>
    requires some_workers { 1 ≤ order.now.workers }
    requires few_workers { order.now.workers ≤ most_workers }
    requires some_rows { 1 ≤ order.now.band }
    requires few_rows { order.now.band ≤ most_band_height }
    requires count { plates page.now ≡ length order.now.outputs.now }
    ensures { let target = targets (map S.text order.now.outputs.now) order.now.report.now in
        PutsOut order.now.band target page.now (R.state rack.old) (R.state rack.new) result }
{
    let _valid = page.plates();
    let Ok(outcome) = outcome_of(rt, alloc, page, order.workers, order.band, gate) else {
        return Err(CommonError::Memory);
    };
    trapped_planes_law(page);
    match write_page(
        rack,
        order.outputs,
        outcome.planes,
        order.report,
        outcome.report.as_slice(),
    ) {
        Ok(()) => Ok(outcome.receipt),
        Err(error) => Err(error),
    }
}
