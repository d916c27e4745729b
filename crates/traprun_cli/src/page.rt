ghost use Rattle.std.specs.Prelude.{◌≡◌, length};
ghost use Rattle.job_pages.specs.Runs.{HasPage};
ghost use Rattle.page_model.specs.Page.{plates};
ghost use Rattle.traprun_cli.specs.Paging.{PutsPage, StepsPage};
ghost use Rattle.traprun_cli.specs.Opened.{IsOpenJob, IsWithin, order_in};
ghost use Rattle.traprun_cli.specs.Words.{sources_of, targets_of};

use crate::error::{TraprunError, error_at};
use crate::files::{numbered_name, outputs_at};
use crate::gather::{OpenJob, gather_page};
use crate::words::TraprunArgs;
use band_claims::Gate;
use common_errors::common::CommonError;
use outside::rack::Rack;
use outside::tray::Tray;
use page_model::page::Page;
use page_output::output::{OutputArgs, put_out};
use std::alloc::Global;
use std::thread::Threads;

/// Reads the page of that number, traps it, and writes its files.
pub(crate) fn trap_one<H: Threads + Sync, T: Tray, R: Rack, G: Gate + Sync>(
    rt: &H,
    alloc: Global,
    opened: &OpenJob<'_>,
    page: u32,
    tray: &mut T,
    rack: &mut R,
    gate: &G,
) -> Result<(), TraprunError>
    requires opened { IsOpenJob opened.now }
    requires page { HasPage opened.now.job page }
    ensures { let order = order_in opened.now.order.now in
        StepsPage (sources_of order) (targets_of order) opened.now.job page (T.state tray.old)
        (T.state tray.new) (R.state rack.old) (R.state rack.new) result }
{
    let made = gather_page(alloc, opened, page, tray)?;
    put_page(rt, alloc, opened.order, page, &made, rack, gate)
}

// Traps a page and writes its files, each to its name followed by the page's number.
fn put_page<H: Threads + Sync, R: Rack, G: Gate + Sync>(
    rt: &H,
    alloc: Global,
    order: &TraprunArgs<'_>,
    number: u32,
    page: &Page,
    rack: &mut R,
    gate: &G,
) -> Result<(), TraprunError>
    requires within { IsWithin order.now }
    requires count { plates page.now ≡ length order.now.plates.now }
    ensures { PutsPage (targets_of (order_in order.now)) number page.now (R.state rack.old)
        (R.state rack.new) result }
{
    let _valid = page.plates();
    let (outputs, report) = match (
        outputs_at(alloc, order.plates, number),
        numbered_name(alloc, order.report, number),
    ) {
        (Ok(outputs), Ok(report)) => (outputs, report),
        _ => return Err(TraprunError::Whole(CommonError::Memory)),
    };
    let files = OutputArgs {
        workers: order.workers,
        band: order.band,
        outputs: outputs.as_slice(),
        report: report.as_str(),
    };
    match put_out(rt, alloc, page, &files, rack, gate) {
        Ok(_receipt) => Ok(()),
        Err(common_error) => Err(error_at(number, common_error)),
    }
}
