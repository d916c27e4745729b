ghost use Rattle.std.specs.Prelude.{◌≡◌, length, vec_len};
ghost use Rattle.page_model.specs.Page.{plates};
ghost use Rattle.trap_cli.specs.Stored.{IsPageWithin, page_in};
ghost use Rattle.trap_cli.specs.Commands.{sources_of, targets_of};
ghost use Rattle.page_files.specs.Gathering.{ReadsPage};
ghost use Rattle.trap_cli.specs.Endings.{CarriesOut, EndsPage};
ghost use Rattle.page_output.specs.Output.{PutsOut};

use crate::command::PageArgs;
use crate::ending::{Ended, end_with_error};
use band_claims::{Closed, Gate};
use common_errors::common::CommonError;
use common_errors::statuses::DONE;
use outside::rack::Rack;
use outside::tray::Tray;
use page_files::gather::gather;
use page_model::page::Page;
use page_output::output::{OutputArgs, put_out};
use plain_words::files::{plate_inputs, plate_names, plate_outputs};
use std::alloc::Global;
use std::thread::Threads;

// Runs the command `page`, and returns how it ended.
pub(crate) fn run_page<H: Threads + Sync, T: Tray, R: Rack, G: Gate + Sync>(
    rt: &H,
    alloc: Global,
    command: &PageArgs<'_>,
    tray: &mut T,
    rack: &mut R,
    gate: &G,
) -> Ended
    requires { IsPageWithin command.now }
    ensures { let page = page_in command.now in
        EndsPage page.band (sources_of page) (targets_of page) (T.state tray.old)
        (T.state tray.new) (R.state rack.old) (R.state rack.new) result.status result.receipt }
{
    match carry_out(rt, alloc, command, tray, rack, gate) {
        Ok(receipt) => Ended {
            status: DONE,
            receipt: Some(receipt),
        },
        Err(error) => end_with_error(rack, &error),
    }
}

// Reads the page, traps it, and only then writes.
fn carry_out<H: Threads + Sync, T: Tray, R: Rack, G: Gate + Sync>(
    rt: &H,
    alloc: Global,
    command: &PageArgs<'_>,
    tray: &mut T,
    rack: &mut R,
    gate: &G,
) -> Result<Closed, CommonError>
    requires { IsPageWithin command.now }
    ensures { let page = page_in command.now in
        CarriesOut page.band (sources_of page) (targets_of page) (T.state tray.old)
        (T.state tray.new) (R.state rack.old) (R.state rack.new) result }
{
    let page = read_page(alloc, command, tray)?;
    write_out(rt, alloc, command, &page, rack, gate)
}

// Reads the page of the command's job and plates.
fn read_page<T: Tray>(
    alloc: Global,
    command: &PageArgs<'_>,
    tray: &mut T,
) -> Result<Page, CommonError>
    requires { IsPageWithin command.now }
    ensures { let source = sources_of (page_in command.now) in
        ReadsPage source (T.state tray.old) (T.state tray.new) result }
{
    let words = command.plates.as_slice();
    match (plate_names(alloc, words), plate_inputs(alloc, words)) {
        (Ok(names), Ok(inputs)) => gather(alloc, tray, command.job, &names, inputs.as_slice()),
        _ => Err(CommonError::Memory),
    }
}

// Traps the page, writes its files, and returns the receipt. All memory is allocated before the first file is created.
fn write_out<H: Threads + Sync, R: Rack, G: Gate + Sync>(
    rt: &H,
    alloc: Global,
    command: &PageArgs<'_>,
    page: &Page,
    rack: &mut R,
    gate: &G,
) -> Result<Closed, CommonError>
    requires within { IsPageWithin command.now }
    requires count { plates page.now ≡ vec_len command.now.plates }
    ensures { let meant = page_in command.now in
        PutsOut meant.band (targets_of meant) page.now (R.state rack.old)
        (R.state rack.new) result }
{
    let _valid = page.plates();
    let Ok(outputs) = plate_outputs(alloc, command.plates.as_slice()) else {
        return Err(CommonError::Memory);
    };
    let order = OutputArgs {
        workers: command.workers,
        band: command.band,
        outputs: outputs.as_slice(),
        report: command.report,
    };
    put_out(rt, alloc, page, &order, rack, gate)
}
