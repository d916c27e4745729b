ghost use Rattle.std.specs.Prelude.{◌≡◌, ◌≤◌, vec_len};
ghost use Rattle.traprun_cli.specs.Endings.{EndsRun, Runs, RunsFrom, TrapsPages};
ghost use Rattle.traprun_cli.specs.Opened.{IsOpenJob, IsWithin, order_in};
ghost use Rattle.traprun_cli.specs.Words.{sources_of, targets_of};

use crate::error::TraprunError;
use crate::gather::{OpenJob, open_job};
use crate::images::expect_end;
use crate::page::trap_one;
use crate::telling::refuse_run;
use crate::words::TraprunArgs;
use band_claims::Gate;
use common_errors::statuses::DONE;
use outside::rack::Rack;
use outside::tray::Tray;
use std::alloc::Global;
use std::thread::Threads;

// Runs the command, and returns the status that it ends with.
pub(crate) fn run_order<H: Threads + Sync, T: Tray, R: Rack, G: Gate + Sync>(
    rt: &H,
    alloc: Global,
    order: &TraprunArgs<'_>,
    tray: &mut T,
    rack: &mut R,
    gate: &G,
) -> u8
    requires { IsWithin order.now }
    ensures { EndsRun (order_in order.now) (T.state tray.old) (T.state tray.new)
        (R.state rack.old) (R.state rack.new) result }
{
    match carry_out(rt, alloc, order, tray, rack, gate) {
        Ok(()) => DONE,
        Err(error) => refuse_run(rack, &error),
    }
}

// Reads the job, then reads, traps and writes page after page; and checks the ends of the files after the last page.
fn carry_out<H: Threads + Sync, T: Tray, R: Rack, G: Gate + Sync>(
    rt: &H,
    alloc: Global,
    order: &TraprunArgs<'_>,
    tray: &mut T,
    rack: &mut R,
    gate: &G,
) -> Result<(), TraprunError>
    requires { IsWithin order.now }
    ensures { let meant = order_in order.now in
        Runs (sources_of meant) (targets_of meant) (T.state tray.old) (T.state tray.new)
        (R.state rack.old) (R.state rack.new) result }
{
    match open_job(alloc, order, tray) {
        Ok(opened) => trap_job(rt, alloc, &opened, tray, rack, gate),
        Err(error) => Err(error),
    }
}

// Traps all pages of a job that was read, and checks the ends of the files after the last one.
fn trap_job<H: Threads + Sync, T: Tray, R: Rack, G: Gate + Sync>(
    rt: &H,
    alloc: Global,
    opened: &OpenJob<'_>,
    tray: &mut T,
    rack: &mut R,
    gate: &G,
) -> Result<(), TraprunError>
    requires { IsOpenJob opened.now }
    ensures { let meant = order_in opened.now.order.now in
        RunsFrom (sources_of meant) (targets_of meant) opened.now.job (T.state tray.old)
        (T.state tray.new) (R.state rack.old) (R.state rack.new) result }
{
    trap_pages(rt, alloc, opened, tray, rack, gate)?;
    expect_end(alloc, tray, opened.job.count(), opened.inputs.as_slice())
}

// Traps all pages of the job, in their order.
fn trap_pages<H: Threads + Sync, T: Tray, R: Rack, G: Gate + Sync>(
    rt: &H,
    alloc: Global,
    opened: &OpenJob<'_>,
    tray: &mut T,
    rack: &mut R,
    gate: &G,
) -> Result<(), TraprunError>
    requires { IsOpenJob opened.now }
    ensures { let meant = order_in opened.now.order.now in
        TrapsPages (sources_of meant) (targets_of meant) opened.now.job (T.state tray.old)
        (T.state tray.new) (R.state rack.old) (R.state rack.new) result }
{
    for page in 0..opened.job.count() {
        match trap_one(rt, alloc, opened, page, tray, rack, gate) {
            Ok(()) => {}
            Err(error) => return Err(error),
        }
    }
    Ok(())
}
