ghost use Rattle.std.specs.Prelude.{◌≡◌, ◌≤◌, length, map};
ghost use Rattle.sheet_geometry.specs.Areas.{traps};
ghost use Rattle.sheet_geometry.specs.Outline.{IsOutlineSheet, outline_sheet};
ghost use Rattle.sheet_geometry.specs.Planned.{IsPlanFor};
ghost use Rattle.page_model.specs.declared.parts.PageParts.{PageParts};
ghost use Rattle.page_model.specs.Page.{plates};
ghost use Rattle.page_model.specs.Tints.{trapped_planes};
ghost use Rattle.sheet_files.specs.Judging.{JudgesSheet};
ghost use Rattle.sheet_stream.specs.Second.{course_of};
ghost use Rattle.trapsheet_cli.specs.Endings.{CarriesOut, EndsSheet, PutsOut, RefusesFirst};
ghost use Rattle.sheet_files.specs.Reporting.{sheet_report};
ghost use Rattle.trapsheet_cli.specs.Stored.{AreInputs, IsWithin, order_in};
ghost use Rattle.trapsheet_cli.specs.Planned.{PutsPlanned, PutsWhole};
ghost use Rattle.sheet_files.specs.Streaming.{StreamsBy, StreamsOut};
ghost use Rattle.sheet_files.specs.Holding.{CanHold};
ghost use Rattle.sheet_files.specs.Racks.{CanWrite};
ghost use Rattle.sheet_files.specs.Trapping.{CanTrap};
ghost use Rattle.trapsheet_cli.specs.Files.{sources_of, targets_of};
ghost use Rattle.sheet_geometry.specs.Sheets.{IsSheet};
ghost use Rattle.page_model.specs.Limits.{most_plates};

use crate::words::SheetArgs;
use common_errors::common::CommonError;
use common_errors::statuses::DONE;
use outside::rack::Rack;
use outside::tray::Tray;
use page_model::parts::PageParts;
use plain_words::files::{plate_inputs, plate_names, plate_outputs};
use plate_rows::laws::no_change;
use sheet_files::error::TrapsheetError;
use sheet_files::holding::hold;
use sheet_files::judging::judge_sheet;
use sheet_files::laws::sheet_is_reread;
use sheet_files::outcome::{SheetOutcome, outcome_of};
use sheet_files::planning::PlannedSheet;
use sheet_files::streaming::{SheetNames, stream};
use sheet_files::telling::refuse_sheet;
use sheet_files::windows::rulers_for;
use sheet_files::writing::write_sheet;
use sheet_geometry::budget::Budget;
use sheet_geometry::plan::{Plan, Rulers};
use sheet_stream::parts::PlateNames;
use std::alloc::Global;
use std::thread::Threads;

// Runs the command on a sheet, and returns the status that it ends with.
pub(crate) fn run_order<H: Threads + Sync, T: Tray + Send, R: Rack>(
    rt: &H,
    alloc: Global,
    order: &SheetArgs<'_>,
    budget: &Budget,
    trays: &mut [T],
    racks: &mut [R],
) -> u8
    requires within { IsWithin order.now }
    requires trays { most_plates ≤ length trays.old }
    requires racks { most_plates ≤ length racks.old }
    ensures { EndsSheet (order_in order.now) (map T.state trays.old) (map T.state trays.new)
        (map R.state racks.old) (map R.state racks.new) result }
{
    match carry_out(rt, alloc, order, budget, trays, racks) {
        Ok(()) => DONE,
        Err(error) => refuse_first(racks, &error),
    }
}

// Prints the line of a stop on the first rack, and returns its status.
fn refuse_first<R: Rack>(racks: &mut [R], error: &TrapsheetError) -> u8
    requires { 1 ≤ length racks.old }
    ensures { RefusesFirst error.now (map R.state racks.old) (map R.state racks.new) result }
{
    refuse_sheet(&mut racks[0], error)
}

// Checks the sheet, reads it once more, traps it and writes its files.
fn carry_out<H: Threads + Sync, T: Tray + Send, R: Rack>(
    rt: &H,
    alloc: Global,
    order: &SheetArgs<'_>,
    budget: &Budget,
    trays: &mut [T],
    racks: &mut [R],
) -> Result<(), TrapsheetError>
    requires within { IsWithin order.now }
    requires trays { most_plates ≤ length trays.old }
    requires racks { most_plates ≤ length racks.old }
    ensures { CarriesOut (order_in order.now) (map T.state trays.old) (map T.state trays.new)
        (map R.state racks.old) (map R.state racks.new) result }
{
    let Ok(inputs) = plate_inputs(alloc, order.plates) else {
        return Err(TrapsheetError::Common(CommonError::Memory));
    };
    carry_on(rt, alloc, order, budget, inputs.as_slice(), trays, racks)
}

// Does so with the names of the plates' files.
fn carry_on<H: Threads + Sync, T: Tray + Send, R: Rack>(
    rt: &H,
    alloc: Global,
    order: &SheetArgs<'_>,
    budget: &Budget,
    inputs: &[&str],
    trays: &mut [T],
    racks: &mut [R],
) -> Result<(), TrapsheetError>
    requires within { IsWithin order.now }
    requires trays { most_plates ≤ length trays.old }
    requires racks { most_plates ≤ length racks.old }
    requires inputs { AreInputs order.now inputs.now }
    ensures { CarriesOut (order_in order.now) (map T.state trays.old) (map T.state trays.new)
        (map R.state racks.old) (map R.state racks.new) result }
{
    no_change();
    sheet_is_reread();
    let planned = judge(rt, alloc, order, budget, inputs, trays)?;
    put_planned(rt, alloc, order, budget, &planned, inputs, trays, racks)
}

// Checks the sheet, and decides how it is trapped.
fn judge<H: Threads + Sync, T: Tray + Send>(
    rt: &H,
    alloc: Global,
    order: &SheetArgs<'_>,
    budget: &Budget,
    inputs: &[&str],
    trays: &mut [T],
) -> Result<PlannedSheet, TrapsheetError>
    requires within { IsWithin order.now }
    requires trays { most_plates ≤ length trays.old }
    requires inputs { AreInputs order.now inputs.now }
    ensures { JudgesSheet (sources_of (order_in order.now)) budget.now (map T.state trays.old)
        (map T.state trays.new) result }
{
    let Ok(names) = plate_names(alloc, order.plates) else {
        return Err(TrapsheetError::Common(CommonError::Memory));
    };
    judge_sheet(
        rt,
        alloc,
        order.workers,
        trays,
        order.job,
        &names,
        inputs,
        budget,
    )
}

// Reads a sheet that was checked once more, traps it and writes its files, strip by strip if it can be cut so.
fn put_planned<H: Threads + Sync, T: Tray, R: Rack>(
    rt: &H,
    alloc: Global,
    order: &SheetArgs<'_>,
    budget: &Budget,
    planned: &PlannedSheet,
    inputs: &[&str],
    trays: &mut [T],
    racks: &mut [R],
) -> Result<(), TrapsheetError>
    requires within { IsWithin order.now }
    requires trays { most_plates ≤ length trays.old }
    requires racks { most_plates ≤ length racks.old }
    requires valid { IsOutlineSheet planned.now.outline }
    requires blank { outline_sheet planned.now.outline ≡ planned.now.outline }
    requires plan { IsPlanFor traps planned.now.outline budget.now planned.now.plan }
    requires inputs { length inputs.now ≡ plates planned.now.outline }
    requires count { length order.now.plates.now ≡ plates planned.now.outline }
    ensures { PutsPlanned (targets_of (order_in order.now)) (map (λ file. file.now) inputs.now)
        planned.now.outline (map T.state trays.old) (map T.state trays.new)
        (map R.state racks.old) (map R.state racks.new) result }
{
    let outline = &planned.outline;
    match planned.plan {
        Plan::Strips(rulers) => {
            let rulers = rulers_for(outline, rulers);
            put_strips(rt, alloc, order, outline, &rulers, inputs, trays, racks)
        }
        Plan::Windows(_rulers) => put_whole(rt, alloc, order, planned, inputs, trays, racks),
        Plan::Page => put_whole(rt, alloc, order, planned, inputs, trays, racks),
    }
}

// Does the same for a sheet that streams in strips by these rulers.
fn put_strips<'a, H: Threads + Sync, T: Tray, R: Rack>(
    rt: &H,
    alloc: Global,
    order: &SheetArgs<'a>,
    outline: &PageParts,
    rulers: &Rulers,
    inputs: &'a [&'a str],
    trays: &mut [T],
    racks: &mut [R],
) -> Result<(), TrapsheetError>
    requires within { IsWithin order.now }
    requires trays { most_plates ≤ length trays.old }
    requires racks { most_plates ≤ length racks.old }
    requires can { StreamsBy outline.now rulers.now }
    requires inputs { length inputs.now ≡ plates outline.now }
    requires count { length order.now.plates.now ≡ plates outline.now }
    ensures { let target = targets_of (order_in order.now) in
        let course = course_of (map (λ file. file.now) inputs.now) target.outputs (map T.state
        trays.old) (map R.state racks.old) in
        StreamsOut course target.report outline.now (map T.state trays.new) (map R.state racks.new)
        result }
{
    let Ok(outputs) = plate_outputs(alloc, order.plates) else {
        return Err(TrapsheetError::Common(CommonError::Memory));
    };
    let names = SheetNames {
        plates: PlateNames {
            inputs,
            outputs: outputs.as_slice(),
        },
        report: order.report,
    };
    let workers = order.workers;
    stream(rt, alloc, trays, racks, &names, workers, outline, rulers)
}

// Does the same for a sheet without strips of one height: all of its rows are in memory.
fn put_whole<H: Threads + Sync, T: Tray, R: Rack>(
    rt: &H,
    alloc: Global,
    order: &SheetArgs<'_>,
    planned: &PlannedSheet,
    inputs: &[&str],
    trays: &mut [T],
    racks: &mut [R],
) -> Result<(), TrapsheetError>
    requires within { IsWithin order.now }
    requires trays { most_plates ≤ length trays.old }
    requires racks { most_plates ≤ length racks.old }
    requires valid { IsOutlineSheet planned.now.outline }
    requires blank { outline_sheet planned.now.outline ≡ planned.now.outline }
    requires can { CanHold planned.now.outline planned.now.plan }
    requires inputs { length inputs.now ≡ plates planned.now.outline }
    requires count { length order.now.plates.now ≡ plates planned.now.outline }
    ensures { PutsWhole (targets_of (order_in order.now)) (map (λ file. file.now) inputs.now)
        planned.now.outline (map T.state trays.old) (map T.state trays.new)
        (map R.state racks.old) (map R.state racks.new) result }
{
    let parts = hold(alloc, trays, inputs, &planned.outline)?;
    put_out(rt, alloc, order, parts, planned.plan, racks)
}

// Traps a sheet and writes its files. All memory is allocated before the first file is created.
fn put_out<H: Threads + Sync, R: Rack>(
    rt: &H,
    alloc: Global,
    order: &SheetArgs<'_>,
    parts: PageParts,
    plan: Plan,
    racks: &mut [R],
) -> Result<(), TrapsheetError>
    requires within { IsWithin order.now }
    requires racks { most_plates ≤ length racks.old }
    requires can { CanTrap parts plan }
    requires sheet { IsSheet parts }
    requires count { plates parts ≡ length order.now.plates.now }
    ensures { PutsOut (targets_of (order_in order.now)) parts
        (map R.state racks.old) (map R.state racks.new) result }
{
    let Ok(outcome) = outcome_of(rt, alloc, parts, plan, order.workers) else {
        return Err(TrapsheetError::Common(CommonError::Memory));
    };
    put_outcome(alloc, order, &outcome, racks)
}

// Writes the files of a sheet that was trapped. All memory is allocated before the first of them is created.
fn put_outcome<R: Rack>(
    alloc: Global,
    order: &SheetArgs<'_>,
    outcome: &SheetOutcome,
    racks: &mut [R],
) -> Result<(), TrapsheetError>
    requires within { IsWithin order.now }
    requires racks { most_plates ≤ length racks.old }
    requires can { CanWrite outcome.now.planes }
    requires count { length outcome.now.planes ≡ length order.now.plates.now }
    ensures { (sheet : PageParts) → outcome.now.planes ≡ trapped_planes sheet
        → outcome.now.report ≡ sheet_report sheet → PutsOut (targets_of (order_in order.now)) sheet
        (map R.state racks.old) (map R.state racks.new) result }
{
    let Ok(outputs) = plate_outputs(alloc, order.plates) else {
        return Err(TrapsheetError::Common(CommonError::Memory));
    };
    write_sheet(
        racks,
        outputs.as_slice(),
        outcome.planes.as_slice(),
        order.report,
        outcome.report.as_slice(),
    )
}
