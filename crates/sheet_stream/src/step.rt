// The steps of a sheet that streams: the first strip is read, each strip is trapped while the one before it is written
// and the next one is read, and the last one is trapped and written.

ghost use Rattle.std.specs.Prelude.{◌≡◌, ◌*◌, ◌≤◌, OnOk, length, map};
ghost use Rattle.page_model.specs.Page.{maxval, plates, width};
ghost use Rattle.sheet_stream.specs.Courses.{BeginsAt, GoesFirst, GoesOn, IsAwaiting, IsStored};
ghost use Rattle.sheet_stream.specs.Going.{IsNextRow, IsStripRow, gone_on, not_begun};
ghost use Rattle.sheet_stream.specs.Strips.{CanStream};
ghost use Rattle.sheet_stream.specs.Workspaces.{IsStreamWorkspace};
ghost use Rattle.sheet_stream.specs.Second.{IsBegun};
ghost use Rattle.sheet_stream.specs.Waiting.{IsWaiting};
ghost use Rattle.sheet_stream.specs.RowReading.{HaveHeader};
ghost use Rattle.sheet_stream.specs.Cores.{AreOpen, WritesCore};
ghost use Rattle.sheet_stream.specs.OnSheet.{strip_cut};
ghost use Rattle.sheet_stream.specs.Ready.{IsTrappable, TrapsRow};

use crate::ahead::read_row;
use crate::error::StreamError;
use crate::parts::{OpenSheet, StripPlan};
use crate::pipeline::{trap_and_read, trap_beside};
use crate::rows::Progress;
use crate::strip::{trap_row, write_row};
use crate::workspace::{StreamWorkspace, change_places};
use common_errors::common::CommonError;
use outside::rack::Rack;
use outside::tray::Tray;
use plate_rows::error::RereadError;
use sheet_geometry::spans::Span;
use std::thread::Threads;

/// Reads the rows of the first strip, which becomes the current one, plate k by tray k. It allocates nothing.
///
/// It stops at the first plate that has a fault now or can't be read.
pub fn read_first<T: Tray>(
    trays: &mut [T],
    sheet: &OpenSheet<'_>,
    row: &Span,
    workspace: &mut StreamWorkspace,
) -> Result<(), RereadError>
    requires can { CanStream sheet.now.outline.now sheet.now.plan.now }
    requires headers { HaveHeader sheet.now.outline.now sheet.now.plates.now }
    requires trays { length sheet.now.plates.now ≤ length trays.old }
    requires row { IsNextRow sheet.now.plan.now.down not_begun row.now }
    requires workspace { IsStreamWorkspace sheet.now.outline.now sheet.now.plan.now workspace.old }
    requires begun { IsBegun sheet.now.plates.now (map T.state trays.old) }
    ensures workspace { OnOk result
        (IsStreamWorkspace sheet.now.outline.now sheet.now.plan.now workspace.new) }
    ensures begins { BeginsAt sheet.now.outline.now sheet.now.plan.now sheet.now.plates.now row.now
        (map T.state trays.old) (map T.state trays.new) workspace.old workspace.new result }
{
    let top = Progress {
        at: 0,
        from: 0,
        read: 0,
    };
    let parts = workspace.strip.parts();
    let ahead = &mut workspace.ahead;
    let bytes = &mut workspace.pieces;
    read_row(trays, sheet, &top, row, parts, ahead, bytes)?;
    change_places(sheet.alloc, workspace);
    Ok(())
}

/// Traps the first strip, which is the current one, and counts its core while the second strip is read, plate k by tray
/// k. Then the second strip is the current one, and the core of the first is still to be written. It allocates nothing
/// but what threads take.
///
/// It stops at the first plate that has a fault now or can't be read.
pub fn trap_first<H: Threads + Sync, T: Tray>(
    rt: &H,
    trays: &mut [T],
    sheet: &OpenSheet<'_>,
    row: &Span,
    next: &Span,
    workspace: &mut StreamWorkspace,
) -> Result<(), RereadError>
    requires can { CanStream sheet.now.outline.now sheet.now.plan.now }
    requires headers { HaveHeader sheet.now.outline.now sheet.now.plates.now }
    requires trays { length sheet.now.plates.now ≤ length trays.old }
    requires row { IsStripRow sheet.now.plan.now.down row.now }
    requires next { IsNextRow sheet.now.plan.now.down (gone_on row.now) next.now }
    requires workspace { IsStreamWorkspace sheet.now.outline.now sheet.now.plan.now workspace.old }
    requires way { IsStored sheet.now.outline.now sheet.now.plan.now sheet.now.plates.now row.now
        (map T.state trays.old) workspace.old }
    ensures workspace { OnOk result
        (IsStreamWorkspace sheet.now.outline.now sheet.now.plan.now workspace.new) }
    ensures waiting { OnOk result (IsWaiting sheet.now.plan.now row.now workspace.new.ahead
        workspace.new.core) }
    ensures goes { GoesFirst sheet.now.outline.now sheet.now.plan.now sheet.now.plates.now row.now
        next.now (map T.state trays.old) (map T.state trays.new) workspace.old workspace.new result }
{
    trap_and_read(rt, trays, sheet, row, next, workspace)?;
    change_places(sheet.alloc, workspace);
    Ok(())
}

/// Traps the current strip and counts its core; beside that the core of the strip before is written, plate k by rack k,
/// and the next strip is read, plate k by tray k. Then the next strip is the current one, and the core of the one that
/// was trapped is still to be written. It allocates nothing but what threads take.
///
/// It stops where a call of a rack fails, with nothing read, and at the first plate that has a fault now or can't be
/// read.
pub fn stream_strip<H: Threads + Sync, T: Tray, R: Rack>(
    rt: &H,
    trays: &mut [T],
    racks: &mut [R],
    sheet: &OpenSheet<'_>,
    last: &Span,
    row: &Span,
    next: &Span,
    workspace: &mut StreamWorkspace,
) -> Result<(), StreamError>
    requires can { CanStream sheet.now.outline.now sheet.now.plan.now }
    requires headers { HaveHeader sheet.now.outline.now sheet.now.plates.now }
    requires trays { length sheet.now.plates.now ≤ length trays.old }
    requires racks { length sheet.now.plates.now ≤ length racks.old }
    requires row { IsStripRow sheet.now.plan.now.down row.now }
    requires next { IsNextRow sheet.now.plan.now.down (gone_on row.now) next.now }
    requires workspace { IsStreamWorkspace sheet.now.outline.now sheet.now.plan.now workspace.old }
    requires waiting { IsWaiting sheet.now.plan.now last.now workspace.old.ahead workspace.old.core }
    requires way { IsAwaiting sheet.now.outline.now sheet.now.plan.now sheet.now.plates.now last.now
        row.now (map T.state trays.old) (map R.state racks.old) workspace.old }
    ensures workspace { OnOk result
        (IsStreamWorkspace sheet.now.outline.now sheet.now.plan.now workspace.new) }
    ensures waiting { OnOk result (IsWaiting sheet.now.plan.now row.now workspace.new.ahead
        workspace.new.core) }
    ensures goes { GoesOn sheet.now.outline.now sheet.now.plan.now sheet.now.plates.now last.now
        row.now next.now (map T.state trays.old) (map T.state trays.new) (map R.state racks.old)
        (map R.state racks.new) workspace.old workspace.new result }
{
    trap_beside(rt, trays, racks, sheet, last, row, next, workspace)?;
    change_places(sheet.alloc, workspace);
    Ok(())
}

/// Traps the last strip, which is the current one, counts its core, and writes the core's rows, plate k by rack k. It
/// allocates nothing but what threads take.
///
/// Where a call of a rack fails, it stops with `Write` and the plate's number.
pub fn put_last<H: Threads + Sync, R: Rack>(
    rt: &H,
    racks: &mut [R],
    plan: &StripPlan,
    row: &Span,
    workspace: &mut StreamWorkspace,
) -> Result<(), CommonError>
    requires trap { IsTrappable plan.now row.now workspace.old.strip workspace.old.core.windows
        workspace.old.counts }
    requires racks { plates workspace.old.strip ≤ length racks.old }
    requires open { AreOpen plan.now.header (plates workspace.old.strip) (map R.state racks.old) }
    requires line { let strip = workspace.old.strip in
        plates strip * width strip ≤ length workspace.old.core.line.items }
    requires bytes { 2 ≤ length workspace.old.core.bytes.items }
    requires maxval { plan.now.header.maxval ≡ maxval workspace.old.strip }
    ensures trapped { TrapsRow plan.now row.now workspace.old.strip workspace.old.core.windows
        workspace.new.core.windows workspace.old.counts workspace.new.counts }
    ensures written { let strip = workspace.old.strip in
        WritesCore (plates strip) plan.now.header strip
        (strip_cut plan.now.across plan.now.down row.now) (map R.state racks.old)
        (map R.state racks.new) result }
{
    let windows = &mut workspace.core.windows;
    trap_row(
        rt,
        plan,
        row,
        &workspace.strip,
        windows,
        &mut workspace.counts,
    );
    write_row(racks, plan, row, &workspace.strip, &mut workspace.core)
}
