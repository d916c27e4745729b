// All strips of a sheet, one after the other.

ghost use Rattle.std.specs.Prelude.{◌≤◌, IfOk, OnOk, length, map};
ghost use Rattle.sheet_stream.specs.Courses.{Finishes, IsAwaiting, IsLastRow, IsStarted, IsUnderWay};
ghost use Rattle.sheet_stream.specs.Courses.{Reaches, ReachesLast, Streams};
ghost use Rattle.sheet_stream.specs.Going.{IsStripRow};
ghost use Rattle.sheet_stream.specs.Strips.{CanStream};
ghost use Rattle.sheet_stream.specs.Workspaces.{IsStreamWorkspace};
ghost use Rattle.sheet_stream.specs.Waiting.{IsWaiting};
ghost use Rattle.sheet_stream.specs.RowReading.{HaveHeader};
ghost use Rattle.sheet_engine.specs.Works.{AreNone};

use crate::beside::write_waiting;
use crate::error::StreamError;
use crate::parts::OpenSheet;
use crate::rows::{Progress, next_row, progress_after};
use crate::step::{put_last, read_first, stream_strip, trap_first};
use crate::workspace::StreamWorkspace;
use outside::rack::Rack;
use outside::tray::Tray;
use sheet_geometry::spans::Span;
use std::thread::Threads;

/// Streams a sheet whose plates and files are begun: strip after strip, from the top, its rows are read, it is trapped
/// by the workers, and the rows of its core are written; plate k is read by tray k and written by rack k. With several
/// workers a strip is trapped while the core of the strip above it is written and the rows of the strip below it are
/// read. It allocates nothing but what threads take. Nothing that is written or counted depends on the strips: it is
/// that of the undivided sheet.
///
/// It stops at the first plate that has a fault now or can't be read, and where a call of a rack fails; each file then
/// has some of its first rows.
pub fn stream_strips<H: Threads + Sync, T: Tray, R: Rack>(
    rt: &H,
    trays: &mut [T],
    racks: &mut [R],
    sheet: &OpenSheet<'_>,
    workspace: &mut StreamWorkspace,
) -> Result<(), StreamError>
    requires can { CanStream sheet.now.outline.now sheet.now.plan.now }
    requires headers { HaveHeader sheet.now.outline.now sheet.now.plates.now }
    requires trays { length sheet.now.plates.now ≤ length trays.old }
    requires racks { length sheet.now.plates.now ≤ length racks.old }
    requires workspace { IsStreamWorkspace sheet.now.outline.now sheet.now.plan.now workspace.old }
    requires counts { AreNone sheet.now.outline.now workspace.old.counts }
    requires started { IsStarted sheet.now.outline.now sheet.now.plan.now sheet.now.plates.now
        (map T.state trays.old) (map R.state racks.old) }
    ensures { Streams sheet.now.outline.now sheet.now.plan.now sheet.now.plates.now
        workspace.old.counts workspace.new.counts (map T.state trays.old) (map T.state trays.new)
        (map R.state racks.old) (map R.state racks.new) result }
{
    let top = Progress {
        at: 0,
        from: 0,
        read: 0,
    };
    let first = next_row(&sheet.plan.down, top);
    match read_first(trays, sheet, &first, workspace) {
        Ok(()) => stream_on(rt, trays, racks, sheet, &first, workspace),
        Err(error) => Err(StreamError::Unread(error)),
    }
}

// Does the same with the first strip read.
fn stream_on<H: Threads + Sync, T: Tray, R: Rack>(
    rt: &H,
    trays: &mut [T],
    racks: &mut [R],
    sheet: &OpenSheet<'_>,
    first: &Span,
    workspace: &mut StreamWorkspace,
) -> Result<(), StreamError>
    requires can { CanStream sheet.now.outline.now sheet.now.plan.now }
    requires headers { HaveHeader sheet.now.outline.now sheet.now.plates.now }
    requires trays { length sheet.now.plates.now ≤ length trays.old }
    requires racks { length sheet.now.plates.now ≤ length racks.old }
    requires first { IsStripRow sheet.now.plan.now.down first.now }
    requires workspace { IsStreamWorkspace sheet.now.outline.now sheet.now.plan.now workspace.old }
    requires way { IsUnderWay sheet.now.outline.now sheet.now.plan.now sheet.now.plates.now
        first.now (map T.state trays.old) (map R.state racks.old) workspace.old }
    ensures { Finishes sheet.now.outline.now sheet.now.plan.now sheet.now.plates.now first.now
        (map T.state trays.old) (map T.state trays.new) (map R.state racks.old)
        (map R.state racks.new) workspace.old workspace.new result }
{
    let row = reach_last(rt, trays, racks, sheet, first, workspace)?;
    match put_last(rt, racks, sheet.plan, &row, workspace) {
        Ok(()) => Ok(()),
        Err(common_error) => Err(StreamError::Unwritten(common_error)),
    }
}

// Traps all strips but the last and writes their cores; the last one is then the current one, and its rows are
// returned.
fn reach_last<H: Threads + Sync, T: Tray, R: Rack>(
    rt: &H,
    trays: &mut [T],
    racks: &mut [R],
    sheet: &OpenSheet<'_>,
    first: &Span,
    workspace: &mut StreamWorkspace,
) -> Result<Span, StreamError>
    requires can { CanStream sheet.now.outline.now sheet.now.plan.now }
    requires headers { HaveHeader sheet.now.outline.now sheet.now.plates.now }
    requires trays { length sheet.now.plates.now ≤ length trays.old }
    requires racks { length sheet.now.plates.now ≤ length racks.old }
    requires first { IsStripRow sheet.now.plan.now.down first.now }
    requires workspace { IsStreamWorkspace sheet.now.outline.now sheet.now.plan.now workspace.old }
    requires way { IsUnderWay sheet.now.outline.now sheet.now.plan.now sheet.now.plates.now
        first.now (map T.state trays.old) (map R.state racks.old) workspace.old }
    ensures last { IfOk result (IsLastRow sheet.now.plan.now) }
    ensures workspace { OnOk result
        (IsStreamWorkspace sheet.now.outline.now sheet.now.plan.now workspace.new) }
    ensures reaches { ReachesLast sheet.now.outline.now sheet.now.plan.now sheet.now.plates.now
        first.now (map T.state trays.old) (map T.state trays.new) (map R.state racks.old)
        (map R.state racks.new) workspace.old workspace.new result }
{
    let progress = progress_after(&sheet.plan.down, first);
    if progress.at >= sheet.plan.down.side {
        return Ok(*first);
    }
    let second = next_row(&sheet.plan.down, progress);
    match trap_first(rt, trays, sheet, first, &second, workspace) {
        Ok(()) => go_on(rt, trays, racks, sheet, first, &second, workspace),
        Err(error) => Err(StreamError::Unread(error)),
    }
}

// Does the same with the second strip read, and the core of the first still to be written.
fn go_on<H: Threads + Sync, T: Tray, R: Rack>(
    rt: &H,
    trays: &mut [T],
    racks: &mut [R],
    sheet: &OpenSheet<'_>,
    first: &Span,
    second: &Span,
    workspace: &mut StreamWorkspace,
) -> Result<Span, StreamError>
    requires can { CanStream sheet.now.outline.now sheet.now.plan.now }
    requires headers { HaveHeader sheet.now.outline.now sheet.now.plates.now }
    requires trays { length sheet.now.plates.now ≤ length trays.old }
    requires racks { length sheet.now.plates.now ≤ length racks.old }
    requires second { IsStripRow sheet.now.plan.now.down second.now }
    requires workspace { IsStreamWorkspace sheet.now.outline.now sheet.now.plan.now workspace.old }
    requires waiting { IsWaiting sheet.now.plan.now first.now workspace.old.ahead workspace.old.core }
    requires way { IsAwaiting sheet.now.outline.now sheet.now.plan.now sheet.now.plates.now
        first.now second.now (map T.state trays.old) (map R.state racks.old) workspace.old }
    ensures last { IfOk result (IsLastRow sheet.now.plan.now) }
    ensures workspace { OnOk result
        (IsStreamWorkspace sheet.now.outline.now sheet.now.plan.now workspace.new) }
    ensures reaches { Reaches sheet.now.outline.now sheet.now.plan.now sheet.now.plates.now
        first.now second.now (map T.state trays.old) (map T.state trays.new) (map R.state racks.old)
        (map R.state racks.new) workspace.old workspace.new result }
{
    let mut last = *first;
    let mut row = *second;
    let mut progress = progress_after(&sheet.plan.down, &row);
    while progress.at < sheet.plan.down.side {
        let next = next_row(&sheet.plan.down, progress);
        stream_strip(rt, trays, racks, sheet, &last, &row, &next, workspace)?;
        last = row;
        row = next;
        progress = progress_after(&sheet.plan.down, &row);
    }
    match write_waiting(
        sheet.alloc,
        racks,
        sheet.plan,
        &last,
        &mut workspace.ahead,
        &mut workspace.core,
    ) {
        Ok(()) => Ok(row),
        Err(common_error) => Err(StreamError::Unwritten(common_error)),
    }
}
