// A strip is trapped while the next one is read and, but for the first, the one before it is written.

ghost use Rattle.std.specs.Prelude.{◌≡◌, ◌≤◌, length, map};
ghost use Rattle.sheet_stream.specs.Ready.{IsTrappable, TrapsRow};
ghost use Rattle.sheet_stream.specs.Going.{IsStripRow, gone_on};
ghost use Rattle.sheet_stream.specs.Reading.{CanReadRow, ReadsRow};
ghost use Rattle.sheet_stream.specs.Waiting.{IsWaiting, PlatesOpen, WritesAndReads};

use crate::ahead::{read_row, trap_while};
use crate::beside::write_and_read;
use crate::error::StreamError;
use crate::parts::{Neighbours, OpenSheet};
use crate::rows::progress_after;
use crate::workspace::StreamWorkspace;
use outside::rack::Rack;
use outside::tray::Tray;
use plate_rows::error::RereadError;
use sheet_geometry::spans::Span;
use std::thread::Threads;

/// Traps the current strip and counts its core, and makes the next strip: side by side, with the reading in the
/// caller's thread; or with one worker one after the other. It allocates nothing but what threads take.
///
/// It stops at the first plate that has a fault now or can't be read.
pub fn trap_and_read<H: Threads + Sync, T: Tray>(
    rt: &H,
    trays: &mut [T],
    sheet: &OpenSheet<'_>,
    row: &Span,
    next: &Span,
    workspace: &mut StreamWorkspace,
) -> Result<(), RereadError>
    requires row { IsStripRow sheet.now.plan.now.down row.now }
    requires trap { IsTrappable sheet.now.plan.now row.now workspace.old.strip workspace.old.windows
        workspace.old.counts }
    requires can { CanReadRow sheet.now.outline.now sheet.now.plan.now sheet.now.plates.now
        (gone_on row.now) next.now (map T.state trays.old) workspace.old.strip workspace.old.ahead }
    requires trays { length sheet.now.plates.now ≤ length trays.old }
    requires pieces { 2 ≤ length workspace.old.pieces.items }
    ensures strip { workspace.new.strip ≡ workspace.old.strip }
    ensures trapped { TrapsRow sheet.now.plan.now row.now workspace.old.strip workspace.old.windows
        workspace.new.windows workspace.old.counts workspace.new.counts }
    ensures core { workspace.new.core ≡ workspace.old.core }
    ensures pieces { length workspace.new.pieces.items ≡ length workspace.old.pieces.items }
    ensures read { ReadsRow sheet.now.outline.now sheet.now.plates.now (gone_on row.now) next.now
        workspace.old.strip workspace.new.ahead (map T.state trays.old) (map T.state trays.new)
        result }
{
    let progress = &progress_after(&sheet.plan.down, row);
    let strip = &workspace.strip;
    let parts = strip.parts();
    let windows = &mut workspace.windows;
    let counts = &mut workspace.counts;
    let ahead = &mut workspace.ahead;
    let pieces = &mut workspace.pieces;
    trap_while(
        rt,
        sheet.plan,
        row,
        strip,
        windows,
        counts,
        &mut || -> Result<(), RereadError>
            requires can { CanReadRow sheet.now.outline.now sheet.now.plan.now sheet.now.plates.now
                progress.now next.now (map T.state trays.now) parts.now ahead.now }
            requires trays { length sheet.now.plates.now ≤ length trays.now }
            requires pieces { 2 ≤ length pieces.now.items }
        { read_row(trays, sheet, progress, next, parts, ahead, pieces) },
    )
}

/// Traps the current strip and counts its core, writes the core of the strip before it, and makes the next strip: first
/// the writing and then the reading in the caller's thread, beside the trapping; or with one worker one after the
/// other. It allocates nothing but what threads take.
///
/// It stops where a call of a rack fails, with nothing read, and at the first plate that has a fault now or can't be
/// read.
pub fn trap_beside<H: Threads + Sync, T: Tray, R: Rack>(
    rt: &H,
    trays: &mut [T],
    racks: &mut [R],
    sheet: &OpenSheet<'_>,
    last: &Span,
    row: &Span,
    next: &Span,
    workspace: &mut StreamWorkspace,
) -> Result<(), StreamError>
    requires row { IsStripRow sheet.now.plan.now.down row.now }
    requires trap { IsTrappable sheet.now.plan.now row.now workspace.old.strip workspace.old.windows
        workspace.old.counts }
    requires opened { PlatesOpen sheet.now.plan.now workspace.old.ahead (map R.state racks.old) }
    requires waiting { IsWaiting sheet.now.plan.now last.now workspace.old.ahead workspace.old.core }
    requires can { CanReadRow sheet.now.outline.now sheet.now.plan.now sheet.now.plates.now
        (gone_on row.now) next.now (map T.state trays.old) workspace.old.strip workspace.old.ahead }
    requires trays { length sheet.now.plates.now ≤ length trays.old }
    requires count { length workspace.old.ahead.planes ≡ length sheet.now.plates.now }
    requires racks { length sheet.now.plates.now ≤ length racks.old }
    requires pieces { 2 ≤ length workspace.old.pieces.items }
    ensures strip { workspace.new.strip ≡ workspace.old.strip }
    ensures trapped { TrapsRow sheet.now.plan.now row.now workspace.old.strip workspace.old.windows
        workspace.new.windows workspace.old.counts workspace.new.counts }
    ensures windows { workspace.new.core.windows ≡ workspace.old.core.windows }
    ensures line { length workspace.new.core.line.items ≡ length workspace.old.core.line.items }
    ensures bytes { length workspace.new.core.bytes.items ≡ length workspace.old.core.bytes.items }
    ensures pieces { length workspace.new.pieces.items ≡ length workspace.old.pieces.items }
    ensures does { WritesAndReads sheet.now.outline.now sheet.now.plan.now sheet.now.plates.now
        (gone_on row.now) last.now next.now workspace.old.strip workspace.old.ahead
        workspace.new.ahead (map T.state trays.old) (map T.state trays.new) (map R.state racks.old)
        (map R.state racks.new) result }
{
    let around = &Neighbours {
        last: *last,
        progress: progress_after(&sheet.plan.down, row),
        next: *next,
    };
    let strip = &workspace.strip;
    let parts = strip.parts();
    let windows = &mut workspace.windows;
    let counts = &mut workspace.counts;
    let ahead = &mut workspace.ahead;
    let core = &mut workspace.core;
    let pieces = &mut workspace.pieces;
    trap_while(
        rt,
        sheet.plan,
        row,
        strip,
        windows,
        counts,
        &mut || -> Result<(), StreamError>
            requires opened { PlatesOpen sheet.now.plan.now ahead.now (map R.state racks.now) }
            requires waiting { IsWaiting sheet.now.plan.now around.now.last ahead.now core.now }
            requires can { CanReadRow sheet.now.outline.now sheet.now.plan.now sheet.now.plates.now
                around.now.progress around.now.next (map T.state trays.now) parts.now ahead.now }
            requires trays { length sheet.now.plates.now ≤ length trays.now }
            requires count { length ahead.now.planes ≡ length sheet.now.plates.now }
            requires racks { length sheet.now.plates.now ≤ length racks.now }
            requires pieces { 2 ≤ length pieces.now.items }
        { write_and_read(trays, racks, sheet, around, parts, ahead, core, pieces) },
    )
}
