// The next strip of a sheet is read, and a strip is trapped while something else is done.

ghost use Rattle.std.specs.Prelude.{◌≡◌, ◌≤◌, length, map};
ghost use Rattle.sheet_stream.specs.Reading.{CanReadRow, ReadsRow};
ghost use Rattle.sheet_stream.specs.Ready.{IsTrappable, TrapsRow};

use crate::parts::{OpenSheet, StripPlan};
use crate::rows::Progress;
use crate::stored_rows::read_ahead;
use crate::strip::trap_row;
use crate::zones::turn_to;
use outside::tray::Tray;
use page_model::parts::PageParts;
use plate_rows::error::RereadError;
use plate_rows::rereading::NextRows;
use sheet_engine::counts::SheetCounts;
use sheet_engine::workspace::StripWorkspace;
use sheet_geometry::spans::Span;
use sheet_geometry::window_sheet::Sheet;
use std::thread;
use std::thread::Threads;

/// Moves the next strip to these rows, copies those of them that the current strip has too from it, and reads the
/// others, plate k by tray k. It allocates nothing.
///
/// It stops at the first plate that has a fault now or can't be read.
pub fn read_row<T: Tray>(
    trays: &mut [T],
    sheet: &OpenSheet<'_>,
    progress: &Progress,
    row: &Span,
    strip: &PageParts,
    ahead: &mut PageParts,
    bytes: &mut Vec<u8>,
) -> Result<(), RereadError>
    requires can { CanReadRow sheet.now.outline.now sheet.now.plan.now sheet.now.plates.now
        progress.now row.now (map T.state trays.old) strip.now ahead.old }
    requires trays { length sheet.now.plates.now ≤ length trays.old }
    requires bytes { 2 ≤ length bytes.old.items }
    ensures read { ReadsRow sheet.now.outline.now sheet.now.plates.now progress.now row.now
        strip.now ahead.new (map T.state trays.old) (map T.state trays.new) result }
    ensures bytes { length bytes.new.items ≡ length bytes.old.items }
{
    turn_to(sheet.outline, row, ahead);
    let wide = sheet.outline.planes.as_slice()[0].width;
    let kept = progress.read - row.from;
    let gone = row.from - progress.from;
    let next = NextRows {
        done: u64::from(progress.read) * u64::from(wide),
        kept: kept as usize * wide as usize,
    };
    let by = gone as usize * wide as usize;
    read_ahead(
        sheet.alloc,
        trays,
        sheet.plates,
        next,
        strip,
        by,
        ahead,
        bytes,
    )
}

/// Traps a strip and counts its core, and does some other work: side by side, with the other work in the caller's
/// thread; or with one worker one after the other. The trapping allocates nothing but what threads take.
pub fn trap_while<H: Threads + Sync, W: FnMut() -> A, A: Send>(
    rt: &H,
    plan: &StripPlan,
    row: &Span,
    strip: &Sheet,
    windows: &mut StripWorkspace,
    counts: &mut SheetCounts,
    work: &mut W,
) -> A
    requires trap { IsTrappable plan.now row.now strip.now windows.old counts.old }
    requires work { W.pre work.old }
    ensures trapped { TrapsRow plan.now row.now strip.now windows.old windows.new counts.old
        counts.new }
    ensures work { W.step work.old result work.new }
{
    if plan.workers == 1 {
        trap_row(rt, plan, row, strip, windows, counts);
        return work();
    }
    let (_, result) = thread::join_mut(
        rt,
        &mut ||
            requires { IsTrappable plan.now row.now strip.now windows.now counts.now }
            ensures { TrapsRow plan.entry.now row.entry.now strip.entry.now windows.entry.now
                windows.exit.now counts.entry.now counts.exit.now }
        { trap_row(rt, plan, row, strip, windows, counts) },
        work,
    );
    result
}
