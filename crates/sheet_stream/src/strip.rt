// A strip trapped, and its core written.

ghost use Rattle.std.specs.Prelude.{◌≡◌, ◌*◌, ◌≤◌, length, map};
ghost use Rattle.page_model.specs.Page.{maxval, plates, width};
ghost use Rattle.sheet_stream.specs.Cores.{AreOpen, IsCutStrip, WritesCore};
ghost use Rattle.sheet_stream.specs.OnSheet.{strip_cut};
ghost use Rattle.sheet_stream.specs.Ready.{IsTrappable, TrapsRow};

use crate::core_rows::write_core;
use crate::parts::{StripPlan, cut_of};
use common_errors::common::CommonError;
use outside::rack::Rack;
use sheet_engine::counts::SheetCounts;
use sheet_engine::workspace::{RowPlan, StripWorkspace, trap_strip_in};
use sheet_geometry::spans::Span;
use sheet_geometry::window_sheet::Sheet;
use std::thread::Threads;

/// What a strip is trapped and written with: the buffers of its windows, a buffer `line` for some rows of all plates,
/// at least one, and a buffer for some bytes.
#[derive(Drop)]
pub struct CoreWorkspace {
    pub windows: StripWorkspace,
    pub line: Vec<u16>,
    pub bytes: Vec<u8>,
}

/// Traps the strip of these rows by as many workers as the plan has, with the buffers of its windows, and adds the
/// counts of its core. It allocates nothing.
pub fn trap_row<H: Threads + Sync>(
    rt: &H,
    plan: &StripPlan,
    row: &Span,
    strip: &Sheet,
    windows: &mut StripWorkspace,
    counts: &mut SheetCounts,
)
    requires { IsTrappable plan.now row.now strip.now windows.old counts.old }
    ensures { TrapsRow plan.now row.now strip.now windows.old windows.new counts.old counts.new }
{
    let _valid = strip.width();
    let cut = cut_of(plan, row);
    let cores = RowPlan {
        across: cut.across,
        down: cut.down,
        row: cut.row,
        at: cut.row.skip,
    };
    trap_strip_in(rt, strip, &cores, plan.workers, windows, counts);
}

/// Writes the rows of the core of the strip of these rows, which was trapped last, some rows of all plates at once,
/// plate k by rack k. It allocates nothing.
///
/// Where a call of a rack fails, it stops with `Write` and the plate's number.
pub fn write_row<R: Rack>(
    racks: &mut [R],
    plan: &StripPlan,
    row: &Span,
    strip: &Sheet,
    workspace: &mut CoreWorkspace,
) -> Result<(), CommonError>
    requires racks { plates strip.now ≤ length racks.old }
    requires open { AreOpen plan.now.header (plates strip.now) (map R.state racks.old) }
    requires cut { IsCutStrip strip.now (strip_cut plan.now.across plan.now.down row.now)
        workspace.old.windows }
    requires line { plates strip.now * width strip.now ≤ length workspace.old.line.items }
    requires bytes { 2 ≤ length workspace.old.bytes.items }
    requires maxval { plan.now.header.maxval ≡ maxval strip.now }
    ensures windows { workspace.new.windows ≡ workspace.old.windows }
    ensures line { length workspace.new.line.items ≡ length workspace.old.line.items }
    ensures bytes { length workspace.new.bytes.items ≡ length workspace.old.bytes.items }
    ensures written { WritesCore (plates strip.now) plan.now.header strip.now
        (strip_cut plan.now.across plan.now.down row.now) (map R.state racks.old)
        (map R.state racks.new) result }
{
    let cut = cut_of(plan, row);
    write_core(
        racks,
        plan.header,
        strip,
        &cut,
        &workspace.windows,
        &mut workspace.line,
        &mut workspace.bytes,
    )
}
