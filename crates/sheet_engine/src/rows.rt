// The rows of a strip's new tints, out of the buffers that its windows were trapped with.

ghost use Rattle.std.specs.Prelude.{◌≡◌, ◌<◌, ◌≤◌, ◌+◌, IfOk, length, map};
ghost use Rattle.page_model.specs.Page.{plates, width};
ghost use Rattle.sheet_geometry.specs.Areas.{traps};
ghost use Rattle.sheet_geometry.specs.Plans.{AreRulersFor, tile_of};
ghost use Rattle.sheet_geometry.specs.Spans.{AreSpans};
ghost use Rattle.sheet_geometry.specs.Tiles.{strip_row, strip_rows};
ghost use Rattle.sheet_engine.specs.Workspaces.{columns_in, tiles_in};
ghost use Rattle.sheet_engine.specs.Strips.{IsSomeSpan, planes_of};

use crate::tints::row_of_core;
use crate::workspace::StripWorkspace;
use page_model::parts::OutOfMemory;
use sheet_geometry::refill::put_run;
use sheet_geometry::spans::{Ruler, Span};
use sheet_geometry::window_sheet::Sheet;
use std::alloc::Global;

/// Writes row k of the new tints of plate c of the strip that was trapped with these buffers last.
pub fn put_strip_row(
    strip: &Sheet,
    across: &Ruler,
    down: &Ruler,
    row: &Span,
    workspace: &StripWorkspace,
    k: u32,
    c: u32,
    out: &mut [u16],
)
    requires rulers { AreRulersFor traps strip.now across.now down.now }
    requires columns { AreSpans across.now 0 (columns_in workspace.now) (width strip.now) }
    requires row { IsSomeSpan down.now row.now }
    requires tiles { tiles_in workspace.now ≡ map (planes_of strip.now row.now) (columns_in workspace.now) }
    requires plate { c < plates strip.now }
    requires line { k < row.now.core }
    requires out { length out.old ≡ width strip.now }
    ensures { out.new ≡ strip_row traps c strip.now k
        (map (λ column. tile_of column row.now) (columns_in workspace.now)) }
{
    let _valid = strip.width();
    let windows = workspace.windows.as_slice();
    let mut left = 0;
    for j in 0..windows.len() {
        let window = &windows[j];
        let planes = window.workspace.outcome.planes.as_slice();
        let run = row_of_core(strip, across, down, planes, &window.column, row, k, c);
        put_run(run, left as usize, out);
        left += window.column.core;
    }
}

/// The new tints of plate c of the strip that was trapped with these buffers last, row by row. `line` is a buffer for a
/// row.
pub fn strip_tints(
    alloc: Global,
    strip: &Sheet,
    across: &Ruler,
    down: &Ruler,
    row: &Span,
    workspace: &StripWorkspace,
    c: u32,
    line: &mut [u16],
) -> Result<Vec<u16>, OutOfMemory>
    requires rulers { AreRulersFor traps strip.now across.now down.now }
    requires columns { AreSpans across.now 0 (columns_in workspace.now) (width strip.now) }
    requires row { IsSomeSpan down.now row.now }
    requires tiles { tiles_in workspace.now ≡ map (planes_of strip.now row.now) (columns_in workspace.now) }
    requires plate { c < plates strip.now }
    requires line { length line.old ≡ width strip.now }
    ensures line { length line.new ≡ length line.old }
    ensures tints { IfOk result (λ tints. tints.items
        ≡ strip_rows traps c strip.now (map (λ column. tile_of column row.now) (columns_in workspace.now))
        row.now.core) }
{
    let mut out = Vec::new(alloc);
    for k in 0..row.core {
        put_strip_row(strip, across, down, row, workspace, k, c, line);
        if out.extend_from_slice(line).is_err() {
            return Err(OutOfMemory);
        }
    }
    Ok(out)
}
