// The rows of the cores of windows.

ghost use Rattle.std.specs.Prelude.{◌≡◌, ◌<◌, ◌≤◌, ◌+◌, ◌*◌, ℕ, length, slice_index};
ghost use Rattle.page_model.specs.Page.{plates, width};
ghost use Rattle.sheet_geometry.specs.Areas.{traps};
ghost use Rattle.sheet_geometry.specs.Plans.{AreRulersFor, tile_of};
ghost use Rattle.sheet_geometry.specs.Spans.{IsSpan};
ghost use Rattle.sheet_geometry.specs.Tiles.{core_row};
ghost use Rattle.sheet_engine.specs.Strips.{IsSomeSpan, planes_of};

use page_model::parts::Plane;
use sheet_geometry::spans::{Ruler, Span};
use sheet_geometry::window_sheet::Sheet;

/// The new tints of plate c in row k of a core.
pub fn row_of_core<'a>(
    sheet: &Sheet,
    across: &Ruler,
    down: &Ruler,
    planes: &'a [Plane],
    column: &Span,
    row: &Span,
    k: u32,
    c: u32,
) -> &'a [u16]
    requires rulers { AreRulersFor traps sheet.now across.now down.now }
    requires column { IsSomeSpan across.now column.now }
    requires row { IsSomeSpan down.now row.now }
    requires planes { planes.now ≡ planes_of sheet.now row.now column.now }
    requires plate { c < plates sheet.now }
    requires line { k < row.now.core }
    ensures { result.now ≡ core_row traps c sheet.now k (tile_of column.now row.now) }
{
    let _valid = sheet.width();
    let start = (row.skip + k) as usize * column.wide as usize + column.skip as usize;
    run_of(
        planes[c as usize].tints.as_slice(),
        start,
        column.core as usize,
    )
}

/// Returns `tints[from..from + count]`.
fn run_of(tints: &[u16], from: usize, count: usize) -> &[u16]
    requires { from + count ≤ length tints.now }
    ensures len { length result.now ≡ count }
    ensures each { (k : ℕ) → k < count
        → slice_index result.now k ≡ slice_index tints.now (from + k) }
{
    &tints[from..from + count]
}
