ghost use Rattle.std.specs.Prelude.{◌≡◌, ◌<◌, ◌≤◌, ◌+◌, ◌*◌, ℕ, length, slice_index};
ghost use Rattle.row_values.specs.Workspace.{Serves};
ghost use Rattle.row_values.specs.Rows.{HoldsZones, zone_value};
ghost use Rattle.page_model.specs.Page.{height, width};
ghost use Rattle.zone_map.specs.Extents.{SpansZones};

use crate::row_buffers::RowBuffers;
use crate::rows::Rows;
use page_model::page::Page;
use zone_map::{Extent, NO_EXTENT, SpanBuf, write_extents, zone_row_near};

/// The number of zones of a page, at most.
const MOST_ZONES: usize = 251;

/// Writes the zones of row k of these rows.
fn write_zones(
    page: &Page,
    rows: Rows,
    k: u32,
    extents: &[Extent],
    out: &mut [u8],
    spans: &mut SpanBuf,
)
    requires row { k < rows.count }
    requires inside { rows.first + rows.count ≤ height page.now }
    requires extents { SpansZones page.now extents.now }
    requires out { length out.old ≡ rows.count * width page.now }
    requires spans { spans.old.wide ≡ width page.now }
    ensures here { (x : ℕ) → x < width page.now
        → slice_index out.new (k * width page.now + x) ≡ zone_value page.now (rows.first + k) x }
    ensures kept { (i : ℕ) → i < k * width page.now
        → slice_index out.new i ≡ slice_index out.old i }
    ensures len { length out.new ≡ length out.old }
    ensures spans { spans.new ≡ spans.old }
{
    let width = page.width() as usize;
    let start = k as usize * width;
    let row = &mut out[start..start + width];
    zone_row_near(page, rows.first + k, extents, row, spans);
}

fn zones_into(page: &Page, rows: Rows, out: &mut [u8], spans: &mut SpanBuf)
    requires inside { rows.first + rows.count ≤ height page.now }
    requires out { length out.old ≡ rows.count * width page.now }
    requires spans { spans.old.wide ≡ width page.now }
    ensures zones { HoldsZones page.now rows out.new }
    ensures len { length out.new ≡ length out.old }
    ensures spans { spans.new ≡ spans.old }
{
    let _valid = page.plates();
    let mut extents = [NO_EXTENT; MOST_ZONES];
    write_extents(page, &mut extents);
    for k in 0..rows.count {
        write_zones(page, rows, k, &extents, out, spans);
    }
}

/// Writes the zones of the samples of these rows, row by row.
pub fn make_zones(page: &Page, rows: Rows, out: &mut [u8], workspace: &mut RowBuffers)
    requires inside { rows.first + rows.count ≤ height page.now }
    requires out { length out.old ≡ rows.count * width page.now }
    requires workspace { Serves workspace.old page.now }
    ensures zones { HoldsZones page.now rows out.new }
    ensures len { length out.new ≡ length out.old }
    ensures workspace { workspace.new ≡ workspace.old }
{
    zones_into(page, rows, out, &mut workspace.spans);
}
