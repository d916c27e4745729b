ghost use Rattle.std.specs.Prelude.{◌≡◌, ◌<◌, ◌≤◌, ◌+◌, ◌*◌, ◌-◌, [], ℕ, length, slice_index};
ghost use Rattle.row_values.specs.Rows.{HoldsMarks, HoldsZones};
ghost use Rattle.page_model.specs.Deciding.{mark};
ghost use Rattle.page_model.specs.Page.{height, width};
ghost use Rattle.page_model.specs.Zones.{AreZones};

use crate::rows::{Rows, row_of_bytes};
use edge_rule::edge_row;
use page_model::page::Page;

/// The zones of page row y out of those of the rows `stored`, empty below the last row.
fn zones_of<'a>(page: &Page, stored: Rows, zones: &'a [u8], y: u32) -> &'a [u8]
    requires zones { HoldsZones page.now stored zones.now }
    requires above { stored.first ≤ y }
    requires row { y ≤ height page.now }
    requires stored { y < height page.now → y < stored.first + stored.count }
    requires inside { stored.first + stored.count ≤ height page.now }
    ensures zones { y < height page.now → AreZones page.now y result.now }
    ensures last { y ≡ height page.now → result.now ≡ [] }
{
    if y < page.height() {
        let k = y - stored.first;
        row_of_bytes(zones, page.width() as usize, k as usize)
    } else {
        &[]
    }
}

/// Writes the marks of row k of these rows.
fn write_marks(page: &Page, rows: Rows, k: u32, stored: Rows, zones: &[u8], out: &mut [u8])
    requires zones { HoldsZones page.now stored zones.now }
    requires same { stored.first ≡ rows.first }
    requires below { rows.first + k + 1 < height page.now → k + 1 < stored.count }
    requires here { k < stored.count }
    requires stored { stored.first + stored.count ≤ height page.now }
    requires row { k < rows.count }
    requires inside { rows.first + rows.count ≤ height page.now }
    requires out { length out.old ≡ rows.count * width page.now }
    ensures here { (x : ℕ) → x < width page.now
        → slice_index out.new (k * width page.now + x) ≡ mark page.now (rows.first + k) x }
    ensures kept { (i : ℕ) → i < k * width page.now
        → slice_index out.new i ≡ slice_index out.old i }
    ensures len { length out.new ≡ length out.old }
{
    let width = page.width() as usize;
    let start = k as usize * width;
    let y = rows.first + k;
    let here = zones_of(page, stored, zones, y);
    let below = zones_of(page, stored, zones, y + 1);
    edge_row(page, y, here, below, &mut out[start..start + width]);
}

/// Writes the marks of the samples of these rows, row by row. `zones` are the zones of the rows `stored`: these rows and
/// the row below them, if the page has one.
pub fn make_marks(page: &Page, rows: Rows, stored: Rows, zones: &[u8], out: &mut [u8])
    requires zones { HoldsZones page.now stored zones.now }
    requires same { stored.first ≡ rows.first }
    requires below { rows.first + rows.count < height page.now → rows.count < stored.count }
    requires here { rows.count ≤ stored.count }
    requires stored { stored.first + stored.count ≤ height page.now }
    requires inside { rows.first + rows.count ≤ height page.now }
    requires out { length out.old ≡ rows.count * width page.now }
    ensures marks { HoldsMarks page.now rows out.new }
    ensures len { length out.new ≡ length out.old }
{
    for k in 0..rows.count {
        write_marks(page, rows, k, stored, zones, out);
    }
}
