// Which pixels are covered, and which of these are open.

ghost use Rattle.std.specs.Prelude.{◌≡◌, ◌≢◌, ◌+◌, ◌*◌, ◌<◌, ◌≤◌, ◌==◌, ◌&&◌, ℕ, false, length, nat_le, slice_index};
ghost use Rattle.lists.specs.Words.{any_below, gap};
ghost use Rattle.page_model.specs.Limits.{most_side};
ghost use Rattle.page_model.specs.Page.{height, params_at, width, InPage};
ghost use Rattle.page_model.specs.Zones.{zone_of, AreZones as AreRowZones};
ghost use Rattle.keepaway.specs.Keepaway.{covered, is_open as open_spec, level, touches as touches_spec, touches_row as touches_row_spec};
ghost use Rattle.keepaway.specs.Rows.{AreLevels, IsRow, mark};

use crate::rows::row_of;
use neutral_density::is_shut;
use page_model::laws::zone_law;
use page_model::page::Page;
use page_model::parts::At;

/// The columns of a block.
const BLOCK: usize = 32;

/// Whether a row has a black pixel in column x or beside it.
fn touches_row(row: &[u8], x: usize) -> bool
    requires { x < length row.now }
    ensures { result
        ≡ any_below (λ j. nat_le (gap x j) 1 && (slice_index row.now j == 2)) (length row.now) }
{
    let length = row.len();
    let last = if x + 1 < length { x + 2 } else { length };
    for j in x.saturating_sub(1)..last {
        if row[j] == 2 {
            return true;
        }
    }
    false
}

/// Whether a black pixel touches p.
fn touches(page: &Page, limit: u32, levels: &[u8], p: At) -> bool
    requires levels { AreLevels page.now limit levels.now }
    requires pixel { InPage page.now p }
    ensures { result ≡ touches_spec page.now limit p }
{
    let (width, height) = (page.width() as usize, page.height());
    for y in p.y.saturating_sub(1)..(p.y + 2).min(height) {
        let row = row_of(levels, width, y as usize);
        if touches_row(row, p.x as usize) {
            return true;
        }
    }
    false
}

/// Whether a pixel of this level is covered.
#[tactic(auto, unfolding(crate::specs::Keepaway::covered))]
fn is_covered(page: &Page, limit: u32, levels: &[u8], p: At, here: u8) -> bool
    requires levels { AreLevels page.now limit levels.now }
    requires pixel { InPage page.now p }
    requires here { here ≡ level page.now limit p }
    ensures { result ≡ covered page.now limit p }
{
    here == 2 || here == 1 && touches(page, limit, levels, p)
}

/// Whether a pixel of zone z is open.
fn is_open(page: &Page, p: At, z: u32) -> bool
    requires pixel { InPage page.now p }
    requires zone { z ≡ zone_of page.now p }
    requires known { z < length page.now.zones }
    ensures { result ≡ open_spec page.now p }
{
    page.params(z).enabled && !is_shut(page, p)
}

/// The mark of a pixel of this zone and level.
fn mark_at(page: &Page, limit: u32, levels: &[u8], p: At, z: u32, here: u8) -> u8
    requires levels { AreLevels page.now limit levels.now }
    requires pixel { InPage page.now p }
    requires zone { z ≡ zone_of page.now p }
    requires known { z < length page.now.zones }
    requires here { here ≡ level page.now limit p }
    ensures { result ≡ mark page.now limit p }
{
    if !is_covered(page, limit, levels, p, here) {
        0
    } else if is_open(page, p, z) {
        2
    } else {
        1
    }
}

/// Whether a row has a black pixel in the columns `from..to` or beside them.
fn has_black(row: &[u8], from: usize, to: usize) -> bool
    requires { to ≤ length row.now }
    ensures { result ≡ false → (j : ℕ) → j < length row.now → from ≤ j + 1 → j ≤ to
        → slice_index row.now j ≢ 2 }
{
    let mut found = false;
    let last = if to < row.len() { to + 1 } else { to };
    for j in from.saturating_sub(1)..last {
        found |= row[j] == 2;
    }
    found
}

/// Whether a black pixel is in a block of row y, or touches it. If not, no pixel of the block is covered.
fn is_black_near(page: &Page, limit: u32, levels: &[u8], y: u32, from: usize, to: usize) -> bool
    requires levels { AreLevels page.now limit levels.now }
    requires row { y < height page.now }
    requires to { to ≤ width page.now }
    ensures { result ≡ false → (x : ℕ) → from ≤ x → x < to
        → covered page.now limit (record { x = x; y = y }) ≡ false }
{
    let (width, height) = (page.width() as usize, page.height());
    for k in y.saturating_sub(1)..(y + 2).min(height) {
        if has_black(row_of(levels, width, k as usize), from, to) {
            return true;
        }
    }
    false
}

/// Writes the marks of a block of row y, pixel by pixel.
fn mark_pixels(
    page: &Page,
    limit: u32,
    zones: &[u8],
    levels: &[u8],
    y: u32,
    from: usize,
    to: usize,
    marks: &mut [u8],
)
    requires row { y < height page.now }
    requires zones { AreRowZones page.now y zones.now }
    requires levels { AreLevels page.now limit levels.now }
    requires to { to ≤ width page.now }
    requires marks { length marks.old ≡ width page.now }
    ensures block { (x : ℕ) → from ≤ x → x < to
        → slice_index marks.new x ≡ mark page.now limit (record { x = x; y = y }) }
    ensures before { (x : ℕ) → x < from → slice_index marks.new x ≡ slice_index marks.old x }
{
    let row = row_of(levels, page.width() as usize, y as usize);
    for x in from..to {
        let p = At { x: x as u32, y };
        zone_law(page, p);
        marks[x] = mark_at(page, limit, levels, p, u32::from(zones[x]), row[x]);
    }
}

/// Writes 0 as the mark of each pixel of a block.
fn clear(marks: &mut [u8], from: usize, to: usize)
    requires { to ≤ length marks.old }
    ensures block { (x : ℕ) → from ≤ x → x < to → slice_index marks.new x ≡ 0 }
    ensures before { (x : ℕ) → x < from → slice_index marks.new x ≡ slice_index marks.old x }
{
    for x in from..to {
        marks[x] = 0;
    }
}

/// Writes the marks of a block of row y, by the levels of all rows.
fn mark_block(
    page: &Page,
    limit: u32,
    zones: &[u8],
    levels: &[u8],
    y: u32,
    from: usize,
    to: usize,
    marks: &mut [u8],
)
    requires row { y < height page.now }
    requires zones { AreRowZones page.now y zones.now }
    requires levels { AreLevels page.now limit levels.now }
    requires to { to ≤ width page.now }
    requires marks { length marks.old ≡ width page.now }
    ensures block { (x : ℕ) → from ≤ x → x < to
        → slice_index marks.new x ≡ mark page.now limit (record { x = x; y = y }) }
    ensures before { (x : ℕ) → x < from → slice_index marks.new x ≡ slice_index marks.old x }
{
    if is_black_near(page, limit, levels, y, from, to) {
        mark_pixels(page, limit, zones, levels, y, from, to, marks);
    } else {
        clear(marks, from, to);
    }
}

/// Where block b of a row ends.
fn end_of(b: usize, width: usize) -> usize
    requires inside { b * 32 < width }
    requires narrow { width ≤ most_side }
    ensures inside { result ≤ width }
    ensures whole { (x : ℕ) → x < (b + 1) * 32 → x < width → x < result }
{
    (b * BLOCK + BLOCK).min(width)
}

/// Writes the marks of row y, by the levels of all rows.
pub(crate) fn write_marks(
    page: &Page,
    limit: u32,
    zones: &[u8],
    levels: &[u8],
    y: u32,
    marks: &mut [u8],
)
    requires row { y < height page.now }
    requires zones { AreRowZones page.now y zones.now }
    requires levels { AreLevels page.now limit levels.now }
    requires marks { length marks.old ≡ width page.now }
    ensures { IsRow page.now (mark page.now limit) y marks.new }
{
    let width = page.width() as usize;
    for b in 0..width.div_ceil(BLOCK) {
        let to = end_of(b, width);
        mark_block(page, limit, zones, levels, y, b * BLOCK, to, marks);
    }
}
