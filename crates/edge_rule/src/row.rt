ghost use Rattle.std.specs.Prelude.{◌≡◌, ℕ, ◌+◌, ◌<◌, ◌≤◌, [], length, slice_index};
ghost use Rattle.page_model.specs.Deciding.{lower_mark, mark, right_mark};
ghost use Rattle.page_model.specs.Page.{height, width};
ghost use Rattle.page_model.specs.Zones.{AreZones};

use crate::deciding::decides_at;
use crate::plain::{mark_plain, plain_from};
use page_model::page::Page;
use page_model::parts::{At, EdgeAt};

/// Whether the edge to the right of sample x of row y decides.
#[tactic(auto, using(crate::proofs::Sides::sides))]
fn right_decides(page: &Page, y: u32, zones: &[u8], x: u32) -> bool
    requires row { y < height page.now }
    requires column { x < width page.now }
    requires zones { AreZones page.now y zones.now }
    ensures { result ≡ right_mark page.now y x }
{
    let _valid = page.plates();
    if x + 1 < page.width() {
        let e = EdgeAt {
            x2: 2 * x + 1,
            y2: 2 * y,
        };
        decides_at(page, At { x, y }, zones, At { x: x + 1, y }, zones, e)
    } else {
        false
    }
}

/// Whether the edge below sample x of row y decides.
#[tactic(auto, using(crate::proofs::Sides::sides))]
fn lower_decides(page: &Page, y: u32, here: &[u8], below: &[u8], x: u32) -> bool
    requires row { y < height page.now }
    requires column { x < width page.now }
    requires here { AreZones page.now y here.now }
    requires below { y + 1 < height page.now → AreZones page.now (y + 1) below.now }
    ensures { result ≡ lower_mark page.now y x }
{
    let _valid = page.plates();
    if y + 1 < page.height() {
        let e = EdgeAt {
            x2: 2 * x,
            y2: 2 * y + 1,
        };
        decides_at(page, At { x, y }, here, At { x, y: y + 1 }, below, e)
    } else {
        false
    }
}

/// The mark of sample x of row y, worked out by itself.
fn mark_at(page: &Page, y: u32, here: &[u8], below: &[u8], x: u32) -> u8
    requires row { y < height page.now }
    requires column { x < width page.now }
    requires here { AreZones page.now y here.now }
    requires below { y + 1 < height page.now → AreZones page.now (y + 1) below.now }
    ensures { result ≡ mark page.now y x }
{
    let right = if right_decides(page, y, here, x) {
        1
    } else {
        0
    };
    let lower = if lower_decides(page, y, here, below, x) {
        2
    } else {
        0
    };
    right + lower
}

/// Writes the marks of some samples of row y, from x on, and returns the number of the next sample.
fn mark_some(page: &Page, y: u32, here: &[u8], below: &[u8], x: u32, out: &mut [u8]) -> u32
    requires row { y < height page.now }
    requires column { x < width page.now }
    requires here { AreZones page.now y here.now }
    requires below { y + 1 < height page.now → AreZones page.now (y + 1) below.now }
    requires last { y + 1 ≡ height page.now → below.now ≡ [] }
    requires out { length out.old ≡ width page.now }
    ensures some { x < result }
    ensures inside { result ≤ width page.now }
    ensures marks { (k : ℕ) → x ≤ k → k < result → slice_index out.new k ≡ mark page.now y k }
    ensures kept { (k : ℕ) → k < x → slice_index out.new k ≡ slice_index out.old k }
    ensures long { length out.new ≡ length out.old }
{
    let _valid = page.plates();
    let place = x as usize;
    let count = plain_from(here, below, place);
    if count == 0 {
        out[place] = mark_at(page, y, here, below, x);
        x + 1
    } else {
        let zone = u32::from(here[place]);
        mark_plain(page, y, zone, x, &mut out[place..place + count]);
        x + count as u32
    }
}

/// Writes the mark of each sample of row y, from the left: 1 if the edge to its right decides, plus 2 if the edge below
/// it does. The zones are those of row y and of the row below; `zones_below` is empty in the last row.
pub fn edge_row(page: &Page, y: u32, zones_here: &[u8], zones_below: &[u8], out: &mut [u8])
    requires row { y < height page.now }
    requires here { AreZones page.now y zones_here.now }
    requires below { y + 1 < height page.now → AreZones page.now (y + 1) zones_below.now }
    requires last { y + 1 ≡ height page.now → zones_below.now ≡ [] }
    requires out { length out.old ≡ width page.now }
    ensures marks { (x : ℕ) → x < width page.now → slice_index out.new x ≡ mark page.now y x }
    ensures long { length out.new ≡ length out.old }
{
    let width = page.width();
    let mut x = 0;
    while x < width {
        x = mark_some(page, y, zones_here, zones_below, x, out);
    }
}
