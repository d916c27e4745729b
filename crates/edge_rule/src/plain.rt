// The samples of a row that are in one zone with their right and lower neighbours, many at a time.

ghost use Rattle.std.specs.Prelude.{◌≡◌, ◌<◌, ◌≤◌, ◌+◌, ◌-◌, true, false, ℕ, if◌then◌else◌, length, slice_index, slice_index_or};
ghost use Rattle.edge_rule.specs.Pairs.{LieIn, most_together};
ghost use Rattle.page_model.specs.Deciding.{lower_mark, mark, right_mark};

use crate::pairs::decide_pairs;
use page_model::page::Page;
use page_model::parts::At;

/// The number of samples that are marked together, at most.
const SPAN: usize = 1024;

/// Whether all these samples are in the zone. All of them are read, without a branch, so that the loop is vectorized.
fn all_in(zones: &[u8], zone: u8) -> bool
    ensures { result ≡ true → (k : ℕ) → k < length zones.now → slice_index zones.now k ≡ zone }
{
    let mut all = true;
    for k in 0..zones.len() {
        all = all & (zones[k] == zone);
    }
    all
}

/// Whether `count` samples from x on, at least one, are in the zone of x, with those to their right and below them.
fn all_plain(here: &[u8], below: &[u8], x: usize, count: usize) -> bool
    requires inside { x + count < length here.now }
    requires low { count ≤ length below.now - x }
    ensures here { result ≡ true → (k : ℕ) → k ≤ count
        → slice_index here.now (x + k) ≡ slice_index here.now x }
    ensures below { result ≡ true → (k : ℕ) → k < count
        → slice_index below.now (x + k) ≡ slice_index here.now x }
{
    if count == 0 {
        return false;
    }
    let zone = here[x];
    all_in(&here[x..x + count + 1], zone) && all_in(&below[x..x + count], zone)
}

/// The number of samples from x on, at most `most`, that are in the zone of x, with those to their right and below
/// them.
fn plain_until(here: &[u8], below: &[u8], x: usize, most: usize) -> usize
    requires inside { x + most < length here.now }
    requires low { most ≤ length below.now - x }
    ensures few { result ≤ most }
    ensures here { (k : ℕ) → k ≤ result → slice_index here.now (x + k) ≡ slice_index here.now x }
    ensures below { (k : ℕ) → k < result → slice_index below.now (x + k) ≡ slice_index here.now x }
{
    let zone = here[x];
    let mut count = 0;
    while count < most && here[x + count + 1] == zone && below[x + count] == zone {
        count += 1;
    }
    count
}

/// The number of samples from x on that are in the zone of x, with those to their right and below them: at most `SPAN`,
/// and 0 where there is no row below. `here` are the zones of the row, `below` those of the row below.
pub fn plain_from(here: &[u8], below: &[u8], x: usize) -> usize
    requires { x < length here.now }
    ensures fits { result ≤ most_together }
    ensures inside { x + result < length here.now }
    ensures low { result ≤ length below.now - x }
    ensures here { (k : ℕ) → k ≤ result → slice_index here.now (x + k) ≡ slice_index here.now x }
    ensures below { (k : ℕ) → k < result → slice_index below.now (x + k) ≡ slice_index here.now x }
{
    let most = SPAN
        .min(here.len() - 1 - x)
        .min(below.len().saturating_sub(x));
    if all_plain(here, below, x, most) {
        most
    } else {
        plain_until(here, below, x, most)
    }
}

/// Writes marks from their two parts: right edges and lower edges.
fn write_marks(right: &[bool], lower: &[bool], out: &mut [u8])
    requires right { length right.now ≡ length out.old }
    requires lower { length lower.now ≡ length out.old }
    ensures len { length out.new ≡ length out.old }
    ensures each { (k : ℕ) → k < length out.old
        → slice_index out.new k
        ≡ (if slice_index_or right.now k false then 1 else 0)
        + (if slice_index_or lower.now k false then 2 else 0) }
{
    for k in 0..out.len() {
        let one = if right[k] { 1 } else { 0 };
        let two = if lower[k] { 2 } else { 0 };
        out[k] = one + two;
    }
}

/// Finds which samples of row y, from x on, have a deciding edge to their right.
fn find_right(page: &Page, y: u32, zone: u32, x: u32, right: &mut [bool], risen: &mut [bool])
    requires lie { LieIn page.now y x (length right.old) zone }
    requires risen { length risen.old ≡ length right.old }
    ensures each { (k : ℕ) → k < length right.old
        → slice_index_or right.new k false ≡ right_mark page.now y (x + k) }
    ensures len { length right.new ≡ length right.old }
    ensures risen_len { length risen.new ≡ length right.old }
{
    let _valid = page.plates();
    decide_pairs(page, zone, At { x, y }, At { x: x + 1, y }, right, risen);
}

/// Finds which samples of row y, from x on, have a deciding edge below them.
fn find_lower(page: &Page, y: u32, zone: u32, x: u32, lower: &mut [bool], risen: &mut [bool])
    requires lie { LieIn page.now y x (length lower.old) zone }
    requires risen { length risen.old ≡ length lower.old }
    ensures each { (k : ℕ) → k < length lower.old
        → slice_index_or lower.new k false ≡ lower_mark page.now y (x + k) }
    ensures len { length lower.new ≡ length lower.old }
    ensures risen_len { length risen.new ≡ length lower.old }
{
    let _valid = page.plates();
    decide_pairs(page, zone, At { x, y }, At { x, y: y + 1 }, lower, risen);
}

/// Writes the marks of samples of row y from x on, one for each place of `out`. All of them are in the zone, with those
/// to their right and below them.
pub fn mark_plain(page: &Page, y: u32, zone: u32, x: u32, out: &mut [u8])
    requires lie { LieIn page.now y x (length out.old) zone }
    requires few { length out.old ≤ most_together }
    ensures each { (k : ℕ) → k < length out.old → slice_index out.new k ≡ mark page.now y (x + k) }
    ensures len { length out.new ≡ length out.old }
{
    let count = out.len();
    let mut right = [false; SPAN];
    let mut lower = [false; SPAN];
    let mut risen = [false; SPAN];
    let right = &mut right[..count];
    let lower = &mut lower[..count];
    let risen = &mut risen[..count];
    find_right(page, y, zone, x, right, risen);
    find_lower(page, y, zone, x, lower, risen);
    write_marks(right, lower, out);
}
