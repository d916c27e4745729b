// What is counted in a row: the samples of each zone, and the deciding edges.

ghost use Rattle.std.specs.Prelude.{◌≡◌, ℕ, ◌<◌, ◌≤◌, ◌+◌, ◌*◌, ◌/◌, ◌%◌, true, if◌then◌else◌, length, slice_index};
ghost use Rattle.lists.specs.Words.{sum_below};
ghost use Rattle.page_model.specs.Page.{height, width};
ghost use Rattle.page_model.specs.Zones.{AreZones};
ghost use Rattle.page_tally.specs.Standing.{AreSamplesCounted};
ghost use Rattle.page_model.specs.Limits.{most_side};

use crate::blocks::{BLOCK, are_alike};
use page_model::page::Page;

/// 1 where the test is true, else 0.
pub fn one_if(test: bool) -> u64
    ensures { result ≡ (if test then 1 else 0) }
{
    if test { 1 } else { 0 }
}

/// Whether `marks[from..from + count]` are all 0. All of them are read, without a branch, so that the loop is
/// vectorized.
fn are_unmarked(marks: &[u8], from: usize, count: usize) -> bool
    requires { from + count ≤ length marks.now }
    ensures { result ≡ true → (k : ℕ) → k < count → slice_index marks.now (from + k) ≡ 0 }
{
    let mut none = true;
    for k in 0..count {
        none = none & (marks[from + k] == 0);
    }
    none
}

/// The number of deciding edges by the marks of a block, sample by sample.
fn count_edges(marks: &[u8], from: usize, count: usize) -> u64
    requires inside { from + count ≤ length marks.now }
    requires few { length marks.now ≤ most_side }
    ensures count { result
        ≡ sum_below (λ k. slice_index marks.now (from + k) % 2 + slice_index marks.now (from + k) / 2)
        count }
    ensures few { result ≤ 128 * count }
{
    let mut edges = 0;
    for k in 0..count {
        let mark = marks[from + k];
        edges += u64::from(mark % 2 + mark / 2);
    }
    edges
}

/// The number of deciding edges by the marks of a block. A block without a mark is skipped.
fn edges_here(marks: &[u8], from: usize, count: usize) -> u64
    requires inside { from + count ≤ length marks.now }
    requires few { length marks.now ≤ most_side }
    ensures count { result
        ≡ sum_below (λ k. slice_index marks.now (from + k) % 2 + slice_index marks.now (from + k) / 2)
        count }
    ensures few { result ≤ 128 * count }
{
    if are_unmarked(marks, from, count) {
        0
    } else {
        count_edges(marks, from, count)
    }
}

/// The number of deciding edges by these marks: one for a mark of 1 or 2, two for a mark of 3.
pub fn edges_in(marks: &[u8]) -> u64
    requires { length marks.now ≤ most_side }
    ensures count { result
        ≡ sum_below (λ x. slice_index marks.now x % 2 + slice_index marks.now x / 2)
        (length marks.now) }
    ensures few { result ≤ 128 * length marks.now }
{
    let mut count = 0;
    let mut x = 0;
    while x < marks.len() {
        let size = (marks.len() - x).min(BLOCK);
        count += edges_here(marks, x, size);
        x += size;
    }
    count
}

/// Adds to each zone's count the samples of row y, block by block. `first` is the first of the rows that are counted.
pub fn count_zones(page: &Page, zones: &[u8], first: u32, y: u32, counts: &mut [u64])
    requires zones { AreZones page.now y zones.now }
    requires line { y < height page.now }
    requires counts { AreSamplesCounted page.now first (y * width page.now) counts.old }
    ensures { AreSamplesCounted page.now first ((y + 1) * width page.now) counts.new }
{
    let mut x = 0;
    while x < zones.len() {
        let count = (zones.len() - x).min(BLOCK);
        if are_alike(zones, x, count) {
            count_run(page, zones, first, y, x, count, counts);
        } else {
            count_each(page, zones, first, y, x, x + count, counts);
        }
        x += count;
    }
}

/// Counts `count` samples of row y, from sample x on, in the zone that they are all in.
#[tactic(auto, using(crate::proofs::CountLemmas::zone_known))]
fn count_run(
    page: &Page,
    zones: &[u8],
    first: u32,
    y: u32,
    x: usize,
    count: usize,
    counts: &mut [u64],
)
    requires zones { AreZones page.now y zones.now }
    requires line { y < height page.now }
    requires some { 1 ≤ count }
    requires inside { x + count ≤ width page.now }
    requires alike { (k : ℕ) → k < count → slice_index zones.now (x + k) ≡ slice_index zones.now x }
    requires counts { AreSamplesCounted page.now first (y * width page.now + x) counts.old }
    ensures { AreSamplesCounted page.now first (y * width page.now + (x + count)) counts.new }
{
    let _valid = page.plates();
    let zone = usize::from(zones[x]);
    counts[zone] += count as u64;
}

/// Counts the samples `from..to` of row y, each in its zone.
fn count_each(
    page: &Page,
    zones: &[u8],
    first: u32,
    y: u32,
    from: usize,
    to: usize,
    counts: &mut [u64],
)
    requires zones { AreZones page.now y zones.now }
    requires line { y < height page.now }
    requires order { from ≤ to }
    requires inside { to ≤ width page.now }
    requires counts { AreSamplesCounted page.now first (y * width page.now + from) counts.old }
    ensures { AreSamplesCounted page.now first (y * width page.now + to) counts.new }
{
    for x in from..to {
        count_zone(page, zones, first, y, x, counts);
    }
}

/// Counts sample x of row y in its zone.
#[tactic(auto, using(crate::proofs::CountLemmas::zone_known))]
fn count_zone(page: &Page, zones: &[u8], first: u32, y: u32, x: usize, counts: &mut [u64])
    requires zones { AreZones page.now y zones.now }
    requires line { y < height page.now }
    requires column { x < width page.now }
    requires counts { AreSamplesCounted page.now first (y * width page.now + x) counts.old }
    ensures { AreSamplesCounted page.now first (y * width page.now + x + 1) counts.new }
{
    let _valid = page.plates();
    let zone = usize::from(zones[x]);
    counts[zone] += 1;
}
