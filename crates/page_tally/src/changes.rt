// What trapping changes in a row: its new tints compared with the page's own, plate by plate, while the row is in the
// cache.

ghost use Rattle.std.specs.Prelude.{◌≡◌, ◌<◌, ◌≤◌, ◌+◌, ◌*◌, ◌==◌, ◌||◌, not, false, true, ℕ, if◌then◌else◌, length, slice_index, slice_index_or};
ghost use Rattle.page_model.specs.Counts.{plate_changes, sample_changes};
ghost use Rattle.page_model.specs.Page.{height, plates, width};
ghost use Rattle.page_model.specs.Zones.{AreZones};
ghost use Rattle.lists.specs.Words.{count_below};
ghost use Rattle.page_tally.specs.Standing.{AreTrappedTo, AreZonesCounted, IsNewRow, IsTrappedTo};

use crate::blocks::{BLOCK, are_clear, are_same, part_of};
use page_model::page::Page;
use page_model::parts::Plane;
use row_values::{row_of, tints_of_row};

/// The new tints of plate c in row y, out of `row`, which has the row's tints of all plates, plate after plate. Returns
/// `row[c * width..(c + 1) * width]`.
pub fn plate_row<'a>(page: &Page, row: &'a [u16], y: u32, c: u32) -> &'a [u16]
    requires row { IsNewRow page.now y row.now }
    requires plate { c < plates page.now }
    ensures len { length result.now ≡ width page.now }
    ensures each { (x : ℕ) → x < width page.now → slice_index result.now x
        ≡ slice_index row.now (c * width page.now + x) }
{
    let _valid = page.plates();
    row_of(row, page.width() as usize, c as usize)
}

/// 1 where the test is true, else 0.
fn short_if(test: bool) -> u16
    ensures value { result ≡ (if test then 1 else 0) }
    ensures one { result ≤ 1 }
{
    if test { 1 } else { 0 }
}

/// The number of tints of a block that differ. They are counted in 16 bits, so that the loop is vectorized.
fn differences_here(before: &[u16], after: &[u16]) -> u64
    requires long { length before.now ≡ length after.now }
    requires short { length after.now ≤ 64 }
    ensures count { result
        ≡ count_below (λ k. not (slice_index after.now k == slice_index before.now k))
        (length after.now) }
    ensures few { result ≤ length after.now }
{
    let mut count = 0u16;
    for k in 0..after.len() {
        count += short_if(after[k] != before[k]);
    }
    u64::from(count)
}

/// The number of tints that differ, counted block by block.
pub fn differences_by_blocks(before: &[u16], after: &[u16]) -> u64
    requires { length before.now ≡ length after.now }
    ensures count { result
        ≡ count_below (λ k. not (slice_index after.now k == slice_index before.now k))
        (length after.now) }
    ensures few { result ≤ length after.now }
{
    let mut count = 0;
    let mut from = 0;
    while from < after.len() {
        let size = (after.len() - from).min(BLOCK);
        let one = part_of(before, from, size);
        let other = part_of(after, from, size);
        count += differences_here(one, other);
        from += size;
    }
    count
}

/// The number of tints of two rows that differ. Equal rows are found first, and not counted.
pub fn differences(before: &[u16], after: &[u16]) -> u64
    requires { length before.now ≡ length after.now }
    ensures count { result
        ≡ count_below (λ k. not (slice_index after.now k == slice_index before.now k))
        (length after.now) }
    ensures few { result ≤ length after.now }
{
    if are_same(before, after) {
        0
    } else {
        differences_by_blocks(before, after)
    }
}

/// Sets `changes[k]` to true where the tints differ. The other places stay unchanged.
pub fn note_differences(before: &[u16], after: &[u16], changes: &mut [bool])
    requires before { length before.now ≡ length after.now }
    requires changes { length changes.old ≡ length after.now }
    ensures len { length changes.new ≡ length changes.old }
    ensures each { (k : ℕ) → k < length after.now → slice_index_or changes.new k false
        ≡ (slice_index_or changes.old k false
        || not (slice_index after.now k == slice_index before.now k)) }
{
    for k in 0..after.len() {
        // both are worked out first, without a branch, so that many samples go at once
        let earlier = changes[k];
        let differs = after[k] != before[k];
        changes[k] = earlier | differs;
    }
}

/// Marks the samples of row y at which plate c changes. The plane has the new tints of the whole page.
fn note_plane(page: &Page, plane: &Plane, y: u32, c: u32, changes: &mut [bool])
    requires plane { IsTrappedTo page.now c (height page.now * width page.now) plane.now }
    requires line { y < height page.now }
    requires plate { c < plates page.now }
    requires changes { length changes.old ≡ width page.now }
    ensures len { length changes.new ≡ width page.now }
    ensures each { (x : ℕ) → x < width page.now → slice_index_or changes.new x false
        ≡ (slice_index_or changes.old x false
        || plate_changes page.now c (record { x = x; y = y })) }
{
    let before = tints_of_row(page, c, y);
    let after = row_of(plane.tints.as_slice(), page.width() as usize, y as usize);
    if !are_same(before, after) {
        note_differences(before, after, changes);
    }
}

/// Marks in `changes` the samples of row y at which some plate changes. The planes have the new tints of the whole
/// page.
pub fn note_changes(page: &Page, planes: &[Plane], y: u32, changes: &mut [bool])
    requires planes { AreTrappedTo page.now planes.now (height page.now * width page.now) }
    requires line { y < height page.now }
    requires changes { length changes.old ≡ width page.now }
    ensures len { length changes.new ≡ width page.now }
    ensures each { (x : ℕ) → x < width page.now → slice_index_or changes.new x false
        ≡ sample_changes page.now (record { x = x; y = y }) }
{
    changes.fill(false);
    for c in 0..page.plates() {
        note_plane(page, &planes[c as usize], y, c, changes);
    }
}

/// Counts sample x of row y in its zone if it changes.
#[tactic(auto, using(crate::proofs::CountLemmas::zone_known))]
fn count_sample(
    page: &Page,
    zones: &[u8],
    first: u32,
    y: u32,
    x: usize,
    changes: &[bool],
    counts: &mut [u64],
)
    requires zones { AreZones page.now y zones.now }
    requires line { y < height page.now }
    requires column { x < width page.now }
    requires changes { length changes.now ≡ width page.now }
    requires each { (x : ℕ) → x < width page.now → slice_index_or changes.now x false
        ≡ sample_changes page.now (record { x = x; y = y }) }
    requires counts { AreZonesCounted page.now first (y * width page.now + x) counts.old }
    ensures { AreZonesCounted page.now first (y * width page.now + x + 1) counts.new }
{
    let _valid = page.plates();
    if !changes[x] {
        return;
    }
    let zone = usize::from(zones[x]);
    counts[zone] += 1;
}

/// Adds to each zone's count the samples of a block of row y that change.
fn count_block(
    page: &Page,
    zones: &[u8],
    first: u32,
    y: u32,
    from: usize,
    to: usize,
    changes: &[bool],
    counts: &mut [u64],
)
    requires zones { AreZones page.now y zones.now }
    requires line { y < height page.now }
    requires order { from ≤ to }
    requires inside { to ≤ width page.now }
    requires changes { length changes.now ≡ width page.now }
    requires each { (x : ℕ) → x < width page.now → slice_index_or changes.now x false
        ≡ sample_changes page.now (record { x = x; y = y }) }
    requires counts { AreZonesCounted page.now first (y * width page.now + from) counts.old }
    ensures { AreZonesCounted page.now first (y * width page.now + to) counts.new }
{
    for x in from..to {
        count_sample(page, zones, first, y, x, changes, counts);
    }
}

/// Adds to each zone's count the samples of row y that change. Blocks without a change are skipped. `first` is the
/// first of the rows that are counted.
pub fn count_changed(
    page: &Page,
    zones: &[u8],
    first: u32,
    y: u32,
    changes: &[bool],
    counts: &mut [u64],
)
    requires zones { AreZones page.now y zones.now }
    requires line { y < height page.now }
    requires changes { length changes.now ≡ width page.now }
    requires each { (x : ℕ) → x < width page.now → slice_index_or changes.now x false
        ≡ sample_changes page.now (record { x = x; y = y }) }
    requires counts { AreZonesCounted page.now first (y * width page.now) counts.old }
    ensures { AreZonesCounted page.now first ((y + 1) * width page.now) counts.new }
{
    let mut x = 0;
    while x < changes.len() {
        let count = (changes.len() - x).min(BLOCK);
        if !are_clear(changes, x, count) {
            count_block(page, zones, first, y, x, x + count, changes, counts);
        }
        x += count;
    }
}
