// The counts of a row of a core.

ghost use Rattle.std.specs.Prelude.{◌≡◌, ◌<◌, ◌≤◌, ◌+◌, ◌*◌, ◌^◌, true, false, ℕ, IfSome, OnSome, length, slice_index, slice_index_or};
ghost use Rattle.page_model.specs.Counts.{sample_changes};
ghost use Rattle.page_model.specs.Page.{height, plates, tint, width};
ghost use Rattle.page_model.specs.Tints.{new};
ghost use Rattle.page_model.specs.Zones.{AreZones};
ghost use Rattle.sheet_geometry.specs.Areas.{changes_in, changes_plate, edges_at, lies_in, one_if as bit_of, traps};
ghost use Rattle.page_tally.specs.Standing.{AreMarks};
ghost use Rattle.sheet_engine.specs.Growth.{Grows, HasWorkspace, row_sum};

use page_model::page::Page;
use page_tally::{differences, edges_in};

// 1 where the test is true, else 0.
fn one_if(test: bool) -> u64
    ensures { result ≡ bit_of test }
{
    if test { 1 } else { 0 }
}

// Whether all of these samples are in the zone. All of them are read, without a branch, so that the loop is vectorized.
fn are_all_in(zones: &[u8], left: usize, wide: usize, zone: u8) -> bool
    requires { left + wide ≤ length zones.now }
    ensures { result ≡ true → (k : ℕ) → k < wide → slice_index zones.now (left + k) ≡ zone }
{
    let mut all = true;
    for k in 0..wide {
        all = all & (zones[left + k] == zone);
    }
    all
}

// The zone that all of these samples are in, `None` where there are several.
fn one_zone(zones: &[u8], left: usize, wide: usize) -> Option<u8>
    requires { left + wide ≤ length zones.now }
    ensures some { OnSome result (1 ≤ wide) }
    ensures all { IfSome result (λ zone. (k : ℕ) → k < wide
        → slice_index zones.now (left + k) ≡ zone) }
{
    if wide > 0 && are_all_in(zones, left, wide, zones[left]) {
        Some(zones[left])
    } else {
        None
    }
}

// The number of these samples of row y that change.
fn count_changes(page: &Page, changes: &[bool], y: u32, left: usize, wide: usize) -> u64
    requires inside { left + wide ≤ width page.now }
    requires long { length changes.now ≡ width page.now }
    requires each { (x : ℕ) → x < width page.now → slice_index_or changes.now x false
        ≡ sample_changes page.now (record { x = x; y = y }) }
    ensures count { result ≡ row_sum (λ p. bit_of (sample_changes page.now p)) y left wide }
    ensures few { result ≤ wide }
{
    let mut count = 0;
    for k in 0..wide {
        count += one_if(changes[left + k]);
    }
    count
}

/// Adds to each zone's count the number of those of the samples `left..left + wide` of row y that are in it.
pub fn add_zones(page: &Page, zones: &[u8], y: u32, left: usize, wide: usize, counts: &mut [u64])
    requires zones { AreZones page.now y zones.now }
    requires inside { left + wide ≤ width page.now }
    requires workspace { HasWorkspace (length page.now.zones) wide counts.old }
    ensures { Grows (length page.now.zones) (λ z. row_sum (lies_in z page.now) y left wide)
        counts.old counts.new }
{
    let _valid = page.plates();
    match one_zone(zones, left, wide) {
        Some(zone) => counts[usize::from(zone)] += wide as u64,
        None => add_each_zone(page, zones, y, left, wide, counts),
    }
}

// Does the same sample by sample.
fn add_each_zone(page: &Page, zones: &[u8], y: u32, left: usize, wide: usize, counts: &mut [u64])
    requires zones { AreZones page.now y zones.now }
    requires inside { left + wide ≤ width page.now }
    requires workspace { HasWorkspace (length page.now.zones) wide counts.old }
    ensures { Grows (length page.now.zones) (λ z. row_sum (lies_in z page.now) y left wide)
        counts.old counts.new }
{
    let _valid = page.plates();
    for k in 0..wide {
        let zone = usize::from(zones[left + k]);
        counts[zone] += 1;
    }
}

/// Adds to each zone's count the number of those of the samples `left..left + wide` of row y that are in it and change.
pub fn add_changed(
    page: &Page,
    zones: &[u8],
    changes: &[bool],
    y: u32,
    left: usize,
    wide: usize,
    counts: &mut [u64],
)
    requires zones { AreZones page.now y zones.now }
    requires changes { length changes.now ≡ width page.now }
    requires each { (x : ℕ) → x < width page.now → slice_index_or changes.now x false
        ≡ sample_changes page.now (record { x = x; y = y }) }
    requires inside { left + wide ≤ width page.now }
    requires workspace { HasWorkspace (length page.now.zones) wide counts.old }
    ensures { Grows (length page.now.zones) (λ z. row_sum (changes_in traps z page.now) y left wide)
        counts.old counts.new }
{
    let _valid = page.plates();
    match one_zone(zones, left, wide) {
        Some(zone) => counts[usize::from(zone)] += count_changes(page, changes, y, left, wide),
        None => add_each_changed(page, zones, changes, y, left, wide, counts),
    }
}

// Does the same sample by sample.
fn add_each_changed(
    page: &Page,
    zones: &[u8],
    changes: &[bool],
    y: u32,
    left: usize,
    wide: usize,
    counts: &mut [u64],
)
    requires zones { AreZones page.now y zones.now }
    requires changes { length changes.now ≡ width page.now }
    requires each { (x : ℕ) → x < width page.now → slice_index_or changes.now x false
        ≡ sample_changes page.now (record { x = x; y = y }) }
    requires inside { left + wide ≤ width page.now }
    requires workspace { HasWorkspace (length page.now.zones) wide counts.old }
    ensures { Grows (length page.now.zones) (λ z. row_sum (changes_in traps z page.now) y left wide)
        counts.old counts.new }
{
    let _valid = page.plates();
    for k in 0..wide {
        let zone = usize::from(zones[left + k]);
        counts[zone] += one_if(changes[left + k]);
    }
}

/// Returns `tints[from..from + count]`.
fn tints_from(tints: &[u16], from: usize, count: usize) -> &[u16]
    requires { from + count ≤ length tints.now }
    ensures len { length result.now ≡ count }
    ensures each { (k : ℕ) → k < count
        → slice_index result.now k ≡ slice_index tints.now (from + k) }
{
    &tints[from..from + count]
}

/// The number of the samples `left..left + wide` of row y whose tint in plate c changes.
pub fn plate_changes_in(
    page: &Page,
    before: &[u16],
    after: &[u16],
    y: u32,
    c: u32,
    left: usize,
    wide: usize,
) -> u64
    requires wide { left + wide ≤ width page.now }
    requires before { length before.now ≡ width page.now }
    requires after { length after.now ≡ width page.now }
    requires tints { (x : ℕ) → x < width page.now
        → slice_index before.now x ≡ tint page.now c (record { x = x; y = y }) }
    requires news { (x : ℕ) → x < width page.now
        → slice_index after.now x ≡ new page.now (record { x = x; y = y }) c }
    ensures count { result ≡ row_sum (changes_plate traps c page.now) y left wide }
    ensures few { result ≤ wide }
{
    let old = tints_from(before, left, wide);
    let new = tints_from(after, left, wide);
    differences(old, new)
}

/// Returns `marks[from..from + count]`.
fn marks_from(marks: &[u8], from: usize, count: usize) -> &[u8]
    requires { from + count ≤ length marks.now }
    ensures len { length result.now ≡ count }
    ensures each { (k : ℕ) → k < count
        → slice_index result.now k ≡ slice_index marks.now (from + k) }
{
    &marks[from..from + count]
}

/// The number of deciding edges to the right of the samples `left..left + wide` of row y, and below them.
pub fn edges_of(page: &Page, marks: &[u8], y: u32, left: usize, wide: usize) -> u64
    requires marks { AreMarks page.now y marks.now }
    requires inside { left + wide ≤ width page.now }
    ensures count { result ≡ row_sum (edges_at page.now) y left wide }
    ensures few { result ≤ 2 * wide }
{
    let _valid = page.plates();
    edges_in(marks_from(marks, left, wide))
}
