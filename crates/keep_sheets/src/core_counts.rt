// What is counted in a core.

ghost use Rattle.std.specs.Prelude.{◌≡◌, ◌+◌, ◌*◌, ◌<◌, ◌≤◌, ◌^◌, ◌==◌, not, ℕ, length, slice_index};
ghost use Rattle.lists.specs.Words.{sum_below};
ghost use Rattle.page_model.specs.Page.{height, plates, width};
ghost use Rattle.page_model.specs.Planes.{tints_of};
ghost use Rattle.sheet_geometry.specs.Areas.{one_if as bit_of};
ghost use Rattle.sheet_geometry.specs.Covers.{IsOnSheet};
ghost use Rattle.keep_pages.specs.KeptPages.{kept_planes, kept_tints};
ghost use Rattle.keep_sheets.specs.KeepSheets.{changes_at, core_sum, covers_at};
ghost use Rattle.keep_sheets.specs.KeepSums.{AddsKept, AreMarks, HasRoom};

use crate::counts::KeepCounts;
use keep_pages::KeepUse;
use keep_pages::laws::kept_planes_law;
use keepaway::rows::tints_of_row;
use page_model::page::Page;
use page_model::parts::Plane;
use page_tally::differences;
use sheet_geometry::cuts::Cut;

/// 1 where the test is true, else 0.
fn one_if(test: bool) -> u64
    ensures value { result ≡ bit_of test }
    ensures few { result ≤ 1 }
{
    if test { 1 } else { 0 }
}

/// How many of `count` entries, from this one on, are not 0.
fn marked(marks: &[u8], from: usize, count: usize) -> u64
    requires { from + count ≤ length marks.now }
    ensures count { result ≡ sum_below (λ k. bit_of (not (slice_index marks.now (from + k) == 0))) count }
    ensures few { result ≤ count }
{
    let mut marked = 0;
    for k in 0..count {
        marked += one_if(marks[from + k] != 0);
    }
    marked
}

/// How many pixels of row k of a core are covered.
fn covered_in_row(page: &Page, used: &KeepUse, marks: &[u8], core: &Cut, k: u32) -> u64
    requires marks { AreMarks page.now used.now marks.now }
    requires core { IsOnSheet page.now core.now }
    requires row { k < core.now.height }
    ensures count { result ≡ sum_below (λ x. covers_at used.now page.now
        (record { x = core.now.left + x; y = core.now.top + k })) core.now.width }
    ensures few { result ≤ core.now.width }
{
    let _valid = page.plates();
    let start = (core.top + k) as usize * page.width() as usize + core.left as usize;
    marked(marks, start, core.width as usize)
}

/// How many pixels of a core are covered.
fn covered_in(page: &Page, used: &KeepUse, marks: &[u8], core: &Cut) -> u64
    requires marks { AreMarks page.now used.now marks.now }
    requires core { IsOnSheet page.now core.now }
    ensures count { result ≡ core_sum (covers_at used.now page.now) core.now }
    ensures few { result ≤ core.now.width * core.now.height }
{
    let _valid = page.plates();
    let mut covered = 0;
    for k in 0..core.height {
        covered += covered_in_row(page, used, marks, core, k);
    }
    covered
}

/// `count` tints of a list, from this one on.
fn run_of(tints: &[u16], from: usize, count: usize) -> &[u16]
    requires { from + count ≤ length tints.now }
    ensures len { length result.now ≡ count }
    ensures each { (k : ℕ) → k < count
        → slice_index result.now k ≡ slice_index tints.now (from + k) }
{
    &tints[from..from + count]
}

/// How many pixels of row k of a core have another tint in plate c than before.
fn changed_in_row(page: &Page, used: &KeepUse, tints: &[u16], c: u32, core: &Cut, k: u32) -> u64
    requires tints { tints.now ≡ kept_tints page.now used.now c }
    requires plate { c < plates page.now }
    requires core { IsOnSheet page.now core.now }
    requires row { k < core.now.height }
    ensures count { result ≡ sum_below (λ x. changes_at used.now c page.now
        (record { x = core.now.left + x; y = core.now.top + k })) core.now.width }
    ensures few { result ≤ core.now.width }
{
    let _valid = page.plates();
    let y = core.top + k;
    let (left, wide) = (core.left as usize, core.width as usize);
    let before = run_of(tints_of_row(page, c, y), left, wide);
    let start = y as usize * page.width() as usize + left;
    let after = run_of(tints, start, wide);
    differences(before, after)
}

/// How many pixels of a core have another tint in plate c than before.
fn changed_in(page: &Page, used: &KeepUse, tints: &[u16], c: u32, core: &Cut) -> u64
    requires tints { tints.now ≡ kept_tints page.now used.now c }
    requires plate { c < plates page.now }
    requires core { IsOnSheet page.now core.now }
    ensures count { result ≡ core_sum (changes_at used.now c page.now) core.now }
    ensures few { result ≤ core.now.width * core.now.height }
{
    let _valid = page.plates();
    let mut changed = 0;
    for k in 0..core.height {
        changed += changed_in_row(page, used, tints, c, core, k);
    }
    changed
}

/// The tints of plane c.
fn tints_at(planes: &[Plane], c: u32) -> &[u16]
    requires { c < length planes.now }
    ensures { result.now ≡ tints_of planes.now c }
{
    planes[c as usize].tints.as_slice()
}

/// Adds for each plate how many pixels of a core have another tint than before.
fn add_changes(page: &Page, used: &KeepUse, planes: &[Plane], core: &Cut, changed: &mut [u64])
    requires planes { planes.now ≡ kept_planes page.now used.now }
    requires core { IsOnSheet page.now core.now }
    requires long { length changed.old ≡ plates page.now }
    requires room { (c : ℕ) → c < plates page.now
        → slice_index changed.old c + core.now.width * core.now.height < 2 ^ 64 }
    ensures long { length changed.new ≡ length changed.old }
    ensures each { (c : ℕ) → c < plates page.now → slice_index changed.new c
        ≡ slice_index changed.old c + core_sum (changes_at used.now c page.now) core.now }
{
    let _valid = page.plates();
    kept_planes_law(page, used);
    for c in 0..page.plates() {
        changed[c as usize] += changed_in(page, used, tints_at(planes, c), c, core);
    }
}

/// Adds what is counted in a core of a page: `marks` say which pixels are covered, and `planes` are the new ones.
pub fn add_core(
    page: &Page,
    used: &KeepUse,
    marks: &[u8],
    planes: &[Plane],
    core: &Cut,
    counts: &mut KeepCounts,
)
    requires marks { AreMarks page.now used.now marks.now }
    requires planes { planes.now ≡ kept_planes page.now used.now }
    requires core { IsOnSheet page.now core.now }
    requires room { HasRoom page.now (core.now.width * core.now.height) counts.old }
    ensures { AddsKept page.now used.now core.now counts.old counts.new }
{
    counts.covered += covered_in(page, used, marks, core);
    add_changes(page, used, planes, core, &mut counts.changed);
}
