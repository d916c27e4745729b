ghost use Rattle.std.specs.Prelude.{◌≡◌, ◌≤◌, ◌<◌, ◌+◌, ◌*◌, ◌-◌, length, slice_index, slice_index_or, ℕ, None, Some};
ghost use Rattle.row_envelope.specs.Envelope.{Rising, arm_at, nearest};
ghost use Rattle.row_envelope.specs.Hull.{IsHull};
ghost use Rattle.page_model.specs.Limits.{most_side};

use crate::hull::{HullBuf, build_hull};
use page_model::arms::Arm;
use page_model::steps::Steps;
use std::sync::ledger::Ledger;

/// Writes the place of an arm to `out[x..end]`.
fn give(out: &mut [Option<u32>], x: usize, end: usize, place: u32)
    requires order { x ≤ end }
    requires inside { end ≤ length out.old }
    ensures len { length out.new ≡ length out.old }
    ensures before { (j : ℕ) → j < x
        → slice_index_or out.new j None ≡ slice_index_or out.old j None }
    ensures here { (j : ℕ) → x ≤ j → j < end → slice_index_or out.new j None ≡ Some place }
{
    for j in x..end {
        out[j] = Some(place);
    }
}

/// The end of the samples that entry k of the hull has; x is one of them.
fn end_of(starts: &[u32], stored: usize, k: usize, x: usize, width: usize) -> usize
    requires starts { stored ≤ length starts.now }
    requires k { k < stored }
    requires x { x < width }
    requires begun { k + 1 < stored → 2 * x < slice_index starts.now (k + 1) }
    ensures some { x < result }
    ensures inside { result ≤ width }
    ensures within { (j : ℕ) → j < result → k + 1 < stored → 2 * j < slice_index starts.now (k + 1) }
{
    if k + 1 < stored {
        (starts[k + 1] as usize).div_ceil(2).min(width)
    } else {
        width
    }
}

/// Writes for each sample the place of its nearest arm, entry by entry of the hull.
fn spread(
    places: &[u32],
    starts: &[u32],
    stored: usize,
    out: &mut [Option<u32>],
    arms: &[Arm],
    last: u32,
)
    requires some { 0 < stored }
    requires places { stored ≤ length places.now }
    requires starts { stored ≤ length starts.now }
    requires narrow { length out.old ≤ most_side }
    requires last { last + 2 ≡ 2 * length out.old }
    requires hull { IsHull arms.now (length arms.now) last places.now starts.now stored }
    ensures len { length out.new ≡ length out.old }
    ensures nearest { (x : ℕ) → x < length out.old
        → slice_index_or out.new x None ≡ nearest arms.now x }
{
    let mut k = 0;
    let mut x = 0;
    while x < out.len() {
        while k + 1 < stored && starts[k + 1] as usize <= 2 * x {
            k += 1;
        }
        let end = end_of(starts, stored, k, x, out.len());
        give(out, x, end, places[k]);
        x = end;
    }
}

/// Writes that no sample has a nearest arm.
fn clear(out: &mut [Option<u32>])
    ensures { (x : ℕ) → x < length out.old → slice_index_or out.new x None ≡ None }
{
    for slot in out.iter_mut() {
        *slot = None;
    }
}

/// Writes for each sample x of a row the index in `arms` of the nearest arm, the one with the least `((X - 2x)^2 +
/// offset^2, X)`: the left one where two are as near, and `None` exactly where there are no arms. The arms are in
/// ascending order of X. It compares two arms at most four times for each doubled column.
pub fn nearest_row<L: Ledger>(
    arms: &[Arm],
    width: u32,
    out: &mut [Option<u32>],
    hull: &mut HullBuf,
    steps: &mut Steps<L>,
)
    requires some { 1 ≤ width }
    requires narrow { width ≤ most_side }
    requires order { Rising arms.now }
    requires inside { (k : ℕ) → k < length arms.now → (arm_at arms.now k).column + 2 ≤ 2 * width }
    requires hull { hull.old.columns ≡ 2 * width - 1 }
    requires out { length out.old ≡ width }
    ensures len { length out.new ≡ width }
    ensures nearest { (x : ℕ) → x < width → slice_index_or out.new x None ≡ nearest arms.now x }
    ensures hull { hull.new ≡ hull.old }
    ensures cost { steps.new ≤ steps.old + 4 * (2 * width - 1) }
{
    if arms.is_empty() {
        clear(out);
        return;
    }
    let places = hull.places.as_mut_slice();
    let starts = hull.starts.as_mut_slice();
    let stored = build_hull(arms, 2 * width - 2, places, starts, steps);
    spread(places, starts, stored, out, arms, 2 * width - 2);
}
