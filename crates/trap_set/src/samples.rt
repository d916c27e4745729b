// The changes between two lists of planes, sample by sample.

ghost use Rattle.std.specs.Prelude.{◌≡◌, ◌<◌, ◌≤◌, ◌+◌, ◌*◌, ◌==◌, ℕ, IsTrue, EachIndex, false, not, suc, length, slice_index, slice_range};
ghost use Rattle.page_model.specs.Planes.{tints_of};
ghost use Rattle.page_model.specs.Shapes.{AreOneShape, wide, tall};
ghost use Rattle.trap_set.specs.Runs.{ArePair, begins, changes, goes_on, run_at, same_tints, tint_at};

use page_model::parts::PlaneList;

/// The tints of plane c in a row.
fn row_of(planes: &PlaneList, c: u32, y: u32) -> &[u16]
    requires shape { AreOneShape planes.now }
    requires plate { c < length planes.now }
    requires row { y < tall planes.now }
    ensures tints { result.now
        ≡ slice_range (tints_of planes.now c)
        (y * wide planes.now) (y * wide planes.now + wide planes.now) }
    ensures wide { length result.now ≡ wide planes.now }
{
    let plane = &planes.as_slice()[c as usize];
    let width = plane.width as usize;
    let first = y as usize * width;
    &plane.tints.as_slice()[first..first + width]
}

/// The tint of plane c at a sample.
pub(crate) fn tint_of(planes: &PlaneList, c: u32, x: u32, y: u32) -> u16
    requires shape { AreOneShape planes.now }
    requires plate { c < length planes.now }
    requires column { x < wide planes.now }
    requires row { y < tall planes.now }
    ensures { result ≡ tint_at planes.now c x y }
{
    row_of(planes, c, y)[x as usize]
}

// The number of samples of a row that are compared together.
const SPAN: u32 = 64;

// Whether the tints at each place are equal. All of them are read, so that the loop is vectorized.
fn are_same(old: &[u16], new: &[u16]) -> bool
    requires { length old.now ≡ length new.now }
    ensures { IsTrue result → EachIndex old.now
        (λ k. slice_index old.now k ≡ slice_index new.now k) }
{
    let mut same = true;
    for k in 0..old.len() {
        same = same && old[k] == new[k];
    }
    same
}

// Whether the samples `from..to` of a row have the same tints before and after in plane c.
fn plane_is_same(old: &PlaneList, new: &PlaneList, c: u32, y: u32, from: u32, to: u32) -> bool
    requires pair { ArePair old.now new.now }
    requires plate { c < length old.now }
    requires row { y < tall old.now }
    requires span { (from ≤ to) × (to ≤ wide old.now) }
    ensures { IsTrue result → (x : ℕ) → from ≤ x → x < to
        → tint_at old.now c x y ≡ tint_at new.now c x y }
{
    let before = row_of(old, c, y);
    let after = row_of(new, c, y);
    are_same(
        &before[from as usize..to as usize],
        &after[from as usize..to as usize],
    )
}

// Whether the samples `from..to` of a row have the same tints before and after in all planes.
fn span_is_same(old: &PlaneList, new: &PlaneList, y: u32, from: u32, to: u32) -> bool
    requires pair { ArePair old.now new.now }
    requires row { y < tall old.now }
    requires span { (from ≤ to) × (to ≤ wide old.now) }
    ensures { IsTrue result → (x : ℕ) → from ≤ x → x < to → changes old.now new.now x y ≡ false }
{
    for c in 0..old.len() as u32 {
        if !plane_is_same(old, new, c, y, from, to) {
            return false;
        }
    }
    true
}

/// The column from which to search a row on, at column x: the end of the span that begins there if nothing changes in
/// it, else x.
pub(crate) fn skip_same(old: &PlaneList, new: &PlaneList, y: u32, x: u32, width: u32) -> u32
    requires pair { ArePair old.now new.now }
    requires width { width ≡ wide old.now }
    requires column { x < width }
    requires row { y < tall old.now }
    ensures within { (x ≤ result) × (result ≤ width) }
    ensures same { (i : ℕ) → x ≤ i → i < result → changes old.now new.now i y ≡ false }
{
    let end = x + (width - x).min(SPAN);
    if x % SPAN == 0 && span_is_same(old, new, y, x, end) {
        end
    } else {
        x
    }
}

/// Whether the tint of some plane changes at a sample.
fn changes_at(old: &PlaneList, new: &PlaneList, x: u32, y: u32) -> bool
    requires pair { ArePair old.now new.now }
    requires column { x < wide old.now }
    requires row { y < tall old.now }
    ensures { result ≡ changes old.now new.now x y }
{
    let mut any = false;
    for c in 0..old.len() as u32 {
        any = any || tint_of(old, c, x, y) != tint_of(new, c, x, y);
    }
    any
}

/// Whether a sample has the new tints of the sample to its left.
fn same_as_left(new: &PlaneList, left: u32, y: u32) -> bool
    requires shape { AreOneShape new.now }
    requires column { left + 1 < wide new.now }
    requires row { y < tall new.now }
    ensures { result ≡ same_tints new.now left (suc left) y }
{
    let mut any = false;
    for c in 0..new.len() as u32 {
        any = any || tint_of(new, c, left, y) != tint_of(new, c, left + 1, y);
    }
    !any
}

/// Whether a sample continues the run of the sample to its left.
fn goes_on_at(old: &PlaneList, new: &PlaneList, x: u32, y: u32) -> bool
    requires pair { ArePair old.now new.now }
    requires column { x < wide old.now }
    requires row { y < tall old.now }
    ensures { result ≡ goes_on old.now new.now x y }
{
    x > 0
        && changes_at(old, new, x - 1, y)
        && changes_at(old, new, x, y)
        && same_as_left(new, x - 1, y)
}

/// Whether a run begins at a sample.
pub(crate) fn begins_at(old: &PlaneList, new: &PlaneList, x: u32, y: u32) -> bool
    requires pair { ArePair old.now new.now }
    requires column { x < wide old.now }
    requires row { y < tall old.now }
    ensures { result ≡ begins old.now new.now x y }
{
    changes_at(old, new, x, y) && !goes_on_at(old, new, x, y)
}

/// The number of samples of the run that begins at a sample.
pub(crate) fn run_length(old: &PlaneList, new: &PlaneList, x: u32, y: u32, width: u32) -> u32
    requires pair { ArePair old.now new.now }
    requires width { width ≡ wide old.now }
    requires column { x < width }
    requires row { y < tall old.now }
    ensures { result ≡ (run_at old.now new.now x y).count }
{
    for i in x + 1..width {
        if !goes_on_at(old, new, i, y) {
            return i - x;
        }
    }
    width - x
}
