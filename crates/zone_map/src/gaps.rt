// Places of a row at which no segment crosses it: a zone covers all samples between two crossings, or none.

ghost use Rattle.std.specs.Prelude.{◌≡◌, ℕ, ◌<◌, ◌≤◌, ◌+◌, true, length, slice_index};

/// The number of places that are looked at together, at most.
const SPAN: usize = 64;

/// Whether `counts[from..to]` are all 0. All of them are read, without a branch, so that the loop is vectorized.
fn are_none(counts: &[u32], from: usize, to: usize) -> bool
    requires order { from ≤ to }
    requires inside { to ≤ length counts.now }
    ensures { result ≡ true → (k : ℕ) → from ≤ k → k < to → slice_index counts.now k ≡ 0 }
{
    let mut all = true;
    for k in from..to {
        all = all & (counts[k] == 0);
    }
    all
}

/// The number of places without a crossing directly before x, at most `most`.
fn none_until(ups: &[u32], downs: &[u32], x: usize, most: usize) -> usize
    requires ups { x ≤ length ups.now }
    requires downs { x ≤ length downs.now }
    requires most { most ≤ x }
    ensures few { result ≤ most }
    ensures ups { (k : ℕ) → x ≤ k + result → k < x → slice_index ups.now k ≡ 0 }
    ensures downs { (k : ℕ) → x ≤ k + result → k < x → slice_index downs.now k ≡ 0 }
{
    let mut count = 0;
    while count < most && ups[x - 1 - count] == 0 && downs[x - 1 - count] == 0 {
        count += 1;
    }
    count
}

/// A number of places without a crossing directly before x: at most `SPAN`, and fewer than x.
pub(crate) fn none_before(ups: &[u32], downs: &[u32], x: usize) -> usize
    requires ups { x ≤ length ups.now }
    requires downs { x ≤ length downs.now }
    requires some { 0 < x }
    ensures few { result < x }
    ensures ups { (k : ℕ) → x ≤ k + result → k < x → slice_index ups.now k ≡ 0 }
    ensures downs { (k : ℕ) → x ≤ k + result → k < x → slice_index downs.now k ≡ 0 }
{
    let most = SPAN.min(x - 1);
    if are_none(ups, x - most, x) && are_none(downs, x - most, x) {
        most
    } else {
        none_until(ups, downs, x, most)
    }
}
