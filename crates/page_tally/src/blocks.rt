// Rows, compared block by block: in most places most rows stay unchanged.

ghost use Rattle.std.specs.Prelude.{◌≡◌, ◌≢◌, ◌<◌, ◌≤◌, ◌+◌, ◌==◌, ℕ, not, true, false, length, slice_index, slice_index_or};
ghost use Rattle.lists.specs.Words.{any_below};

/// The number of samples of a block.
pub const BLOCK: usize = 64;

/// Returns `row[from..from + count]`.
pub fn part_of(row: &[u16], from: usize, count: usize) -> &[u16]
    requires { from + count ≤ length row.now }
    ensures len { length result.now ≡ count }
    ensures each { (k : ℕ) → k < count → slice_index result.now k ≡ slice_index row.now (from + k) }
{
    &row[from..from + count]
}

/// Whether two rows of tints are equal.
pub fn are_same(one: &[u16], other: &[u16]) -> bool
    ensures same { result ≡ true → one.now ≡ other.now }
    ensures other { result ≡ false → one.now ≢ other.now }
{
    one == other
}

/// Whether the samples `from..from + count` are all in the zone of the first of them. All of them are read, without a
/// branch, so that the loop is vectorized.
pub fn are_alike(zones: &[u8], from: usize, count: usize) -> bool
    requires some { 1 ≤ count }
    requires inside { from + count ≤ length zones.now }
    ensures alike { result ≡ true → (k : ℕ) → k < count → slice_index zones.now (from + k)
        ≡ slice_index zones.now from }
    ensures other { result ≡ false
        → any_below (λ k. not (slice_index zones.now (from + k) == slice_index zones.now from))
        count ≡ true }
{
    let zone = zones[from];
    let mut all = true;
    for k in 0..count {
        all = all & (zones[from + k] == zone);
    }
    all
}

/// Whether `changes[from..from + count]` are all false.
pub fn are_clear(changes: &[bool], from: usize, count: usize) -> bool
    requires { from + count ≤ length changes.now }
    ensures clear { result ≡ true → (k : ℕ) → k < count
        → slice_index_or changes.now (from + k) false ≡ false }
    ensures other { result ≡ false
        → any_below (λ k. slice_index_or changes.now (from + k) false) count ≡ true }
{
    let mut none = true;
    for k in 0..count {
        none = none & !changes[from + k];
    }
    none
}
