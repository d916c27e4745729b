// The upward sweep: the columns of one row updated by the row below it, many at once.

ghost use Rattle.std.specs.Prelude.{◌≡◌, ◌≤◌, ◌<◌, ◌+◌, ◌*◌, true, ℕ, length, slice_index};
ghost use Rattle.page_model.specs.Limits.{most_column, most_reach, most_side};
ghost use Rattle.column_scan.specs.Sweep.{raised};

use crate::codes::lift_code;
use crate::rows::{get, put};

/// The number of columns that are updated together, at most.
pub(crate) const LIFTED: u32 = 64;

/// Whether `codes[from..to]` are all 0. All of them are read, without a branch, so that the loop is vectorized.
pub fn are_zero(codes: &[u16], from: usize, to: usize) -> bool
    requires order { from ≤ to }
    requires inside { to ≤ length codes.now }
    ensures only { result ≡ true → (k : ℕ) → from ≤ k → k < to → slice_index codes.now k ≡ 0 }
    ensures always { ((k : ℕ) → from ≤ k → k < to → slice_index codes.now k ≡ 0) → result ≡ true }
{
    let mut all = true;
    for k in from..to {
        all = all & (codes[k] == 0);
    }
    all
}

/// Updates `count` columns of row k of `out`, from column `from` on, by those of row k + 1.
fn lift_span(columns: u32, rows: u32, k: u32, from: u32, count: u32, reach2: u32, out: &mut [u16])
    requires columns { columns ≤ most_column + 1 }
    requires reach { reach2 ≤ most_reach }
    requires k { k + 1 < rows }
    requires rows { rows ≤ most_side }
    requires inside { from + count ≤ columns }
    requires out { length out.old ≡ rows * columns }
    ensures len { length out.new ≡ length out.old }
    ensures each { (j : ℕ) → j < count → slice_index out.new (k * columns + from + j)
        ≡ raised reach2 (slice_index out.old (k * columns + from + j))
        (slice_index out.old ((k + 1) * columns + from + j)) }
    ensures before { (i : ℕ) → i < k * columns + from
        → slice_index out.new i ≡ slice_index out.old i }
    ensures after { (i : ℕ) → k * columns + from + count ≤ i
        → slice_index out.new i ≡ slice_index out.old i }
{
    for j in 0..count {
        let x2 = from + j;
        let code = lift_code(
            reach2,
            get(out, columns, k, x2),
            get(out, columns, k + 1, x2),
        );
        put(out, columns, k, x2, code);
    }
}

/// Does the same as `lift_span`. Where no column of row k + 1 has an answer there, nothing is done.
pub(crate) fn span_up(
    columns: u32,
    rows: u32,
    k: u32,
    from: u32,
    count: u32,
    reach2: u32,
    out: &mut [u16],
)
    requires columns { columns ≤ most_column + 1 }
    requires reach { reach2 ≤ most_reach }
    requires k { k + 1 < rows }
    requires rows { rows ≤ most_side }
    requires inside { from + count ≤ columns }
    requires out { length out.old ≡ rows * columns }
    ensures len { length out.new ≡ length out.old }
    ensures each { (j : ℕ) → j < count → slice_index out.new (k * columns + from + j)
        ≡ raised reach2 (slice_index out.old (k * columns + from + j))
        (slice_index out.old ((k + 1) * columns + from + j)) }
    ensures before { (i : ℕ) → i < k * columns + from
        → slice_index out.new i ≡ slice_index out.old i }
    ensures after { (i : ℕ) → k * columns + from + count ≤ i
        → slice_index out.new i ≡ slice_index out.old i }
{
    let start = (k as usize + 1) * columns as usize + from as usize;
    if !are_zero(out, start, start + count as usize) {
        lift_span(columns, rows, k, from, count, reach2, out);
    }
}
