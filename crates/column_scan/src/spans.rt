// The downward sweep: columns of one row carried to the next, many at once.

ghost use Rattle.std.specs.Prelude.{◌≡◌, ◌≤◌, ◌<◌, ◌+◌, ◌*◌, ℕ, length, slice_index};
ghost use Rattle.page_model.specs.Marks.{stored_rows};
ghost use Rattle.page_model.specs.Limits.{most_column, most_reach, most_side};
ghost use Rattle.column_scan.specs.Sweep.{above_of, slot};

use crate::codes::step_code;
use crate::looks::decides;
use page_model::marks::Marks;
use page_model::steps::Steps;
use std::sync::ledger::Ledger;

/// The number of samples whose columns, two for each, are carried together, at most.
pub(crate) const SPAN: u32 = 256;

/// Row r + 1 of the marks, from row r.
pub(crate) fn enter<L: Ledger>(
    marks: &Marks,
    x2: u32,
    r: u32,
    reach2: u32,
    code: u16,
    steps: &mut Steps<L>,
) -> u16
    requires column { x2 + 2 ≤ 2 * marks.now.wide }
    requires row { r + 1 < stored_rows marks.now }
    requires reach { reach2 ≤ most_reach }
    requires code { code ≡ above_of marks.now x2 reach2 r }
    ensures code { result ≡ above_of marks.now x2 reach2 (r + 1) }
    ensures step { steps.new ≡ steps.old + 1 }
{
    let _valid = marks.rows();
    let seen = decides(marks, x2, r + x2 % 2, steps);
    step_code(x2, reach2, seen, code)
}

/// The codes of `count` columns of a row, from column `x2` on.
fn codes_of(out: &[u16], columns: u32, row: u32, x2: u32, count: usize) -> &[u16]
    requires columns { columns ≤ most_column + 1 }
    requires row { row ≤ most_side }
    requires column { x2 ≤ columns }
    requires inside { row * columns + x2 + count ≤ length out.now }
    ensures len { length result.now ≡ count }
    ensures each { (j : ℕ) → j < count
        → slice_index result.now j ≡ slice_index out.now (row * columns + x2 + j) }
{
    let start = row as usize * columns as usize + x2 as usize;
    &out[start..start + count]
}

/// Writes codes to a row, from column `x2` on.
fn put_codes(out: &mut [u16], columns: u32, row: u32, x2: u32, codes: &[u16])
    requires columns { columns ≤ most_column + 1 }
    requires row { row ≤ most_side }
    requires column { x2 ≤ columns }
    requires inside { row * columns + x2 + length codes.now ≤ length out.old }
    ensures len { length out.new ≡ length out.old }
    ensures each { (j : ℕ) → j < length codes.now
        → slice_index out.new (row * columns + x2 + j) ≡ slice_index codes.now j }
    ensures before { (i : ℕ) → i < row * columns + x2
        → slice_index out.new i ≡ slice_index out.old i }
    ensures after { (i : ℕ) → row * columns + x2 + length codes.now ≤ i
        → slice_index out.new i ≡ slice_index out.old i }
{
    let start = row as usize * columns as usize + x2 as usize;
    out[start..start + codes.len()].copy_from_slice(codes);
}

/// Carries the codes of some samples' columns, from sample x on, from row r to the next.
fn pairs_down<L: Ledger>(
    marks: &Marks,
    x: u32,
    count: u32,
    r: u32,
    reach2: u32,
    codes: &mut [u16],
    steps: &mut Steps<L>,
)
    requires inside { x + count < marks.now.wide }
    requires row { r + 1 < stored_rows marks.now }
    requires reach { reach2 ≤ most_reach }
    requires long { length codes.old ≡ 2 * count }
    requires above { (j : ℕ) → j < 2 * count
        → slice_index codes.old j ≡ above_of marks.now (2 * x + j) reach2 r }
    ensures len { length codes.new ≡ length codes.old }
    ensures each { (j : ℕ) → j < 2 * count
        → slice_index codes.new j ≡ above_of marks.now (2 * x + j) reach2 (r + 1) }
    ensures steps { steps.new ≡ steps.old + 2 * count }
{
    let _valid = marks.rows();
    for k in 0..count {
        let even = 2 * k as usize;
        let odd = even + 1;
        let one = enter(marks, 2 * (x + k), r, reach2, codes[even], steps);
        let two = enter(marks, 2 * (x + k) + 1, r, reach2, codes[odd], steps);
        codes[even] = one;
        codes[odd] = two;
    }
}

/// Some samples of a row that are carried to the next row together.
#[derive(Clone, Copy, Drop)]
pub(crate) struct Samples {
    /// The row's number among the asked rows, and among those of the marks.
    pub(crate) k: u32,
    pub(crate) r: u32,
    /// The first of the samples, and how many they are.
    pub(crate) x: u32,
    pub(crate) count: u32,
}

/// Writes the columns of some samples in row k + 1 of the asked rows, from row k. They are worked out in a list of
/// their own: both rows are parts of one list, and while one of them is written the other can't be read by slices.
pub(crate) fn span_down<L: Ledger>(
    marks: &Marks,
    columns: u32,
    rows: u32,
    span: Samples,
    reach2: u32,
    out: &mut [u16],
    steps: &mut Steps<L>,
)
    requires columns { columns + 1 ≡ 2 * marks.now.wide }
    requires inside { span.x + span.count < marks.now.wide }
    requires few { span.count ≤ 256 }
    requires row { span.r + 1 < stored_rows marks.now }
    requires reach { reach2 ≤ most_reach }
    requires k { span.k + 1 < rows }
    requires rows { rows ≤ most_side }
    requires out { length out.old ≡ rows * columns }
    requires above { (x2 : ℕ) → x2 < columns
        → slot out.old columns span.k x2 ≡ above_of marks.now x2 reach2 span.r }
    ensures len { length out.new ≡ length out.old }
    ensures each { (j : ℕ) → j < 2 * span.count
        → slice_index out.new ((span.k + 1) * columns + 2 * span.x + j)
        ≡ above_of marks.now (2 * span.x + j) reach2 (span.r + 1) }
    ensures before { (i : ℕ) → i < (span.k + 1) * columns + 2 * span.x
        → slice_index out.new i ≡ slice_index out.old i }
    ensures after { (i : ℕ) → (span.k + 1) * columns + 2 * span.x + 2 * span.count ≤ i
        → slice_index out.new i ≡ slice_index out.old i }
    ensures steps { steps.new ≡ steps.old + 2 * span.count }
{
    let _valid = marks.rows();
    let long = 2 * span.count as usize;
    let mut workspace = [0u16; 2 * SPAN as usize];
    let codes = &mut workspace[..long];
    codes.copy_from_slice(codes_of(out, columns, span.k, 2 * span.x, long));
    pairs_down(marks, span.x, span.count, span.r, reach2, codes, steps);
    put_codes(out, columns, span.k + 1, 2 * span.x, codes);
}
