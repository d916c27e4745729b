// One row of column answers.

ghost use Rattle.std.specs.Prelude.{◌≡◌, ◌≤◌, ◌<◌, ◌+◌, ◌*◌, ◌-◌, ℕ, length, slice_index, slice_set};
ghost use Rattle.page_model.specs.Marks.{stored_rows};
ghost use Rattle.page_model.specs.Limits.{most_column, most_reach, most_side};
ghost use Rattle.column_scan.specs.Sweep.{above_of, column_of, raised, slot, IsRowWritten};

use crate::codes::{above, nearer};
use crate::lifts::{LIFTED, span_up};
use crate::looks::{first_after, last_before, pass_down, pass_up};
use crate::spans::{SPAN, Samples, enter, span_down};
use page_model::marks::Marks;
use page_model::steps::Steps;
use std::sync::ledger::Ledger;

pub(crate) fn put(out: &mut [u16], columns: u32, row: u32, x2: u32, code: u16)
    requires column { x2 < columns }
    requires place { row * columns + x2 < length out.old }
    requires columns { columns ≤ most_column + 1 }
    requires row { row ≤ most_side }
    ensures { out.new ≡ slice_set out.old (row * columns + x2) code }
{
    out[row as usize * columns as usize + x2 as usize] = code;
}

pub(crate) fn get(out: &[u16], columns: u32, row: u32, x2: u32) -> u16
    requires column { x2 < columns }
    requires place { row * columns + x2 < length out.now }
    requires columns { columns ≤ most_column + 1 }
    requires row { row ≤ most_side }
    ensures { result ≡ slice_index out.now (row * columns + x2) }
{
    out[row as usize * columns as usize + x2 as usize]
}

/// The first asked row, by the edges at or above it.
pub(crate) fn first_row_of<L: Ledger>(
    marks: &Marks,
    columns: u32,
    r: u32,
    reach2: u32,
    out: &mut [u16],
    steps: &mut Steps<L>,
)
    requires columns { columns + 1 ≡ 2 * marks.now.wide }
    requires row { r < stored_rows marks.now }
    requires reach { reach2 ≤ most_reach }
    requires out { columns ≤ length out.old }
    ensures written { IsRowWritten out.old out.new columns 0
        (λ x2. above_of marks.now x2 reach2 r) columns }
    ensures steps { steps.new ≡ steps.old + columns * (r + 1) }
{
    let _valid = marks.rows();
    for x2 in 0..columns {
        let last = last_before(marks, x2, r, steps);
        let passed = pass_down(marks, x2, r, last, steps);
        put(out, columns, 0, x2, above(x2, r, reach2, passed.shown));
    }
}

/// Row k + 1 of the asked rows, from row k, with one look at the marks for each column.
pub(crate) fn row_down<L: Ledger>(
    marks: &Marks,
    columns: u32,
    rows: u32,
    k: u32,
    r: u32,
    reach2: u32,
    out: &mut [u16],
    steps: &mut Steps<L>,
)
    requires columns { columns + 1 ≡ 2 * marks.now.wide }
    requires row { r + 1 < stored_rows marks.now }
    requires reach { reach2 ≤ most_reach }
    requires k { k + 1 < rows }
    requires rows { rows ≤ most_side }
    requires out { length out.old ≡ rows * columns }
    requires above { (x2 : ℕ) → x2 < columns
        → slot out.old columns k x2 ≡ above_of marks.now x2 reach2 r }
    ensures written { IsRowWritten out.old out.new columns (k + 1)
        (λ x2. above_of marks.now x2 reach2 (r + 1)) columns }
    ensures steps { steps.new ≡ steps.old + columns }
{
    let _valid = marks.rows();
    let pairs = columns / 2;
    let mut x = 0;
    while x < pairs {
        let count = (pairs - x).min(SPAN);
        let span = Samples { k, r, x, count };
        span_down(marks, columns, rows, span, reach2, out, steps);
        x += count;
    }
    let x2 = columns - 1;
    let last = enter(marks, x2, r, reach2, get(out, columns, k, x2), steps);
    put(out, columns, k + 1, x2, last);
}

/// The last asked row: for each column the nearer of the edges above and below it.
pub(crate) fn last_row_of<L: Ledger>(
    marks: &Marks,
    columns: u32,
    rows: u32,
    k: u32,
    r: u32,
    reach2: u32,
    out: &mut [u16],
    steps: &mut Steps<L>,
)
    requires columns { columns + 1 ≡ 2 * marks.now.wide }
    requires row { r < stored_rows marks.now }
    requires reach { reach2 ≤ most_reach }
    requires k { k < rows }
    requires rows { rows ≤ most_side }
    requires out { length out.old ≡ rows * columns }
    requires above { (x2 : ℕ) → x2 < columns
        → slot out.old columns k x2 ≡ above_of marks.now x2 reach2 r }
    ensures written { IsRowWritten out.old out.new columns k
        (λ x2. column_of marks.now x2 reach2 r) columns }
    ensures steps { steps.new ≡ steps.old + columns * (stored_rows marks.now - r) }
{
    let _valid = marks.rows();
    for x2 in 0..columns {
        let next = first_after(marks, x2, r + 1, steps);
        let passed = pass_up(marks, x2, r, next, steps);
        let code = nearer(x2, r, reach2, get(out, columns, k, x2), passed.shown);
        put(out, columns, k, x2, code);
    }
}

/// Updates row k of the asked rows by the edges below it, from row k + 1.
pub(crate) fn row_up(columns: u32, rows: u32, k: u32, reach2: u32, out: &mut [u16])
    requires columns { columns ≤ most_column + 1 }
    requires reach { reach2 ≤ most_reach }
    requires k { k + 1 < rows }
    requires rows { rows ≤ most_side }
    requires out { length out.old ≡ rows * columns }
    ensures written { IsRowWritten out.old out.new columns k
        (λ x2. raised reach2 (slot out.old columns k x2)
        (slot out.old columns (k + 1) x2)) columns }
{
    let mut x2 = 0;
    while x2 < columns {
        let count = (columns - x2).min(LIFTED);
        span_up(columns, rows, k, x2, count, reach2, out);
        x2 += count;
    }
}
