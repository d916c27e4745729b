ghost use Rattle.std.specs.Prelude.{◌≡◌, ◌≤◌, ◌<◌, ◌+◌, ◌*◌, ◌-◌, ℕ, length, slice_index};
ghost use Rattle.page_model.specs.declared.parts.PageParts.{PageParts};
ghost use Rattle.page_model.specs.Marks.{stored_rows};
ghost use Rattle.page_model.specs.Columns.{AreMarks, CoverRows, column_answer};
ghost use Rattle.page_model.specs.Limits.{most_reach};
ghost use Rattle.column_scan.specs.Sweep.{above_of, column_of, slot};

use crate::rows::{first_row_of, last_row_of, row_down, row_up};
use page_model::marks::Marks;
use page_model::steps::Steps;
use std::sync::ledger::Ledger;

/// The downward sweep over the asked rows.
fn rows_down<L: Ledger>(
    marks: &Marks,
    columns: u32,
    first: u32,
    rows: u32,
    reach2: u32,
    out: &mut [u16],
    steps: &mut Steps<L>,
)
    requires columns { columns + 1 ≡ 2 * marks.now.wide }
    requires some { 1 ≤ rows }
    requires asked { first + rows ≤ stored_rows marks.now }
    requires reach { reach2 ≤ most_reach }
    requires out { length out.old ≡ rows * columns }
    ensures len { length out.new ≡ length out.old }
    ensures above { (k x2 : ℕ) → k < rows → x2 < columns
        → slot out.new columns k x2 ≡ above_of marks.now x2 reach2 (first + k) }
    ensures steps { steps.new ≡ steps.old + columns * (first + rows) }
{
    let _valid = marks.rows();
    first_row_of(marks, columns, first, reach2, out, steps);
    for k in 0..rows - 1 {
        row_down(marks, columns, rows, k, first + k, reach2, out, steps);
    }
}

/// The upward sweep over the asked rows.
fn rows_up(marks: &Marks, columns: u32, first: u32, rows: u32, reach2: u32, out: &mut [u16])
    requires columns { columns + 1 ≡ 2 * marks.now.wide }
    requires some { 1 ≤ rows }
    requires asked { first + rows ≤ stored_rows marks.now }
    requires reach { reach2 ≤ most_reach }
    requires out { length out.old ≡ rows * columns }
    requires above { (k x2 : ℕ) → k + 1 < rows → x2 < columns
        → slot out.old columns k x2 ≡ above_of marks.now x2 reach2 (first + k) }
    requires last { (x2 : ℕ) → x2 < columns
        → slot out.old columns (rows - 1) x2 ≡ column_of marks.now x2 reach2 (first + (rows - 1)) }
    ensures len { length out.new ≡ length out.old }
    ensures columns { (k x2 : ℕ) → k < rows → x2 < columns
        → slot out.new columns k x2 ≡ column_of marks.now x2 reach2 (first + k) }
{
    let _valid = marks.rows();
    for i in 0..rows - 1 {
        row_up(columns, rows, rows - (i + 2), reach2, out);
    }
}

/// Writes the column answers of `rows` rows, from `first_row` on, row by row, `2 * width - 1` doubled columns each: 0
/// where no deciding edge is within `reach2` half-samples above or below the row's middle, else 257 plus the offset `Y
/// - 2y` of the nearest one, the upper one where two are as near. It reads each mark at most twice.
pub fn columns<L: Ledger>(
    marks: &Marks,
    width: u32,
    first_row: u32,
    rows: u32,
    reach2: u32,
    out: &mut [u16],
    steps: &mut Steps<L>,
)
    requires width { width ≡ marks.now.wide }
    requires reach { reach2 ≤ most_reach }
    requires some { 1 ≤ rows }
    requires from { marks.now.top ≤ first_row }
    requires to { first_row + rows ≤ marks.now.top + stored_rows marks.now }
    requires out { length out.old ≡ rows * (2 * width - 1) }
    ensures len { length out.new ≡ length out.old }
    ensures answers { (page : PageParts) → AreMarks page marks.now
        → CoverRows page marks.now first_row rows reach2 → (k x2 : ℕ) → k < rows
        → x2 < 2 * width - 1
        → slice_index out.new (k * (2 * width - 1) + x2)
        ≡ column_answer page reach2 x2 (first_row + k) }
    ensures steps { steps.new ≤ steps.old + 2 * ((2 * width - 1) * stored_rows marks.now) }
{
    let _valid = marks.rows();
    let columns = 2 * width - 1;
    let first = first_row - marks.first_row();
    rows_down(marks, columns, first, rows, reach2, out, steps);
    last_row_of(
        marks,
        columns,
        rows,
        rows - 1,
        first + (rows - 1),
        reach2,
        out,
        steps,
    );
    rows_up(marks, columns, first, rows, reach2, out);
}
