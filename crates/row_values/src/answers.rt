ghost use Rattle.std.specs.Prelude.{◌≡◌, ◌<◌, ◌≤◌, ◌+◌, ◌*◌, ◌-◌, true, ℕ, length, slice_index};
ghost use Rattle.row_values.specs.Rows.{HoldsAnswers, HoldsMarks, doubled};
ghost use Rattle.page_model.specs.Columns.{AreMarks, halo};
ghost use Rattle.page_model.specs.Marks.{stored_rows};
ghost use Rattle.page_model.specs.Page.{height};
ghost use Rattle.page_model.specs.Reach.{page_reach};

use crate::rows::Rows;
use column_scan::columns;
use page_model::marks::Marks;
use page_model::page::Page;
use page_model::steps::Steps;
use std::marker::Brand;
use std::sync::ledger::{Blank, Ledger};

/// Whether no sample has a mark. All of them are read, without a branch, so that the loop is vectorized.
fn are_blank(marks: &[u8]) -> bool
    ensures { result ≡ true → (k : ℕ) → k < length marks.now → slice_index marks.now k ≡ 0 }
{
    let mut all = true;
    for k in 0..marks.len() {
        all = all & (marks[k] == 0);
    }
    all
}

/// The marks of some rows, as the column scan reads them.
fn marks_of<'a>(page: &Page, stored: Rows, marks: &'a [u8]) -> Marks<'a>
    requires marks { HoldsMarks page.now stored marks.now }
    requires some { 1 ≤ stored.count }
    requires inside { stored.first + stored.count ≤ height page.now }
    ensures marks { AreMarks page.now result }
    ensures top { result.top ≡ stored.first }
    ensures rows { stored_rows result ≡ stored.count }
{
    Marks::new(page.width(), stored.first, marks)
}

fn scan<L: Ledger>(
    page: &Page,
    rows: Rows,
    stored: Rows,
    marks: &[u8],
    out: &mut [u16],
    steps: &mut Steps<L>,
)
    requires marks { HoldsMarks page.now stored marks.now }
    requires some { 1 ≤ rows.count }
    requires inside { rows.first + rows.count ≤ height page.now }
    requires stored { stored.first + stored.count ≤ height page.now }
    requires above { stored.first ≤ rows.first }
    requires under { rows.first + rows.count ≤ stored.first + stored.count }
    requires far_above { (row : ℕ) → rows.first ≤ row + halo (page_reach page.now)
        → stored.first ≤ row }
    requires far_under { (row : ℕ) → row < height page.now
        → row < rows.first + rows.count + halo (page_reach page.now)
        → row < stored.first + stored.count }
    requires out { length out.old ≡ rows.count * doubled page.now }
    ensures answers { HoldsAnswers page.now rows out.new }
    ensures len { length out.new ≡ length out.old }
{
    let marks = marks_of(page, stored, marks);
    columns(
        &marks,
        page.width(),
        rows.first,
        rows.count,
        page.reach2(),
        out,
        steps,
    );
}

/// Does the same with a step counter.
fn scan_with_counter<L: Ledger>(
    page: &Page,
    rows: Rows,
    stored: Rows,
    marks: &[u8],
    out: &mut [u16],
    blank: Blank,
)
    requires name { blank.name ≡ L.name }
    requires parts { blank.parts ≡ L.parts }
    requires counting { 0 < L.parts }
    requires marks { HoldsMarks page.now stored marks.now }
    requires some { 1 ≤ rows.count }
    requires inside { rows.first + rows.count ≤ height page.now }
    requires stored { stored.first + stored.count ≤ height page.now }
    requires above { stored.first ≤ rows.first }
    requires under { rows.first + rows.count ≤ stored.first + stored.count }
    requires far_above { (row : ℕ) → rows.first ≤ row + halo (page_reach page.now)
        → stored.first ≤ row }
    requires far_under { (row : ℕ) → row < height page.now
        → row < rows.first + rows.count + halo (page_reach page.now)
        → row < stored.first + stored.count }
    requires out { length out.old ≡ rows.count * doubled page.now }
    ensures answers { HoldsAnswers page.now rows out.new }
    ensures len { length out.new ≡ length out.old }
{
    let mut steps = Steps::<L>::new(blank);
    scan(page, rows, stored, marks, out, &mut steps);
}

/// Writes that no column has an answer.
fn clear(out: &mut [u16])
    ensures len { length out.new ≡ length out.old }
    ensures each { (k : ℕ) → k < length out.old → slice_index out.new k ≡ 0 }
{
    out.fill(0);
}

/// Writes the column answers of these rows, row by row from doubled column 0 on. `marks` are the marks of the rows
/// `stored`: these rows, and all rows of the page within its reach of them. Where no sample of `stored` has a mark, no
/// column is scanned.
pub fn make_answers(page: &Page, rows: Rows, stored: Rows, marks: &[u8], out: &mut [u16])
    requires marks { HoldsMarks page.now stored marks.now }
    requires some { 1 ≤ rows.count }
    requires inside { rows.first + rows.count ≤ height page.now }
    requires stored { stored.first + stored.count ≤ height page.now }
    requires above { stored.first ≤ rows.first }
    requires under { rows.first + rows.count ≤ stored.first + stored.count }
    requires far_above { (row : ℕ) → rows.first ≤ row + halo (page_reach page.now)
        → stored.first ≤ row }
    requires far_under { (row : ℕ) → row < height page.now
        → row < rows.first + rows.count + halo (page_reach page.now)
        → row < stored.first + stored.count }
    requires out { length out.old ≡ rows.count * doubled page.now }
    ensures answers { HoldsAnswers page.now rows out.new }
    ensures len { length out.new ≡ length out.old }
{
    if are_blank(marks) {
        clear(out);
    } else {
        let blank = Blank::new(1);
        scan_with_counter::<Brand>(page, rows, stored, marks, out, blank);
    }
}
