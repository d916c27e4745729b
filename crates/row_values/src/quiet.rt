// Rows without a sample that is near enough to an edge to be trapped: their tints stay unchanged.

ghost use Rattle.std.specs.Prelude.{◌≡◌, ◌<◌, ◌≤◌, ◌+◌, true, ℕ, length, slice_index};
ghost use Rattle.row_values.specs.Arms.{AreAnswers};
ghost use Rattle.row_values.specs.Quiet.{KeepsTints};
ghost use Rattle.row_values.specs.Rows.{doubled};
ghost use Rattle.page_model.specs.Page.{width};
ghost use Rattle.page_model.specs.Reach.{page_reach};

use column_scan::are_zero;
use page_model::page::Page;

/// Whether no column of row y has an answer. Then no edge decides within reach of the row, and its tints stay
/// unchanged.
pub fn is_quiet(page: &Page, y: u32, codes: &[u16]) -> bool
    requires codes { AreAnswers page.now (page_reach page.now) y (doubled page.now) codes.now }
    ensures only { result ≡ true → (x : ℕ) → x < width page.now
        → KeepsTints page.now (record { x = x; y = y }) }
    ensures always { ((k : ℕ) → k < length codes.now → slice_index codes.now k ≡ 0)
        → result ≡ true }
{
    let _valid = page.plates();
    are_zero(codes, 0, codes.len())
}

/// Whether no column has an answer within reach of the samples `x..x + count` of row y. Then no edge decides within
/// reach of them, and their tints stay unchanged.
pub fn are_quiet(page: &Page, y: u32, codes: &[u16], reach2: u32, x: u32, count: u32) -> bool
    requires codes { AreAnswers page.now (page_reach page.now) y (doubled page.now) codes.now }
    requires reach { reach2 ≡ page_reach page.now }
    requires some { 1 ≤ count }
    requires inside { x + count ≤ width page.now }
    ensures only { result ≡ true → (k : ℕ) → x ≤ k → k < x + count
        → KeepsTints page.now (record { x = k; y = y }) }
    ensures always { ((k : ℕ) → k < length codes.now → slice_index codes.now k ≡ 0)
        → result ≡ true }
{
    let _valid = page.plates();
    let from = (2 * x as usize).saturating_sub(reach2 as usize);
    let to = codes
        .len()
        .min(2 * (x as usize + count as usize) + reach2 as usize);
    are_zero(codes, from, to)
}
