// Rulers within a budget.

ghost use Rattle.std.specs.Prelude.{◌≡◌, ◌⊎◌, ◌+◌, ◌*◌, ◌<◌, ◌≤◌, ◌^◌, max, length, None};
ghost use Rattle.page_model.specs.Limits.{most_plates, most_samples, most_side};

use page_model::bounds::{MOST_SAMPLES, MOST_SIDE};

/// How large a window may be: its rows, and its samples in all plates together. A window has at least a halo on each
/// side and a step between them, even where that is more.
#[derive(Clone, Copy, Drop)]
pub struct Budget {
    pub rows: u32,
    pub samples: u64,
}

/// The most rows of a window within the budget, where it has at least `columns` columns and `rows` rows.
pub fn most_rows(columns: u32, rows: u32, plates: u32, budget: &Budget) -> u32
    requires some_columns { 1 ≤ columns }
    requires few_columns { columns ≤ 2816 }
    requires few_rows { rows ≤ most_side }
    requires some_plates { 1 ≤ plates }
    requires few_plates { plates ≤ most_plates }
    requires few_samples { columns * rows * plates ≤ most_samples }
    ensures workspace { rows ≤ result }
    ensures low { result ≤ most_side }
    ensures few_samples { columns * result * plates ≤ most_samples }
    ensures budget { result ≤ max rows budget.now.rows }
{
    let fit = MOST_SAMPLES / (u64::from(columns) * u64::from(plates));
    u64::from(budget.rows.min(MOST_SIDE))
        .min(fit)
        .max(u64::from(rows)) as u32
}

/// The most columns of a window with `rows` rows.
pub fn most_columns(workspace: u32, rows: u32, plates: u32, budget: &Budget) -> u32
    requires some_workspace { 1 ≤ workspace }
    requires small_workspace { workspace ≤ 2816 }
    requires some_rows { 1 ≤ rows }
    requires few_rows { rows ≤ most_side }
    requires some_plates { 1 ≤ plates }
    requires few_plates { plates ≤ most_plates }
    requires few_samples { workspace * rows * plates ≤ most_samples }
    ensures workspace { workspace ≤ result }
    ensures narrow { result ≤ most_side }
    ensures few_samples { result * rows * plates ≤ most_samples }
    ensures budget { (result ≡ workspace) ⊎ (result * rows * plates ≤ budget.now.samples) }
{
    let fit = budget.samples.min(MOST_SAMPLES) / (u64::from(rows) * u64::from(plates));
    u64::from(MOST_SIDE).min(fit).max(u64::from(workspace)) as u32
}
