// The arms of a row, from its column answers.

ghost use Rattle.std.specs.Prelude.{◌≡◌, ◌≤◌, ◌<◌, ◌+◌, ◌*◌, ◌-◌, ℕ, length, slice_index};
ghost use Rattle.std.specs.Option.{MatchOption};
ghost use Rattle.row_values.specs.Arms.{arm_of, AreArms, edge_at_place};
ghost use Rattle.page_model.specs.Limits.{level_code, most_column, most_reach, most_side};

use column_scan::are_zero;
use page_model::arms::Arm;
use page_model::bounds::LEVEL_CODE;
use page_model::parts::EdgeAt;

/// The number of columns that are skipped together, at most.
const SPAN: usize = 32;

fn arm_at(x2: u32, code: u16) -> Arm
    requires column { x2 ≤ most_column }
    requires some { 1 ≤ code }
    requires fits { code ≤ 2 * most_reach + 1 }
    ensures { result ≡ arm_of x2 code }
{
    Arm::new(x2, i32::from(code) - LEVEL_CODE as i32)
}

/// Adds the arm of one column if it has a code, and returns the new number of arms.
fn add(codes: &[u16], x2: usize, arms: &mut [Arm], columns: &mut [u32], count: usize) -> usize
    requires column { x2 < length codes.now }
    requires few { length codes.now ≤ most_column + 1 }
    requires fits { (k : ℕ) → k < length codes.now → slice_index codes.now k ≤ 2 * most_reach + 1 }
    requires arms { length codes.now ≤ length arms.old }
    requires columns { length codes.now ≤ length columns.old }
    requires so_far { AreArms codes.now x2 arms.old columns.old count }
    ensures arms { length arms.new ≡ length arms.old }
    ensures columns { length columns.new ≡ length columns.old }
    ensures so_far { AreArms codes.now (x2 + 1) arms.new columns.new result }
{
    let code = codes[x2];
    if code == 0 {
        return count;
    }
    arms[count] = arm_at(x2 as u32, code);
    columns[count] = x2 as u32;
    count + 1
}

/// Adds the arms of `count` columns from x2 on, and returns the new number of arms. Where none of them has a code, all
/// are skipped.
fn add_some(
    codes: &[u16],
    x2: usize,
    count: usize,
    arms: &mut [Arm],
    columns: &mut [u32],
    before: usize,
) -> usize
    requires inside { x2 + count ≤ length codes.now }
    requires few { length codes.now ≤ most_column + 1 }
    requires fits { (k : ℕ) → k < length codes.now → slice_index codes.now k ≤ 2 * most_reach + 1 }
    requires arms { length codes.now ≤ length arms.old }
    requires columns { length codes.now ≤ length columns.old }
    requires so_far { AreArms codes.now x2 arms.old columns.old before }
    ensures arms { length arms.new ≡ length arms.old }
    ensures columns { length columns.new ≡ length columns.old }
    ensures so_far { AreArms codes.now (x2 + count) arms.new columns.new result }
{
    if are_zero(codes, x2, x2 + count) {
        return before;
    }
    let mut raised = before;
    for k in x2..x2 + count {
        raised = add(codes, k, arms, columns, raised);
    }
    raised
}

/// Writes the arms of the columns that have a code, with these columns, from the left, and returns their number.
pub fn raise_arms(codes: &[u16], arms: &mut [Arm], columns: &mut [u32]) -> usize
    requires few { length codes.now ≤ most_column + 1 }
    requires fits { (k : ℕ) → k < length codes.now → slice_index codes.now k ≤ 2 * most_reach + 1 }
    requires arms { length codes.now ≤ length arms.old }
    requires columns { length codes.now ≤ length columns.old }
    ensures arms { length arms.new ≡ length arms.old }
    ensures columns { length columns.new ≡ length columns.old }
    ensures whole { AreArms codes.now (length codes.now) arms.new columns.new result }
{
    let mut raised = 0;
    let mut x2 = 0;
    while x2 < codes.len() {
        let count = (codes.len() - x2).min(SPAN);
        raised = add_some(codes, x2, count, arms, columns, raised);
        x2 += count;
    }
    raised
}

/// The edge of the arm at a place of `columns`, in row y; `None` for no place.
pub fn edge_at(codes: &[u16], y: u32, columns: &[u32], place: Option<u32>) -> Option<EdgeAt>
    requires row { y ≤ most_side }
    requires place { MatchOption place (0 ≤ y)
        (λ k. (k < length columns.now) × (slice_index columns.now k < length codes.now)
        × (level_code ≤ slice_index codes.now (slice_index columns.now k) + 2 * y)) }
    ensures { result ≡ edge_at_place codes.now y columns.now place }
{
    match place {
        Some(k) => {
            let x2 = columns[k as usize];
            let code = codes[x2 as usize];
            Some(EdgeAt {
                x2,
                y2: u32::from(code) + 2 * y - LEVEL_CODE,
            })
        }
        None => None,
    }
}
