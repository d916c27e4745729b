// Looks at the marks of one doubled column, each counted as a step.

ghost use Rattle.std.specs.Prelude.{◌≡◌, ◌≤◌, ◌<◌, ◌+◌, ◌*◌, ◌-◌};
ghost use Rattle.page_model.specs.Marks.{stored_rows};
ghost use Rattle.column_scan.specs.Sweep.{passes, or_keep, last_below, first_before, first_from, row_above, row_below};

use page_model::marks::Marks;
use page_model::steps::Steps;
use std::sync::ledger::Ledger;

/// Whether the edge of the column in row r of the marks decides.
#[tactic(auto, unfolding(crate::specs::Sweep::passes))]
pub(crate) fn decides<L: Ledger>(marks: &Marks, x2: u32, r: u32, steps: &mut Steps<L>) -> bool
    requires column { x2 + 2 ≤ 2 * marks.now.wide }
    requires row { r < stored_rows marks.now }
    ensures decides { result ≡ passes marks.now x2 r }
    ensures step { steps.new ≡ steps.old + 1 }
{
    let _top = marks.rows();
    let row = marks.first_row() + r;
    marks.deciding(x2, 2 * row + 1 - x2 % 2, steps)
}

/// Row r of the marks if its edge in the column decides, else `kept`.
#[tactic(auto, unfolding(crate::specs::Sweep::passes))]
fn row_or_keep<L: Ledger>(
    marks: &Marks,
    x2: u32,
    r: u32,
    keep: Option<u32>,
    steps: &mut Steps<L>,
) -> Option<u32>
    requires column { x2 + 2 ≤ 2 * marks.now.wide }
    requires row { r < stored_rows marks.now }
    ensures seen { result ≡ or_keep (passes marks.now x2 r) r keep }
    ensures step { steps.new ≡ steps.old + 1 }
{
    let _top = marks.rows();
    let row = marks.first_row() + r;
    if marks.deciding(x2, 2 * row + 1 - x2 % 2, steps) {
        Some(r)
    } else {
        keep
    }
}

/// The last row before `first` whose edge in the column decides.
pub(crate) fn last_before<L: Ledger>(
    marks: &Marks,
    x2: u32,
    first: u32,
    steps: &mut Steps<L>,
) -> Option<u32>
    requires column { x2 + 2 ≤ 2 * marks.now.wide }
    requires first { first ≤ stored_rows marks.now }
    ensures last { result ≡ last_below (passes marks.now x2) first }
    ensures steps { steps.new ≡ steps.old + first }
{
    let mut last = None;
    for r in 0..first {
        last = row_or_keep(marks, x2, r, last, steps);
    }
    last
}

/// The first row from `end` on whose edge in the column decides.
pub(crate) fn first_after<L: Ledger>(
    marks: &Marks,
    x2: u32,
    end: u32,
    steps: &mut Steps<L>,
) -> Option<u32>
    requires column { x2 + 2 ≤ 2 * marks.now.wide }
    requires end { end ≤ stored_rows marks.now }
    ensures next { result
        ≡ first_before (passes marks.now x2) (stored_rows marks.now) (stored_rows marks.now - end) }
    ensures steps { steps.new + end ≡ steps.old + stored_rows marks.now }
{
    let mut next = None;
    let stored = marks.rows();
    for k in 0..stored - end {
        next = row_or_keep(marks, x2, stored - (k + 1), next, steps);
    }
    next
}

/// What a row shows of a column, and the state that the next row starts from.
#[derive(Clone, Copy, Drop)]
pub(crate) struct Passed {
    pub(crate) shown: Option<u32>,
    pub(crate) kept: Option<u32>,
}

/// Moves down past row r.
pub(crate) fn pass_down<L: Ledger>(
    marks: &Marks,
    x2: u32,
    r: u32,
    last: Option<u32>,
    steps: &mut Steps<L>,
) -> Passed
    requires column { x2 + 2 ≤ 2 * marks.now.wide }
    requires row { r < stored_rows marks.now }
    requires last { last ≡ last_below (passes marks.now x2) r }
    ensures shown { result.shown ≡ row_above marks.now x2 r }
    ensures kept { result.kept ≡ last_below (passes marks.now x2) (r + 1) }
    ensures step { steps.new ≡ steps.old + 1 }
{
    let kept = row_or_keep(marks, x2, r, last, steps);
    if x2 % 2 == 1 {
        Passed { shown: kept, kept }
    } else {
        Passed { shown: last, kept }
    }
}

/// Moves up past row r.
pub(crate) fn pass_up<L: Ledger>(
    marks: &Marks,
    x2: u32,
    r: u32,
    next: Option<u32>,
    steps: &mut Steps<L>,
) -> Passed
    requires column { x2 + 2 ≤ 2 * marks.now.wide }
    requires row { r < stored_rows marks.now }
    requires next { next ≡ first_from marks.now x2 (r + 1) }
    ensures shown { result.shown ≡ row_below marks.now x2 r }
    ensures kept { result.kept ≡ first_from marks.now x2 r }
    ensures step { steps.new ≡ steps.old + 1 }
{
    let kept = row_or_keep(marks, x2, r, next, steps);
    if x2 % 2 == 1 {
        Passed { shown: next, kept }
    } else {
        Passed { shown: kept, kept }
    }
}
