// The meaning of the table's rule: each function does nothing, and its contract is the law.

ghost use Rattle.std.specs.Prelude.{Bool};
ghost use Rattle.band_claims.specs.declared.table_key.TableKey.{TableKey};
ghost use Rattle.band_claims.specs.declared.view.View.{View};
ghost use Rattle.band_claims.specs.Laws.{DoneStaysDone, EndsAreRuns, StoredOnce, KeepsRule, LooksArePast, LooksAreReported, LooksRise, PublishedOnce, StepsAreRun};
ghost use Rattle.band_claims.specs.Rule.{RuleOf};
ghost use Rattle.band_claims.specs.Refuted.{LooksAreHonest, MayForge};
ghost use Rattle.band_claims.specs.TableKeys.{IsFit, cell, shape_of};
ghost use Rattle.atomic_table.specs.Table.{State};
ghost use Rattle.band_core.specs.Runs.{Sound};
ghost use Rattle.band_core.specs.TableWords.{board_of};

/// A claimed piece is held by exactly one view, and no other piece is held.
pub fn stored_once_law()
    ensures { StoredOnce }
{}

/// No list of published pieces has a piece twice, and no piece is in the lists of two views.
pub fn published_once_law()
    ensures { PublishedOnce }
{}

/// Every kind of step keeps the rule, whoever makes it.
pub fn each_kind_keeps_the_rule_law()
    ensures { (key : TableKey) → IsFit key → KeepsRule key }
{}

/// The words of a table that keeps the rule are those of a board that is sound for its page.
pub fn sound_table_law()
    ensures { (key : TableKey) (s : State (Unit {0}) View) → RuleOf key s
        → Sound (shape_of key) (cell key) (board_of (shape_of key) s.words) }
{}

/// Whatever steps are made on a table by whichever seats, in any order: the rule holds after them, their events are a
/// run of the page on the board, and the words are the board that this run leads to.
pub fn steps_are_a_run_law()
    ensures { (key : TableKey) → IsFit key → StepsAreRun key }
{}

/// The words of a closed table are the board that a run of the page leads to.
pub fn ends_are_runs_law()
    ensures { (key : TableKey) → IsFit key → EndsAreRuns key }
{}

/// No look in a seat's view found a greater word than the piece has now. So a piece that was found not free is not
/// free.
pub fn looks_are_past_law()
    ensures { (key : TableKey) → IsFit key → LooksArePast key }
{}

/// The looks in a seat's view are the last ones of all that it was told.
pub fn looks_are_reported_law()
    ensures { (key : TableKey) → IsFit key → LooksAreReported key }
{}

/// Of two looks at one piece in a seat's view, the later one found no lesser word.
pub fn looks_rise_law()
    ensures { (key : TableKey) → IsFit key → LooksRise key }
{}

/// If the rule allows passes that hold nothing, or readers, steps that tell of some word in place of the one that was
/// found, then each of the words 0, 1 and 2 is told of as it is: no claimed piece as free, and no done one as claimed.
pub fn looks_are_honest_law()
    ensures { (key : TableKey) → IsFit key → LooksAreHonest key }
{}

/// The rule allows neither passes that hold nothing nor readers a step by which they would be told that a piece is
/// claimed without regard to the piece's word.
pub fn no_false_claims_law()
    ensures { (key : TableKey) → IsFit key → (works : Bool) → MayForge key works 1 → ⊥ }
{}

/// The rule allows neither passes that hold nothing nor readers a step by which they would be told that a piece is free
/// without regard to the piece's word.
pub fn no_false_looks_law()
    ensures { (key : TableKey) → IsFit key → (works : Bool) → MayForge key works 0 → ⊥ }
{}

/// A piece that the last pass of a closed table published or saw done was never told to it as not done afterwards.
pub fn done_stays_done_law()
    ensures { (key : TableKey) → IsFit key → DoneStaysDone key }
{}
