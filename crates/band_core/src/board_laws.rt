// Laws over the definitions: each function does nothing, and its contract is the law.

ghost use Rattle.std.specs.Prelude.{◌≡◌, ◌+◌, ◌<◌, ℕ, true, List, length, replicate};
ghost use Rattle.band_core.specs.declared.event.Event.{Event};
ghost use Rattle.band_core.specs.Boards.{Board, InRange, allowed, changed, opening};
ghost use Rattle.band_core.specs.Runs.{ByDefinition, Halo, KeepsSound, RunLaw, Sound};
ghost use Rattle.band_core.specs.TableShapes.{Shape, IsShape};
ghost use Rattle.band_core.specs.Stuck.{NeverStuck};
ghost use Rattle.band_core.specs.TableWords.{AreWords, board_of, rewritten};

/// A board that is sound stays sound with each event that may happen, if each cell is filled with its defined value.
/// This holds for all definitions of the cells.
pub fn keeps_sound_law()
    ensures { (k : Shape) → IsShape k → (defined : ℕ → ℕ) → KeepsSound k defined }
{}

/// If the recipe gives the defined value of each cell whose piece has its needs done, then over every run each board is
/// sound, no cell changes once it is filled, and no piece is claimed twice or done twice.
pub fn run_law()
    ensures { (k : Shape) → IsShape k → (defined : ℕ → ℕ) (recipe : Board → ℕ → ℕ)
        → Halo k defined recipe → RunLaw k defined recipe }
{}

/// If no piece is claimed and some piece is not done, then some free piece has all its needs done: work can always go
/// on.
pub fn never_stuck_law()
    ensures { (k : Shape) → IsShape k → NeverStuck k }
{}

/// The words of a table that are all 0 are the opening board.
pub fn opening_words_law()
    ensures { (k : Shape) → board_of k (replicate (k.pieces + k.cells) 0) ≡ opening k }
{}

/// An event changes exactly one word: the words with that change are the board after the event.
pub fn one_word_law()
    ensures { (k : Shape) (words : List ℕ) (event : Event)
        → length words ≡ k.pieces + k.cells → InRange k event
        → board_of k (rewritten k words event) ≡ changed (board_of k words) event }
{}

/// If a change of a word is an event that may happen, and a cell is filled with its defined value, the words stay those
/// of a sound board.
pub fn sound_words_law()
    ensures words { (k : Shape) (words : List ℕ) (event : Event)
        → AreWords k words → InRange k event → AreWords k (rewritten k words event) }
    ensures sound { (k : Shape) → IsShape k → (defined : ℕ → ℕ) (words : List ℕ) (event : Event)
        → AreWords k words → InRange k event → ByDefinition defined event
        → allowed k (board_of k words) event ≡ true → Sound k defined (board_of k words)
        → Sound k defined (board_of k (rewritten k words event)) }
{}
