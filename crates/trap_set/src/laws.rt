// Laws over the definitions: each function does nothing, and its contract is the law.

ghost use Rattle.std.specs.Prelude.{◌≡◌, ℕ, [], List, All, true};
ghost use Rattle.trap_set.specs.Applied.{applied};
ghost use Rattle.trap_set.specs.Runs.{Run, ArePair, changes, covers, trap_runs};
ghost use Rattle.trap_set.specs.SetText.{IsSet, IsSetFile, SetHead, head_of};

use page_model::parts::PlaneList;

/// The set of the changes between two lists of planes, applied to the old planes, gives the new ones.
pub fn round_law(old: &PlaneList, new: &PlaneList)
    requires { ArePair old.now new.now }
    ensures { applied (trap_runs old.now new.now) old.now ≡ new.now }
{
    let _old = old;
    let _new = new;
}

/// The runs of two lists of planes of one shape are a set, whose text is a set file, and each sample that a run covers
/// changes in some plate.
pub fn set_law(old: &PlaneList, new: &PlaneList)
    requires { ArePair old.now new.now }
    ensures set { IsSet (head_of old.now) (trap_runs old.now new.now) }
    ensures covers { All (λ run. (x y : ℕ) → covers run x y ≡ true → changes old.now new.now x y
        ≡ true)
        (trap_runs old.now new.now) }
{
    let _old = old;
    let _new = new;
}

/// Planes that did not change have no runs.
pub fn same_law(planes: &PlaneList)
    ensures { trap_runs planes.now planes.now ≡ [] }
{
    let _planes = planes;
}

/// Applying a set twice gives the same as applying it once.
pub fn twice_law(planes: &PlaneList)
    ensures { (runs : List Run) → applied runs (applied runs planes.now) ≡ applied runs planes.now }
{
    let _planes = planes;
}

/// A text has at most one set.
pub fn one_set_law(text: &[u8])
    ensures { (a b : SetHead) (runs others : List Run) → IsSetFile text.now a runs
        → IsSetFile text.now b others → (a ≡ b) × (runs ≡ others) }
{
    let _text = text;
}
