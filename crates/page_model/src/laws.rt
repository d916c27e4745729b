// Laws over the definitions: each function does nothing, and its contract is the law.

ghost use Rattle.std.specs.Prelude.{◌≡◌, ◌*◌, ◌<◌, ◌≤◌, ℕ, List, true, IfSome, None};
ghost use Rattle.std.specs.List.{All};
ghost use Rattle.page_model.specs.declared.parts.Vertex.{Vertex};
ghost use Rattle.page_model.specs.Apart.{apart};
ghost use Rattle.page_model.specs.Conditions.{IsPlane};
ghost use Rattle.page_model.specs.Decider.{decider, IsDecider, NoneDecides};
ghost use Rattle.page_model.specs.Density.{density};
ghost use Rattle.page_model.specs.Faults.{page_fault};
ghost use Rattle.page_model.specs.Laws.{IsZoneOf, Keeps, KeepsUnlessWithin};
ghost use Rattle.page_model.specs.ReachLaw.{NoneWithin, ReachLaw, TrapsByColumns};
ghost use Rattle.page_model.specs.Limits.{most_samples};
ghost use Rattle.page_model.specs.Subpaths.{SubpathLaw, SubpathsLaw};
ghost use Rattle.page_model.specs.Tints.{full_density, trapped_planes};
ghost use Rattle.page_model.specs.Trapped.{trapped_in};
ghost use Rattle.page_model.specs.Zones.{centre, zone_of};

use crate::page::Page;
use crate::parts::{At, EdgeAt};

/// A page has no fault: parts with a fault are refused.
pub fn faultless_law(page: &Page)
    ensures { page_fault page.now ≡ None }
{
    let _valid = page.plates();
}

/// The zone of a sample is the last one whose path winds round it, and zone 0 where there is none.
pub fn zone_law(page: &Page, p: At)
    ensures { IsZoneOf page.now p (zone_of page.now p) }
{
    let _valid = page.plates();
}

/// The winding number of a closed subpath round a sample's middle is the sum over its segments, the one from its last
/// vertex back to its start among them; and that of several subpaths is the sum of theirs.
pub fn winding_law(page: &Page, p: At)
    ensures subpath { (start : Vertex) → (vs : List Vertex)
        → SubpathLaw page.now.resolution (centre page.now p) start vs }
    ensures subpaths { (earlier later : List Vertex)
        → SubpathsLaw page.now.resolution (centre page.now p) earlier later }
{
    let _valid = page.plates();
}

/// Whether two samples are apart does not depend on their order.
pub fn apart_law(page: &Page, zone: u32, p: At, q: At)
    ensures { apart page.now zone p q ≡ apart page.now zone q p }
{
    let _valid = page.plates();
}

/// The decider of a sample decides, and no deciding edge of the page is less in squared distance, column and row. There
/// is none exactly where no edge of the page decides.
pub fn decider_law(page: &Page, p: At)
    ensures found { IfSome (decider page.now p) (IsDecider page.now p) }
    ensures none { decider page.now p ≡ None → NoneDecides page.now }
{
    let _valid = page.plates();
}

/// A sample's full tints are at least as dense as its tints, and those of a trapped sample have a density above 0.
pub fn full_density_law(page: &Page, p: At, e: EdgeAt)
    ensures grows { density page.now p ≤ full_density page.now p e }
    ensures some { (z : ℕ) → trapped_in page.now z p e ≡ true
        → 0 < full_density page.now p e }
{
    let _valid = page.plates();
}

/// A sample without a decider, or whose decider is not within, keeps its tints.
pub fn locality_law(page: &Page, p: At)
    ensures decider { KeepsUnlessWithin page.now p }
    ensures edges { NoneWithin page.now p → Keeps page.now p }
{
    let _valid = page.plates();
}

/// If the decider's row offset is within the page's reach, the column answers of the sample's row give the decider. If
/// not, no deciding edge is within of the sample, provided that its zone is enabled.
pub fn reach_law(page: &Page, p: At)
    ensures { ReachLaw page.now p }
{
    let _valid = page.plates();
}

/// The planes of a page after trapping are in range: each new tint is at most the maxval, and no plane has more samples
/// than a page may have.
pub fn trapped_planes_law(page: &Page)
    ensures planes { All IsPlane (trapped_planes page.now) }
    ensures samples { All (λ plane. plane.width * plane.height ≤ most_samples)
        (trapped_planes page.now) }
{
    let _valid = page.plates();
}

/// Trapping the samples of a row with the edges that the row's column answers give is the same as with their deciders.
pub fn columns_trap_law(page: &Page, p: At)
    ensures { TrapsByColumns page.now p }
{
    let _valid = page.plates();
}
