// The rows that a strip has in common with the next one, copied to the beginning of that one's planes.

ghost use Rattle.std.specs.Prelude.{◌≡◌, ◌+◌, ◌<◌, ◌≤◌, ℕ, drop, length, take};
ghost use Rattle.page_model.specs.Planes.{plane_at};
ghost use Rattle.sheet_stream.specs.Holding.{AreAlike, AreCopied, HasForm, IsCopied};

use lists::list::List;
use page_model::parts::{Plane, PlaneList};
use std::alloc::Global;

/// Copies `kept` tints of each plane, after its first `by`, to the beginning of the same plane of the next strip; the
/// tints after them are still to be read. It allocates nothing: the allocator is that of lists that stay empty.
pub fn copy_planes(alloc: Global, planes: &PlaneList, by: usize, kept: usize, next: &mut PlaneList)
    requires alike { AreAlike planes.now next.old }
    requires fits { (c : ℕ) → c < length planes.now → by + kept ≤ length (plane_at planes.now c).tints }
    ensures { AreCopied by kept planes.now next.new }
{
    let from = planes.as_slice();
    for c in 0..from.len() {
        copy_plane(alloc, &from[c], by, kept, next.item_mut(c));
    }
}

// Does the same for one plane.
fn copy_plane(alloc: Global, plane: &Plane, by: usize, kept: usize, next: &mut Plane)
    requires alike { HasForm plane.now next.old }
    requires fits { by + kept ≤ length plane.now.tints }
    ensures { IsCopied by kept plane.now next.new }
{
    let mut tints = std::mem::replace(&mut next.tints, List::new(alloc)).into_vec();
    copy_to_start(plane.tints.as_slice(), by, kept, tints.as_mut_slice());
    next.tints = List::from_vec(tints);
}

// Copies `kept` tints, after the first `by`, to the beginning of other tints.
fn copy_to_start(from: &[u16], by: usize, kept: usize, tints: &mut [u16])
    requires inside { by + kept ≤ length from.now }
    requires workspace { kept ≤ length tints.old }
    ensures full { length tints.new ≡ length tints.old }
    ensures first { take kept tints.new ≡ take kept (drop by from.now) }
{
    tints[..kept].copy_from_slice(&from[by..by + kept]);
}
