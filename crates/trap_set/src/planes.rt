// The samples of a run, in all planes.

ghost use Rattle.std.specs.Prelude.{◌≡◌, ◌+◌, ◌*◌, ◌^◌, ◌<◌, ◌≤◌, ◌∷◌, [], ℕ, length, slice_index, All};
ghost use Rattle.trap_set.specs.Applied.{applied, applied_plane};
ghost use Rattle.trap_set.specs.Applying.{Fits, IsFull};
ghost use Rattle.trap_set.specs.Reading.{head_in, run_in};
ghost use Rattle.trap_set.specs.SetText.{IsHead, IsRun};

use crate::lines::Head;
use lists::list::List;
use page_model::parts::{Plane, PlaneList};

/// Writes the tints of a run to the samples that it covers. `numbers` are those of its line.
pub(crate) fn put_run(planes: &mut PlaneList, head: Head, numbers: &[u32])
    requires head { IsHead (head_in head) }
    requires fits { Fits (head_in head) planes.old }
    requires full { All IsFull planes.old }
    requires many { length numbers.now ≡ head.plates + 3 }
    requires run { IsRun (head_in head) (run_in numbers.now) }
    ensures { planes.new ≡ applied (run_in numbers.now ∷ []) planes.old }
{
    for c in 0..planes.len() {
        put_on_plane(planes.item_mut(c), c, numbers);
    }
}

// Writes plate c's tint of a run to a plane.
fn put_on_plane(plane: &mut Plane, c: usize, numbers: &[u32])
    requires many { c + 3 < length numbers.now }
    requires full { IsFull plane.old }
    requires some { 0 < plane.old.width }
    requires row { slice_index numbers.now 0 < plane.old.height }
    requires in_row { slice_index numbers.now 1 + slice_index numbers.now 2 ≤ plane.old.width }
    requires tint { slice_index numbers.now (c + 3) < 65536 }
    requires small { plane.old.width * plane.old.height < 2 ^ 32 }
    ensures { plane.new ≡ applied_plane (run_in numbers.now ∷ []) c plane.old }
{
    let first = numbers[0] as usize * plane.width as usize + numbers[1] as usize;
    let tint = numbers[c + 3] as u16;
    put_tints(&mut plane.tints, first, first + numbers[2] as usize, tint);
}

// Writes a tint to the places `from..to`.
fn put_tints(tints: &mut List<u16>, from: usize, to: usize, tint: u16)
    requires order { from ≤ to }
    requires within { to ≤ length tints.old }
    ensures many { length tints.new ≡ length tints.old }
    ensures before { (k : ℕ) → k < from
        → slice_index tints.new k ≡ slice_index tints.old k }
    ensures here { (k : ℕ) → from ≤ k → k < to → slice_index tints.new k ≡ tint }
    ensures suffix { (k : ℕ) → to ≤ k → slice_index tints.new k ≡ slice_index tints.old k }
{
    for place in from..to {
        let _old = tints.set(place, tint);
    }
}
