ghost use Rattle.std.specs.Prelude.{◌<◌, length};
ghost use Rattle.page_model.specs.Planes.{PutTint, tints_of};

use crate::parts::PlaneList;

/// Replaces the tint at a place of plane `c`. All other tints stay.
pub fn set_tint(planes: &mut PlaneList, c: usize, place: usize, tint: u16)
    requires plane { c < length planes.old }
    requires place { place < length (tints_of planes.old c) }
    ensures { PutTint planes.old planes.new c place tint }
{
    let plane = planes.item_mut(c);
    let _old = plane.tints.set(place, tint);
}
