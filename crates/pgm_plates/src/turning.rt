ghost use Rattle.std.specs.Prelude.{◌≡◌, ◌*◌, ◌-◌, ◌≤◌, map};
ghost use Rattle.std.specs.List.{All};
ghost use Rattle.page_model.specs.Conditions.{IsPlane};
ghost use Rattle.page_model.specs.Limits.{most_samples, most_maxval};
ghost use Rattle.pgm_plates.specs.Plates.{IsPlate};
ghost use Rattle.pgm_plates.specs.Planes.{plane_of, plate_of};

use crate::plate::Plate;
use lists::list::List;
use page_model::parts::{Plane, Tints};

impl Plate {
    /// Turns the samples into tints, in place: `maxval - sample`, so that 0 is no ink.
    pub fn into_plane(self) -> Plane
        requires { IsPlate self }
        ensures tints { result ≡ plane_of self }
        ensures in_range { IsPlane result }
        ensures few { result.width * result.height ≤ most_samples }
    {
        self.into_tints()
    }

    /// Turns the tints of a plane into samples, in place.
    pub fn of_plane(plane: Plane) -> Plate
        requires in_range { IsPlane plane }
        requires few { plane.width * plane.height ≤ most_samples }
        ensures samples { result ≡ plate_of plane }
        ensures in_range { IsPlate result }
    {
        Plate::of_tints(plane)
    }

    fn into_tints(self) -> Plane
        requires fits { self.maxval ≤ most_maxval }
        requires below { All (λ s. s ≤ self.maxval) self.samples }
        ensures { result ≡ plane_of self }
    {
        Plane {
            width: self.width,
            height: self.height,
            maxval: self.maxval,
            tints: turn_values(self.samples, self.maxval),
        }
    }

    fn of_tints(plane: Plane) -> Plate
        requires fits { plane.maxval ≤ most_maxval }
        requires below { All (λ t. t ≤ plane.maxval) plane.tints }
        ensures { result ≡ plate_of plane }
    {
        Plate {
            width: plane.width,
            height: plane.height,
            maxval: plane.maxval,
            samples: turn_values(plane.tints, plane.maxval),
        }
    }
}

fn turn_values(values: Tints, most: u32) -> Tints
    requires fits { most ≤ most_maxval }
    requires below { All (λ v. v ≤ most) values }
    ensures { result ≡ map (λ v. most - v) values }
{
    let mut values = values.into_vec();
    turn(values.as_mut_slice(), most);
    List::from_vec(values)
}

/// Turns samples into tints, or tints into samples, in place: each value becomes `maxval` less the value.
pub fn turn(values: &mut [u16], maxval: u32)
    requires fits { maxval ≤ most_maxval }
    requires below { All (λ v. v ≤ maxval) values.old }
    ensures { values.new ≡ map (λ v. maxval - v) values.old }
{
    let most = maxval as u16;
    for at in 0..values.len() {
        values[at] = most - values[at];
    }
}
