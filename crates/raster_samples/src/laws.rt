// Laws over the definitions: each function does nothing, and its contract is the law.

ghost use Rattle.std.specs.Prelude.{◌≡◌, ◌≤◌, ◌-◌, true};
ghost use Rattle.raster_samples.specs.Places.{AreApart, AreInside, behind};
ghost use Rattle.raster_samples.specs.Checks.{IsRaster, are_apart};

use crate::raster::Raster;

/// Every sample of a raster without a fault lies in the memory.
pub fn inside_law(raster: &Raster, total: usize)
    requires { IsRaster raster.now total }
    ensures { AreInside raster.now total }
{
    let _raster = raster;
    let _total = total;
}

/// If the axes are nested in some order, no two samples overlap.
pub fn apart_law(raster: &Raster)
    requires { behind raster.now (raster.now.planes.count - 1) (raster.now.rows.count - 1)
        (raster.now.pixels.count - 1) ≤ raster.now.origin }
    ensures { are_apart raster.now ≡ true → AreApart raster.now }
{
    let _raster = raster;
}
