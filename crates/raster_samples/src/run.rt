ghost use Rattle.std.specs.Prelude.{◌≡◌, ◌≤◌, ◌<◌, ◌+◌, ◌^◌};
ghost use Rattle.raster_samples.specs.Strides.{backward as backward_of, forward as forward_of};
ghost use Rattle.raster_samples.specs.Places.{ahead as ahead_of, behind as behind_of, begins};

use crate::check::{backward, forward};
use crate::raster::Raster;

/// Samples of a row: where the first begins, and how far each step leads forward and back.
#[derive(Clone, Copy, Drop)]
pub(crate) struct Run {
    pub from: usize,
    pub forward: usize,
    pub back: usize,
}

/// The samples of a row from column x on.
pub(crate) fn run_from(raster: &Raster, c: u32, y: u32, x: u32) -> Run
    requires room { raster.now.origin + ahead_of raster.now c y x < 2 ^ 64 }
    requires low { behind_of raster.now c y x ≤ raster.now.origin }
    ensures from { result.from ≡ begins raster.now c y x }
    ensures forward { result.forward ≡ forward_of raster.now.pixels.stride }
    ensures back { result.back ≡ backward_of raster.now.pixels.stride }
{
    let ahead = c as u64 * forward(raster.planes.stride)
        + (y as u64 * forward(raster.rows.stride) + x as u64 * forward(raster.pixels.stride));
    let behind = c as u64 * backward(raster.planes.stride)
        + (y as u64 * backward(raster.rows.stride) + x as u64 * backward(raster.pixels.stride));
    Run {
        from: (raster.origin + ahead - behind) as usize,
        forward: forward(raster.pixels.stride) as usize,
        back: backward(raster.pixels.stride) as usize,
    }
}
