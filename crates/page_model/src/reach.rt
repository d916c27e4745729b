ghost use Rattle.std.specs.Prelude.{◌≡◌, ◌≤◌, ◌<◌, length};
ghost use Rattle.page_model.specs.Conditions.{IsParts};
ghost use Rattle.page_model.specs.Parameters.{InRange};
ghost use Rattle.page_model.specs.Limits.{most_resolution};
ghost use Rattle.page_model.specs.Reach.{params_reach, zone_reach};

use crate::bounds::{HALF_SAMPLE, SCALE};
use crate::parts::{PageParts, TrapParams};

/// The reach of an enabled zone in half-samples: how far its traps can be from an edge.
pub fn reach_of(params: &TrapParams, resolution: u32) -> u32
    requires params { InRange params.now }
    requires resolution { resolution ≤ most_resolution }
    ensures { result ≡ params_reach resolution params.now }
{
    let factor = params.black_width.max(SCALE);
    let width = u64::from(params.trap_width) * u64::from(factor) * u64::from(resolution);
    (width / HALF_SAMPLE) as u32
}

/// The reach of a zone in half-samples, 0 where it is disabled.
pub(crate) fn reach_at(parts: &PageParts, z: u32) -> u32
    requires parts { IsParts parts.now }
    requires zone { z < length parts.now.zones }
    ensures { result ≡ zone_reach parts.now z }
{
    let zones = parts.zones.as_slice();
    let params = &zones[z as usize].params;
    if params.enabled {
        reach_of(params, parts.resolution)
    } else {
        0
    }
}
