ghost use Rattle.std.specs.Prelude.{◌≡◌, ◌+◌, ◌-◌, ◌*◌, ◌/◌, ◌^◌, ◌<◌, ◌≤◌, nat_le, if◌then◌else◌};
ghost use Rattle.lists.specs.Words.{square};
ghost use Rattle.page_model.specs.Limits.{half_sample, most_black_width, most_resolution, most_trap_width, scale};

use page_model::bounds::{HALF_SAMPLE, SCALE};

// 1 in ten-thousandths, as wide as the products are.
const ONE: u64 = SCALE as u64;

const WIDE_ONE: u128 = SCALE as u128;

/// The scaled tint that a trapped sample gets, from its full tint, the density of its tints (`here`) and that of its
/// full tints (`there`).
pub fn scaled_tint(full: u16, here: u64, there: u64, scaling: u32) -> u16
    requires some { 0 < there }
    requires less { here ≤ there }
    requires bound { there < 2 ^ 40 }
    requires scaling { scaling ≤ scale }
    ensures { result ≡ (full * (here * scale + scaling * (there - here))) / (there * scale) }
{
    if there < 1 << 34 {
        let light = here * ONE + u64::from(scaling) * (there - here);
        let value = u64::from(full) * light / (there * ONE);
        return value as u16;
    }
    let light = u128::from(here) * WIDE_ONE + u128::from(scaling) * u128::from(there - here);
    let value = u128::from(full) * light / (u128::from(there) * WIDE_ONE);
    value as u16
}

/// Whether a squared distance in half-samples is at most the squared width of a trap: the trap width times the factor,
/// half of it where slid. The comparison is exact: the width is not cut to whole half-samples.
pub fn is_near(d2: u32, slid: bool, width: u32, factor: u32, resolution: u32) -> bool
    requires width { width ≤ most_trap_width }
    requires factor { factor ≤ most_black_width }
    requires resolution { resolution ≤ most_resolution }
    ensures { result
        ≡ nat_le (d2 * square (half_sample * (if slid then 2 else 1)))
        (square (width * factor * resolution)) }
{
    let unit = if slid { 2 * HALF_SAMPLE } else { HALF_SAMPLE };
    let reach = u64::from(width) * u64::from(factor) * u64::from(resolution);
    let unit = u128::from(unit);
    u128::from(d2) * (unit * unit) <= u128::from(reach) * u128::from(reach)
}
