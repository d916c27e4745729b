// The check of a raster before it is read or written. Products of counts and strides want 96 bits.

ghost use Rattle.std.specs.Prelude.{◌≡◌, ◌≤◌, ◌<◌, ◌+◌, ◌*◌, ◌-◌, ◌^◌, IfNone, IsTrue, ◌⊎◌, nat_le};
ghost use Rattle.raster_samples.specs.Strides.{backward as backward_of, forward as forward_of, step as step_of};
ghost use Rattle.raster_samples.specs.Places.{AreApart};
ghost use Rattle.raster_samples.specs.Checks.{IsRaster, are_apart as apart_spec, are_inside as inside_spec, are_nested as nested_spec, clears as clears_spec, is_maxval as maxval_spec, is_size as size_spec, may_be as may_be_spec, raster_fault as fault_of, reach as reach_of};

use crate::raster::{Access, Axis, Raster, RasterFault};

/// The first fault of a raster in a memory of so many bytes, in the order of `RasterFault`. Samples that are only read
/// may overlap.
pub fn raster_fault(access: Access, raster: &Raster, total: usize) -> Option<RasterFault>
    ensures fault { result ≡ fault_of access raster.now total }
    ensures raster { IfNone result (IsRaster raster.now total) }
    ensures apart { IfNone result (access ≡ Access.Write → AreApart raster.now) }
{
    if !is_size(raster.sample_size) {
        return Some(RasterFault::SampleSize);
    }
    if !is_maxval(raster.sample_size, raster.maxval) {
        return Some(RasterFault::Maxval);
    }
    if !may_be(access, raster) {
        return Some(RasterFault::Strides);
    }
    if !are_inside(raster, total) {
        return Some(RasterFault::Extent);
    }
    None
}

fn is_size(size: u32) -> bool
    ensures { result ≡ size_spec size }
{
    size == 1 || size == 2
}

fn is_maxval(size: u32, maxval: u32) -> bool
    ensures { result ≡ maxval_spec size maxval }
{
    1 <= maxval && maxval <= if size == 1 { 255 } else { 65_535 }
}

fn may_be(access: Access, raster: &Raster) -> bool
    ensures { result ≡ may_be_spec access raster.now }
{
    match access {
        Access::Read => true,
        Access::Write => are_apart(raster),
    }
}

fn are_apart(raster: &Raster) -> bool
    ensures { result ≡ apart_spec raster.now }
{
    let size = raster.sample_size;
    let Raster {
        pixels,
        rows,
        planes,
        ..
    } = *raster;
    are_nested(size, pixels, rows, planes)
        || are_nested(size, pixels, planes, rows)
        || are_nested(size, planes, pixels, rows)
        || are_nested(size, planes, rows, pixels)
        || are_nested(size, rows, pixels, planes)
        || are_nested(size, rows, planes, pixels)
}

// Whether each step is at least the span of the axes before it.
fn are_nested(size: u32, a: Axis, b: Axis, c: Axis) -> bool
    ensures { result ≡ nested_spec size a b c }
{
    let one = size as u128 + reach(a);
    clears(a, size as u128) && clears(b, one) && clears(c, one + reach(b))
}

fn clears(axis: Axis, span: u128) -> bool
    ensures { result ≡ clears_spec axis span }
{
    axis.count <= 1 || span <= axis.stride.unsigned_abs() as u128
}

// From the first sample of an axis to its last.
fn reach(axis: Axis) -> u128
    ensures value { result ≡ reach_of axis }
    ensures bound { result < 2 ^ 95 }
{
    axis.count.saturating_sub(1) as u128 * axis.stride.unsigned_abs() as u128
}

// Whether the farthest samples forward and back of the origin lie in the memory.
fn are_inside(raster: &Raster, total: usize) -> bool
    ensures { result ≡ inside_spec raster.now total }
{
    let Raster {
        pixels,
        rows,
        planes,
        ..
    } = *raster;
    let ahead = last_ahead(planes) + (last_ahead(rows) + last_ahead(pixels));
    let behind = last_behind(planes) + (last_behind(rows) + last_behind(pixels));
    behind <= raster.origin as u128
        && raster.origin as u128 + ahead + raster.sample_size as u128 <= total as u128
}

// How far the last sample of an axis is ahead of the first.
fn last_ahead(axis: Axis) -> u128
    ensures value { result ≡ (axis.count - 1) * forward_of axis.stride }
    ensures bound { result < 2 ^ 95 }
{
    axis.count.saturating_sub(1) as u128 * forward(axis.stride) as u128
}

// How far it is behind the first.
fn last_behind(axis: Axis) -> u128
    ensures value { result ≡ (axis.count - 1) * backward_of axis.stride }
    ensures bound { result < 2 ^ 95 }
{
    axis.count.saturating_sub(1) as u128 * backward(axis.stride) as u128
}

/// The bytes that a step leads forward.
pub(crate) fn forward(stride: i64) -> u64
    ensures value { result ≡ forward_of stride }
    ensures bound { result < 2 ^ 63 }
{
    if stride < 0 { 0 } else { stride as u64 }
}

/// The bytes that a step leads back.
pub(crate) fn backward(stride: i64) -> u64
    ensures value { result ≡ backward_of stride }
    ensures bound { result ≤ 2 ^ 63 }
{
    if stride < 0 { stride.unsigned_abs() } else { 0 }
}
