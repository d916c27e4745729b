ghost use Rattle.std.specs.Prelude.{◌≡◌, ◌≤◌, ◌<◌, ◌*◌, ◌+◌, ℕ, IfNone, IsTrue, length, nat_le, nat_lt, slice_index};
ghost use Rattle.std.specs.List.{position};
ghost use Rattle.lists.specs.Words.{or_else};
ghost use Rattle.page_model.specs.Limits.{most_maxval, most_plates, most_side};
ghost use Rattle.trap_c.specs.Fit.{AreFit, ArePlanesFit, AreSides, IsCall, are_sides as sides_spec, is_side as side_spec, is_maxval as maxval_spec, call_fault as call_fault_of, above_at, first_above as first_above_in};

use crate::error::CallFault;
use crate::layout::Layout;
use crate::names::are_names;
use common_errors::common::CommonError;
use lists::names::Name;
use page_model::bounds::{MOST_SAMPLES, MOST_SIDE};
use page_model::parts::{Plane, PlaneList};
use pgm_plates::plate::PlateFault;

/// The first fault of a call's arguments. `most` is the greatest number that a sample's type holds, and `count` the
/// number of samples.
pub fn call_fault(most: u32, names: &[Name], layout: Layout, count: usize) -> Option<CallFault>
    requires { most ≤ most_maxval }
    ensures fault { result ≡ call_fault_of most names.now layout count }
    ensures call { IfNone result (IsCall names.now layout count) }
{
    if !are_names(names) {
        return Some(CallFault::Names);
    }
    if !are_sides(layout) {
        return Some(CallFault::Sides);
    }
    if !is_step(layout) {
        return Some(CallFault::Step);
    }
    if !is_maxval(most, layout.maxval) {
        return Some(CallFault::Maxval);
    }
    if count == names.len() * layout.height as usize * layout.step as usize {
        None
    } else {
        Some(CallFault::Samples)
    }
}

fn are_sides(layout: Layout) -> bool
    ensures value { result ≡ sides_spec layout }
    ensures sides { IsTrue result → AreSides layout }
{
    is_side(layout.width)
        && is_side(layout.height)
        && u64::from(layout.width) * u64::from(layout.height) <= MOST_SAMPLES
}

fn is_step(layout: Layout) -> bool
    ensures value { result ≡ nat_le layout.width layout.step }
    ensures apart { IsTrue result → layout.width ≤ layout.step }
{
    layout.width <= layout.step
}

fn is_side(side: u32) -> bool
    ensures value { result ≡ side_spec side }
    ensures some { IsTrue result → 1 ≤ side }
    ensures few { IsTrue result → side ≤ most_side }
{
    1 <= side && side <= MOST_SIDE
}

fn is_maxval(most: u32, maxval: u32) -> bool
    ensures value { result ≡ maxval_spec most maxval }
    ensures some { IsTrue result → 1 ≤ maxval }
    ensures few { IsTrue result → maxval ≤ most }
{
    1 <= maxval && maxval <= most
}

/// The first tint, over all planes, that is above the maxval, as an error. The planes are searched only if `are_fit`
/// is false.
pub fn first_above(planes: &PlaneList, are_fit: bool) -> Option<CommonError>
    requires few { length planes.now ≤ most_plates }
    requires fit { IsTrue are_fit → ArePlanesFit planes.now }
    ensures { result ≡ first_above_in planes.now }
{
    if are_fit { None } else { look_above(planes) }
}

fn look_above(planes: &PlaneList) -> Option<CommonError>
    requires { length planes.now ≤ most_plates }
    ensures { result ≡ first_above_in planes.now }
{
    let all = planes.as_slice();
    let mut found = None;
    for c in 0..all.len() {
        let plane = &all[c];
        found = earlier(found, above(plane, c as u32));
    }
    found
}

fn earlier(found: Option<CommonError>, later: Option<CommonError>) -> Option<CommonError>
    ensures { result ≡ or_else found later }
{
    match found {
        Some(common_error) => Some(common_error),
        None => later,
    }
}

fn above(plane: &Plane, c: u32) -> Option<CommonError>
    ensures { result ≡ above_at c (position (λ t. nat_lt plane.now.maxval t) plane.now.tints) }
{
    match place_above(plane.tints.as_slice(), plane.maxval) {
        Some(at) => Some(CommonError::Plate(c, PlateFault::SampleAboveMaxval(at as u64))),
        None => None,
    }
}

fn place_above(tints: &[u16], maxval: u32) -> Option<usize>
    ensures { result ≡ position (λ t. nat_lt maxval t) tints.now }
{
    tints.iter().position(|tint| *tint as u32 > maxval)
}

/// Whether no tint is above the maxval. All of them are read, without a branch, so that the loop is vectorized.
pub fn are_fit(tints: &[u16], maxval: u32) -> bool
    ensures { IsTrue result → AreFit maxval tints.now }
{
    let mut most = 0u16;
    for tint in tints {
        most = most.max(*tint);
    }
    most as u32 <= maxval
}
