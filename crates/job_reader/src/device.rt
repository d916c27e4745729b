ghost use Rattle.std.specs.Prelude.{◌≡◌, ◌<◌, ◌^◌, IfOk};
ghost use Rattle.ps_tokens.specs.Dictionaries.{AreObjects};
ghost use Rattle.job_parts.specs.Details.{details_of};
ghost use Rattle.job_reader.specs.Device.{pixels_of, resolution_in, resolution_after, named_details, details_in, device_from, device_set};
ghost use Rattle.job_reader.specs.Performing.{Performs};

use crate::operands::number_at;
use crate::state::State;
use job_parts::inks;
use job_parts::settings::boolean_after;
use page_model::bounds::{MOST_RESOLUTION, SCALE};
use page_model::parts::{DetailList, OutOfMemory};
use ps_tokens::entry_errors::{EntryError, at_place, earlier};
use ps_tokens::faults::{FaultKind, JobError, JobFault};
use ps_tokens::object::{Body, Object, ObjectList};
use ps_tokens::parameters::Key;
use ps_tokens::{last, last_value};
use std::alloc::Global;

// 1 in ten-thousandths, and the finest resolution in them.
const ONE: u64 = SCALE as u64;

const FINEST: u64 = MOST_RESOLUTION as u64 * ONE;

/// Applies the dictionary of `setpagedevice` that stands at `dict`: sets those of HWResolution, Trapping and
/// TrappingDetails that it names (after PLRM3, sections 6.2 and 6.3 for the entries and 8.2 for the operator, in this
/// project's profile).
///
/// `BadResolution`, `WrongKind` of Trapping and the faults of `inks`, in the order of their keys.
pub fn set_page_device(
    alloc: Global,
    objects: &ObjectList,
    dict: u32,
    state: &mut State,
) -> Result<(), JobError>
    requires { AreObjects objects.now }
    ensures { Performs result state.new (device_set objects.now dict state.old) }
{
    let resolution = resolution_after(objects, dict, state.resolution);
    let trapping = boolean_after(objects, dict, Key::Trapping, state.trapping);
    match details_in(alloc, objects, dict) {
        Ok(details) => set_from(resolution, trapping, details, state),
        Err(OutOfMemory) => Err(JobError::OutOfMemory),
    }
}

// What is named, set; or the fault that stands first.
fn set_from(
    resolution: Result<u32, EntryError>,
    trapping: Result<bool, EntryError>,
    details: Result<Option<DetailList>, EntryError>,
    state: &mut State,
) -> Result<(), JobError>
    ensures { Performs result state.new (device_from resolution trapping details state.old) }
{
    let (details, error) = match details {
        Ok(details) => (details, None),
        Err(error) => (None, Some(error)),
    };
    let first = earlier(resolution.err(), earlier(trapping.err(), error));
    if let Some(error) = first {
        return Err(JobError::Fault(error.fault));
    }
    if let Ok(resolution) = resolution {
        state.resolution = resolution;
    }
    if let Ok(trapping) = trapping {
        state.trapping = trapping;
    }
    if let Some(details) = details {
        state.details = details;
    }
    Ok(())
}

// The resolution of the last HWResolution entry, or the one now.
#[tactic(auto, unfolding(crate::specs::Device::resolution_after))]
fn resolution_after(objects: &ObjectList, dict: u32, now: u32) -> Result<u32, EntryError>
    requires { AreObjects objects.now }
    ensures { result ≡ resolution_after objects.now dict now }
{
    match last_value(objects, dict, b"HWResolution") {
        Some((place, object)) => {
            let resolution = resolution_in(objects.as_slice(), place, object);
            at_place(place, object.at, resolution)
        }
        None => Ok(now),
    }
}

// The resolution that an object at a place is.
fn resolution_in(objects: &[Object], place: u32, object: &Object) -> Result<u32, FaultKind>
    ensures { result ≡ resolution_in objects.now place object.now }
{
    let is_array = match &object.body {
        Body::Array => true,
        _ => false,
    };
    if !(is_array && object.inside == 2) {
        return Err(FaultKind::BadResolution);
    }
    let x = pixels_of(number_at(objects, place as usize + 1));
    let y = pixels_of(number_at(objects, place as usize + 2));
    match x {
        Some(x) => match y {
            Some(y) => {
                if x == y {
                    Ok(x)
                } else {
                    Err(FaultKind::BadResolution)
                }
            }
            None => Err(FaultKind::BadResolution),
        },
        None => Err(FaultKind::BadResolution),
    }
}

// A whole number from 1 to the finest resolution.
fn pixels_of(number: Option<i64>) -> Option<u32>
    ensures { result ≡ pixels_of number }
{
    match number {
        Some(number) => {
            if number < 0 {
                return None;
            }
            let size = number.unsigned_abs();
            if size % ONE == 0 && size >= ONE && size <= FINEST {
                Some((size / ONE) as u32)
            } else {
                None
            }
        }
        None => None,
    }
}

// The details that the last TrappingDetails entry names, if there is one.
#[tactic(auto, unfolding(crate::specs::Device::details_in))]
fn details_in(
    alloc: Global,
    objects: &ObjectList,
    dict: u32,
) -> Result<Result<Option<DetailList>, EntryError>, OutOfMemory>
    requires { AreObjects objects.now }
    ensures { IfOk result (λ details. details ≡ details_in objects.now dict) }
{
    let Some(place) = last(objects, dict, b"TrappingDetails") else {
        return Ok(Ok(None));
    };
    let found = inks_at(alloc, objects, place)?;
    Ok(named_details(place, found))
}

// Details that are named at a place.
fn named_details(
    place: u32,
    found: Result<DetailList, JobFault>,
) -> Result<Option<DetailList>, EntryError>
    ensures { result ≡ named_details place found }
{
    match found {
        Ok(inks) => Ok(Some(inks)),
        Err(fault) => Err(EntryError { place, fault }),
    }
}

// The inks that the value of TrappingDetails at a place names, or its fault.
fn inks_at(
    alloc: Global,
    objects: &ObjectList,
    place: u32,
) -> Result<Result<DetailList, JobFault>, OutOfMemory>
    requires { AreObjects objects.now }
    ensures { IfOk result (λ inks. inks ≡ details_of objects.now place) }
{
    match inks(alloc, objects, place) {
        Ok(inks) => Ok(Ok(inks)),
        Err(common_error) => match common_error {
            JobError::Fault(fault) => Ok(Err(fault)),
            JobError::OutOfMemory => Err(OutOfMemory),
        },
    }
}
