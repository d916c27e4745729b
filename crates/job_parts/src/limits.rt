ghost use Rattle.std.specs.Prelude.{◌≡◌, ◌++◌, ◌∷◌, [], IfOk, OnOk};
ghost use Rattle.ps_tokens.specs.Tokens.{Gives};
ghost use Rattle.ps_tokens.specs.Dictionaries.{AreObjects, last_keys_of};
ghost use Rattle.ps_tokens.specs.EntryErrors.{unless};
ghost use Rattle.job_parts.specs.Limits.{AscendByName, step_by, step_in, step_of, limit_if_short, limits_of, first_error, limits_after};

use crate::settings::number_of;
use lists::list::List;
use lists::names::copy_name;
use page_model::bounds::LONGEST_NAME;
use page_model::parts::{Limit, LimitList, OutOfMemory};
use ps_tokens::dictionary::count;
use ps_tokens::entry_errors::{EntryError, at_key, at_place, earlier};
use ps_tokens::faults::{FaultKind, JobError, JobFault};
use ps_tokens::names::{last_keys, name_at};
use ps_tokens::object::{Body, ObjectList};
use ps_tokens::parameters::Key;
use ps_tokens::{last, last_value};
use std::alloc::Global;

/// The step limits after the dictionary at a place: those of its last ColorantZoneDetails entry, in ascending byte order
/// of the names, or a copy of `now` where it has none (this project's own).
///
/// A colorant without StepLimit has no limit. Names longer than 64 bytes are judged and not kept. The faults stand at
/// the value: `NotDictionary` where the entry's value or a colorant's is no dictionary, and `WrongKind(StepLimit)` and
/// `OutOfRange(StepLimit)` for a colorant's last StepLimit. The names' last entries are judged in the order of their keys.
pub fn zone_limits(
    alloc: Global,
    now: &LimitList,
    objects: &ObjectList,
    dict: u32,
) -> Result<LimitList, JobError>
    requires { AreObjects objects.now }
    ensures given { Gives result (limits_after now.now objects.now dict) }
    ensures ascending { AscendByName now.now → IfOk result (λ limits. AscendByName limits) }
{
    let Some(place) = last(objects, dict, b"ColorantZoneDetails") else {
        return match copy_of(alloc, now) {
            Ok(limits) => Ok(limits),
            Err(OutOfMemory) => Err(JobError::OutOfMemory),
        };
    };
    let Some(object) = objects.get(place as usize) else {
        return Ok(List::new(alloc));
    };
    if object.body.is_dict() {
        limits_in(alloc, objects, place)
    } else {
        Err(JobError::Fault(JobFault {
            kind: FaultKind::NotDictionary,
            at: object.at,
        }))
    }
}

// The limits of the colorants that the dictionary at a place names.
fn limits_in(alloc: Global, objects: &ObjectList, place: u32) -> Result<LimitList, JobError>
    requires { AreObjects objects.now }
    ensures { let keys = last_keys_of objects.now place in
        Gives result (unless (first_error objects.now keys) (limits_of objects.now keys)) }
{
    let keys = match last_keys(alloc, objects, place) {
        Ok(keys) => keys,
        Err(OutOfMemory) => return Err(JobError::OutOfMemory),
    };
    match first_error(objects, &keys) {
        Some(error) => Err(JobError::Fault(error.fault)),
        None => match limits_of(alloc, objects, &keys) {
            Ok(limits) => Ok(List::from_vec(limits)),
            Err(OutOfMemory) => Err(JobError::OutOfMemory),
        },
    }
}

// Of the faults of these keys the one that stands first.
fn first_error(objects: &ObjectList, keys: &[u32]) -> Option<EntryError>
    requires { AreObjects objects.now }
    ensures { result ≡ first_error objects.now keys.now }
{
    let mut first = None;
    for key in keys {
        first = earlier(first, step_of(objects, *key).err());
    }
    first
}

// The limits of these keys, in their order.
fn limits_of(alloc: Global, objects: &ObjectList, keys: &[u32]) -> Result<Vec<Limit>, OutOfMemory>
    requires { AreObjects objects.now }
    ensures { IfOk result (λ limits. limits.items ≡ limits_of objects.now keys.now) }
{
    let mut limits = Vec::new(alloc);
    for key in keys {
        let name = name_at(objects.as_slice(), *key as usize);
        keep(alloc, &mut limits, name, step_of(objects, *key))?;
    }
    Ok(limits)
}

// Adds a step under a name that is not too long.
fn keep(
    alloc: Global,
    limits: &mut Vec<Limit>,
    name: &[u8],
    step: Result<Option<u32>, EntryError>,
) -> Result<(), OutOfMemory>
    ensures { OnOk result (limits.new.items ≡ limits.old.items ++ limit_if_short name.now step) }
{
    match step {
        Ok(Some(step)) => {
            if name.len() <= LONGEST_NAME {
                put_limit(alloc, limits, name, step)
            } else {
                Ok(())
            }
        }
        Ok(None) => Ok(()),
        Err(_) => Ok(()),
    }
}

// Adds a limit with a copy of its name.
fn put_limit(
    alloc: Global,
    limits: &mut Vec<Limit>,
    name: &[u8],
    step: u32,
) -> Result<(), OutOfMemory>
    ensures { OnOk result
        (limits.new.items ≡ limits.old.items ++ record { name = name.now; step = step } ∷ []) }
{
    let name = copy_name(alloc, name)?;
    match limits.push(Limit { name, step }) {
        Ok(()) => Ok(()),
        Err(_) => Err(OutOfMemory),
    }
}

// The step that the entry of a colorant's key names, none where it has no StepLimit.
#[tactic(auto, unfolding(crate::specs::Limits::step_of))]
fn step_of(objects: &ObjectList, key: u32) -> Result<Option<u32>, EntryError>
    requires { AreObjects objects.now }
    ensures { result ≡ step_of objects.now key }
{
    if key as usize + 1 >= count(objects) as usize {
        return Ok(None);
    }
    match objects.get(key as usize + 1) {
        Some(object) => {
            if object.body.is_dict() {
                at_key(key, step_in(objects, key + 1))
            } else {
                at_place(key, object.at, Err(FaultKind::NotDictionary))
            }
        }
        None => Ok(None),
    }
}

// The step that a colorant's dictionary names, if it names one.
fn step_in(objects: &ObjectList, dict: u32) -> Result<Option<u32>, EntryError>
    requires { AreObjects objects.now }
    ensures { result ≡ step_in objects.now dict }
{
    match last_value(objects, dict, b"StepLimit") {
        Some((place, object)) => at_place(place, object.at, step_by(&object.body)),
        None => Ok(None),
    }
}

// The step that a value of StepLimit is.
fn step_by(value: &Body) -> Result<Option<u32>, FaultKind>
    ensures { result ≡ step_by value.now }
{
    let number = number_of(Key::StepLimit, value)?;
    Ok(Some(number))
}

/// A copy of limits.
pub fn copy_of(alloc: Global, now: &LimitList) -> Result<LimitList, OutOfMemory>
    ensures { IfOk result (λ limits. limits ≡ now.now) }
{
    let mut limits = Vec::new(alloc);
    for limit in now.as_slice() {
        put_limit(alloc, &mut limits, limit.name.as_slice(), limit.step)?;
    }
    Ok(List::from_vec(limits))
}
