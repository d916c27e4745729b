ghost use Rattle.std.specs.Prelude.{◌≡◌, ◌≤◌, ◌<◌, ◌^◌, IfOk};
ghost use Rattle.ps_tokens.specs.Dictionaries.{AreObjects};
ghost use Rattle.job_parts.specs.Settings.{in_range, number_of, boolean_of, number_after, boolean_after};

use ps_tokens::entry_errors::{EntryError, at_place};
use ps_tokens::faults::FaultKind;
use ps_tokens::last_value;
use ps_tokens::object::{Body, ObjectList};
use ps_tokens::parameters::Key;

// A number in the parameter's range.
fn in_range(key: Key, number: i64) -> Result<u32, FaultKind>
    ensures { result ≡ in_range key number }
{
    let (least, most) = key.range();
    if number >= i64::from(least) && number <= i64::from(most) {
        Ok(number as u32)
    } else {
        Err(FaultKind::OutOfRange(key))
    }
}

/// The number that a parameter's value is, in ten-thousandths, or its fault: `WrongKind` or `OutOfRange`.
pub fn number_of(key: Key, value: &Body) -> Result<u32, FaultKind>
    ensures { result ≡ number_of key value.now }
{
    match value {
        Body::Number(number) => in_range(key, *number),
        _ => Err(FaultKind::WrongKind(key)),
    }
}

// The boolean that a value sets.
fn boolean_of(key: Key, value: &Body) -> Result<bool, FaultKind>
    ensures { result ≡ boolean_of key value.now }
{
    match value {
        Body::Truth(boolean) => Ok(*boolean),
        _ => Err(FaultKind::WrongKind(key)),
    }
}

/// A parameter's number after the dictionary at `dict`: that of the last entry of its key, or `now` where there is no
/// entry.
#[tactic(auto, unfolding(crate::specs::Settings::number_after))]
pub fn number_after(objects: &ObjectList, dict: u32, key: Key, now: u32) -> Result<u32, EntryError>
    requires { AreObjects objects.now }
    ensures { result ≡ number_after objects.now dict key now }
{
    match last_value(objects, dict, key.name()) {
        Some((place, object)) => at_place(place, object.at, number_of(key, &object.body)),
        None => Ok(now),
    }
}

/// A parameter's boolean after the dictionary at `dict`: that of the last entry of its key, or `now` where there is no
/// entry.
#[tactic(auto, unfolding(crate::specs::Settings::boolean_after))]
pub fn boolean_after(
    objects: &ObjectList,
    dict: u32,
    key: Key,
    now: bool,
) -> Result<bool, EntryError>
    requires { AreObjects objects.now }
    ensures { result ≡ boolean_after objects.now dict key now }
{
    match last_value(objects, dict, key.name()) {
        Some((place, object)) => at_place(place, object.at, boolean_of(key, &object.body)),
        None => Ok(now),
    }
}
