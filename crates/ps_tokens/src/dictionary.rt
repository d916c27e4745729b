ghost use Rattle.std.specs.Prelude.{◌≡◌, ◌≤◌, ◌<◌, ◌+◌, ◌^◌, length, drop, slice_get, IfOk, IfSome, IfNone, Some, None};
ghost use Rattle.ps_tokens.specs.Values.{place_of_value};
ghost use Rattle.ps_tokens.specs.Dictionaries.{AreObjects, within, keys_of, names, last_of, inside_of};
ghost use Rattle.ps_tokens.specs.Limits.{longest_job};

use crate::object::{Body, Object, ObjectList};
use lists::names::OutOfMemory;
use std::alloc::Global;

/// The place of the value of a key's last entry in the dictionary at a place, or `None` exactly where there is no such
/// entry. The key itself stands at the place before. The list is one that `objects` gave.
#[tactic(auto, unfolding(crate::specs::Dictionaries::last_of, crate::specs::Dictionaries::keys_of))]
pub fn last(objects: &ObjectList, dict: u32, key: &[u8]) -> Option<u32>
    requires { AreObjects objects.now }
    ensures { result ≡ last_of objects.now dict key.now }
{
    let all = objects.as_slice();
    let mut rest = within(all, dict as usize);
    let end = dict as usize + 1 + rest.len();
    let mut found = None;
    'entries: while !rest.is_empty() {
        let place = end - rest.len();
        if names(all, place, key) {
            found = Some(place as u32 + 1);
        }
        rest = after_entry(rest);
    }
    found
}

/// The value of a key's last entry in the dictionary at a place, with its own place, or `None` exactly where there is no
/// such entry. The list is one that `objects` gave.
pub fn last_value<'a>(objects: &'a ObjectList, dict: u32, key: &[u8]) -> Option<(u32, &'a Object)>
    requires { AreObjects objects.now }
    ensures place { IfSome result (λ v. last_of objects.now dict key.now ≡ Some v.0) }
    ensures value { IfSome result (λ v. slice_get objects.now v.0 ≡ Some v.1.now) }
    ensures none { IfNone result
        (place_of_value objects.now (last_of objects.now dict key.now) ≡ None) }
{
    let Some(place) = last(objects, dict, key) else {
        return None;
    };
    match objects.get(place as usize) {
        Some(object) => Some((place, object)),
        None => None,
    }
}

/// The places of the keys of the dictionary at a place, in order. The list is one that `objects` gave.
#[tactic(auto, unfolding(crate::specs::Dictionaries::keys_of))]
pub fn keys(alloc: Global, objects: &ObjectList, dict: u32) -> Result<Vec<u32>, OutOfMemory>
    requires { AreObjects objects.now }
    ensures { IfOk result (λ keys. keys.items ≡ keys_of objects.now dict) }
{
    let mut rest = within(objects.as_slice(), dict as usize);
    let end = dict as usize + 1 + rest.len();
    let mut keys = Vec::new(alloc);
    'entries: while !rest.is_empty() {
        match keys.push((end - rest.len()) as u32) {
            Ok(()) => {}
            Err(_) => return Err(OutOfMemory),
        }
        rest = after_entry(rest);
    }
    Ok(keys)
}

/// The number of objects of a list that `objects` gave: at most as many as a job has bytes.
pub fn count(objects: &ObjectList) -> u32
    requires { AreObjects objects.now }
    ensures value { result ≡ length objects.now }
    ensures few { result ≤ longest_job }
{
    objects.len() as u32
}

// The objects within the one at a place.
fn within(objects: &[Object], place: usize) -> &[Object]
    requires { place < 2 ^ 40 }
    ensures value { result.now ≡ within objects.now place }
    ensures size { 0 < length result.now → place + 1 + length result.now ≤ length objects.now }
{
    if place >= objects.len() {
        return &[];
    }
    let suffix = &objects[place + 1..];
    let inside = (objects[place].inside as usize).min(suffix.len());
    &suffix[..inside]
}

// What stands after the entry at the beginning: a key, its value and all that stands within the value.
fn after_entry(rest: &[Object]) -> &[Object]
    requires { 0 < length rest.now }
    ensures value { result.now ≡ drop (2 + inside_of (slice_get rest.now 1)) rest.now }
    ensures less { length result.now < length rest.now }
{
    match rest {
        [_, value, suffix @ ..] => &suffix[(value.inside as usize).min(suffix.len())..],
        _ => &[],
    }
}

// Whether the literal of this name stands at a place.
fn names(objects: &[Object], place: usize, name: &[u8]) -> bool
    requires { place < length objects.now }
    ensures { result ≡ names name.now (slice_get objects.now place) }
{
    match &objects[place].body {
        Body::Literal(bytes) => bytes.as_slice() == name,
        _ => false,
    }
}
