ghost use Rattle.std.specs.Prelude.{◌≡◌, [], map, fold, slice_get, IfOk};
ghost use Rattle.std.specs.BTreeMap.{values};
ghost use Rattle.ps_tokens.specs.Dictionaries.{AreObjects, Ascend, name_of, key_names, last_keys_of, by_bytes, put_key};

use crate::dictionary::keys;
use crate::object::{Body, Object, ObjectList};
use lists::names::OutOfMemory;
use std::alloc::Global;
use std::collections::BTreeMap;

/// The name of the literal at a place, without its slash. It is empty where another object stands there, or none.
pub fn name_at(objects: &[Object], place: usize) -> &[u8]
    ensures { result.now ≡ name_of (slice_get objects.now place) }
{
    match objects.get(place) {
        Some(object) => match &object.body {
            Body::Literal(name) => name.as_slice(),
            _ => &[],
        },
        None => &[],
    }
}

/// For each name in the dictionary at a place, the place of its last key, in ascending byte order of the names. The
/// list is one that `objects` gave.
#[tactic(auto, unfolding(crate::specs::Dictionaries::last_keys_of))]
pub fn last_keys(alloc: Global, objects: &ObjectList, dict: u32) -> Result<Vec<u32>, OutOfMemory>
    requires { AreObjects objects.now }
    ensures places { IfOk result (λ places. places.items ≡ last_keys_of objects.now dict) }
    ensures ascending { IfOk result (λ places. Ascend (key_names objects.now places.items)) }
{
    let all = objects.as_slice();
    let keys = keys(alloc, objects, dict)?;
    let named = by_name(alloc, all, &keys)?;
    places_of(alloc, &named)
}

// The names of keys, each with the last of its places.
#[tactic(auto, using(crate::proofs::Naming::naming))]
fn by_name<'a>(
    alloc: Global,
    objects: &'a [Object],
    keys: &[u32],
) -> Result<BTreeMap<&'a [u8], u32>, OutOfMemory>
    ensures { IfOk result
        (λ named. map by_bytes named.entries ≡ fold (put_key objects.now) [] keys.now) }
{
    let mut named = BTreeMap::new(alloc);
    for key in keys {
        match named.insert(name_at(objects, *key as usize), *key) {
            Ok(_) => {}
            Err(_) => return Err(OutOfMemory),
        }
    }
    Ok(named)
}

// The places, in the order of their names.
fn places_of(alloc: Global, named: &BTreeMap<&[u8], u32>) -> Result<Vec<u32>, OutOfMemory>
    ensures { IfOk result (λ places. places.items ≡ values named.now) }
{
    let mut places = Vec::new(alloc);
    for place in named.values() {
        match places.push(*place) {
            Ok(()) => {}
            Err(_) => return Err(OutOfMemory),
        }
    }
    Ok(places)
}
