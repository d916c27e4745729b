ghost use Rattle.std.specs.Prelude.{◌≡◌, ◌++◌, IfOk, OnOk};
ghost use Rattle.ps_tokens.specs.Dictionaries.{AreObjects, last_keys_of};
ghost use Rattle.job_parts.specs.Colorants.{ink_if_given, inks_of, first_error, inks_unless, colorants_at};

use crate::ink_details::{InkDetails, ink_details_of};
use lists::list::List;
use lists::names::copy_name;
use page_model::parts::{DetailList, Ink, OutOfMemory};
use ps_tokens::entry_errors::{EntryError, at_place, earlier};
use ps_tokens::faults::FaultKind;
use ps_tokens::names::{last_keys, name_at};
use ps_tokens::object::ObjectList;
use std::alloc::Global;

/// The inks of the ColorantDetails dictionary at the place `value`, in ascending byte order of their names (PLRM3,
/// section 6.3, in this project's profile). No inks where `value` is `None`: no entry has the key.
pub fn colorants_at(
    alloc: Global,
    objects: &ObjectList,
    value: Option<u32>,
) -> Result<Result<DetailList, EntryError>, OutOfMemory>
    requires { AreObjects objects.now }
    ensures { IfOk result (λ inks. inks ≡ colorants_at objects.now value) }
{
    let Some(place) = value else {
        return Ok(Ok(List::new(alloc)));
    };
    let Some(object) = objects.get(place as usize) else {
        return Ok(Ok(List::new(alloc)));
    };
    if object.body.is_dict() {
        colorants_in(alloc, objects, place)
    } else {
        Ok(at_place(place, object.at, Err(FaultKind::NotDictionary)))
    }
}

// The inks of the dictionary at a place.
fn colorants_in(
    alloc: Global,
    objects: &ObjectList,
    place: u32,
) -> Result<Result<DetailList, EntryError>, OutOfMemory>
    requires { AreObjects objects.now }
    ensures { let keys = last_keys_of objects.now place in
        let error = first_error objects.now keys in
        IfOk result (λ inks. inks ≡ inks_unless place error (inks_of objects.now keys)) }
{
    let keys = last_keys(alloc, objects, place)?;
    match first_error(objects, &keys) {
        Some(error) => Ok(Err(EntryError {
            place,
            fault: error.fault,
        })),
        None => {
            let inks = inks_of(alloc, objects, &keys)?;
            Ok(Ok(List::from_vec(inks)))
        }
    }
}

// Of the faults of these keys the one that stands first.
fn first_error(objects: &ObjectList, keys: &[u32]) -> Option<EntryError>
    requires { AreObjects objects.now }
    ensures { result ≡ first_error objects.now keys.now }
{
    let mut first = None;
    for key in keys {
        first = earlier(first, ink_details_of(objects, *key).err());
    }
    first
}

// The inks of these keys, in their order.
fn inks_of(alloc: Global, objects: &ObjectList, keys: &[u32]) -> Result<Vec<Ink>, OutOfMemory>
    requires { AreObjects objects.now }
    ensures { IfOk result (λ inks. inks.items ≡ inks_of objects.now keys.now) }
{
    let mut inks = Vec::new(alloc);
    for key in keys {
        let name = name_at(objects.as_slice(), *key as usize);
        put_ink(alloc, &mut inks, name, ink_details_of(objects, *key))?;
    }
    Ok(inks)
}

// Adds an ink with a copy of its name.
fn put_ink(
    alloc: Global,
    inks: &mut Vec<Ink>,
    name: &[u8],
    details: Result<Option<InkDetails>, EntryError>,
) -> Result<(), OutOfMemory>
    ensures { OnOk result (inks.new.items ≡ inks.old.items ++ ink_if_given name.now details) }
{
    let details = match details {
        Ok(Some(details)) => details,
        Ok(None) => return Ok(()),
        Err(_) => return Ok(()),
    };
    let name = copy_name(alloc, name)?;
    let ink = Ink {
        name,
        density: details.density,
        kind: details.kind,
    };
    match inks.push(ink) {
        Ok(()) => Ok(()),
        Err(_) => Err(OutOfMemory),
    }
}
