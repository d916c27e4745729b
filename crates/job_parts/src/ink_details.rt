ghost use Rattle.std.specs.Prelude.{◌≡◌};
ghost use Rattle.ps_tokens.specs.Dictionaries.{AreObjects};
ghost use Rattle.job_parts.specs.InkDetails.{density_in, kind_named, kind_in, density_of, kind_of, ink_details_from, ink_details_in, ink_details_of};

use page_model::parts::InkKind;
use ps_tokens::dictionary::count;
use ps_tokens::entry_errors::{EntryError, at_key, at_place};
use ps_tokens::faults::FaultKind;
use ps_tokens::last_value;
use ps_tokens::object::{Body, ObjectList};

/// An ink without its name: a neutral density in ten-thousandths, and a kind.
#[derive(Clone, Copy, Debug, Drop, PartialEq, Eq)]
pub struct InkDetails {
    pub density: u32,
    pub kind: InkKind,
}

// The density that a value of NeutralDensity is.
fn density_in(value: &Body) -> Result<Option<u32>, FaultKind>
    ensures { result ≡ density_in value.now }
{
    match value {
        Body::Number(number) => {
            if *number >= 10 && *number <= 100_000 {
                Ok(Some(*number as u32))
            } else {
                Err(FaultKind::BadDensity)
            }
        }
        _ => Err(FaultKind::BadDensity),
    }
}

// The kind of that name.
#[tactic(auto, unfolding(crate::specs::InkDetails::kind_named))]
fn kind_named(name: &[u8]) -> Result<InkKind, FaultKind>
    ensures { result ≡ kind_named name.now }
{
    if name == b"Normal".as_slice() {
        Ok(InkKind::Normal)
    } else if name == b"Transparent".as_slice() {
        Ok(InkKind::Transparent)
    } else if name == b"Opaque".as_slice() {
        Ok(InkKind::Opaque)
    } else if name == b"OpaqueIgnore".as_slice() {
        Ok(InkKind::OpaqueIgnore)
    } else {
        Err(FaultKind::BadKind)
    }
}

// The kind that a value of ColorantType is.
fn kind_in(value: &Body) -> Result<InkKind, FaultKind>
    ensures { result ≡ kind_in value.now }
{
    match value {
        Body::Literal(name) => kind_named(name.as_slice()),
        _ => Err(FaultKind::BadKind),
    }
}

// The density that a dictionary gives, if it gives one.
#[tactic(auto, unfolding(crate::specs::InkDetails::density_of))]
fn density_of(objects: &ObjectList, dict: u32) -> Result<Option<u32>, EntryError>
    requires { AreObjects objects.now }
    ensures { result ≡ density_of objects.now dict }
{
    match last_value(objects, dict, b"NeutralDensity") {
        Some((place, object)) => at_place(place, object.at, density_in(&object.body)),
        None => Ok(None),
    }
}

// The kind that a dictionary gives, Normal where it gives none.
#[tactic(auto, unfolding(crate::specs::InkDetails::kind_of))]
fn kind_of(objects: &ObjectList, dict: u32) -> Result<InkKind, EntryError>
    requires { AreObjects objects.now }
    ensures { result ≡ kind_of objects.now dict }
{
    match last_value(objects, dict, b"ColorantType") {
        Some((place, object)) => at_place(place, object.at, kind_in(&object.body)),
        None => Ok(InkKind::Normal),
    }
}

// A colorant's ink from what its dictionary gives, or the fault that stands first.
fn ink_details_from(
    dict: u32,
    at: u32,
    density: Result<Option<u32>, EntryError>,
    kind: Result<InkKind, EntryError>,
) -> Result<Option<InkDetails>, EntryError>
    ensures { result ≡ ink_details_from dict at density kind }
{
    match density {
        Ok(given) => {
            let kind = kind?;
            match given {
                Some(density) => Ok(Some(InkDetails { density, kind })),
                None => at_place(dict, at, Err(FaultKind::MissingKey)),
            }
        }
        Err(first) => match kind {
            Ok(_) => Err(first),
            Err(second) => Err(if second.place < first.place {
                second
            } else {
                first
            }),
        },
    }
}

/// The ink of one entry of ColorantDetails, whose key stands at `key`: its NeutralDensity and ColorantType.
#[tactic(auto, unfolding(crate::specs::InkDetails::ink_details_of))]
pub fn ink_details_of(objects: &ObjectList, key: u32) -> Result<Option<InkDetails>, EntryError>
    requires { AreObjects objects.now }
    ensures { result ≡ ink_details_of objects.now key }
{
    if key as usize + 1 >= count(objects) as usize {
        return Ok(None);
    }
    match objects.get(key as usize + 1) {
        Some(object) => {
            if object.body.is_dict() {
                at_key(key, ink_details_in(objects, key + 1, object.at))
            } else {
                at_place(key, object.at, Err(FaultKind::NotDictionary))
            }
        }
        None => Ok(None),
    }
}

// The ink that a colorant's dictionary gives.
fn ink_details_in(
    objects: &ObjectList,
    dict: u32,
    at: u32,
) -> Result<Option<InkDetails>, EntryError>
    requires { AreObjects objects.now }
    ensures { result ≡ ink_details_in objects.now dict at }
{
    let density = density_of(objects, dict);
    let kind = kind_of(objects, dict);
    ink_details_from(dict, at, density, kind)
}
