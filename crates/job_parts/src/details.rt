ghost use Rattle.std.specs.Prelude.{◌≡◌, IfOk};
ghost use Rattle.ps_tokens.specs.Tokens.{Gives};
ghost use Rattle.ps_tokens.specs.Dictionaries.{AreObjects};
ghost use Rattle.job_parts.specs.Colorants.{AscendByName};
ghost use Rattle.job_parts.specs.Details.{type_in, type_of, details_from, details_of};

use crate::colorants::colorants_at;
use lists::list::List;
use page_model::parts::{DetailList, OutOfMemory};
use ps_tokens::entry_errors::{EntryError, at_place};
use ps_tokens::faults::{FaultKind, JobError, JobFault};
use ps_tokens::object::{Body, ObjectList};
use ps_tokens::{last, last_value};
use std::alloc::Global;

/// The inks that the value of TrappingDetails at the place `details` names, in ascending byte order of their names
/// (PLRM3, section 6.3, in this project's profile).
///
/// `NotDictionary` where the value, that of ColorantDetails or a colorant's is no dictionary; `WrongType` where Type is
/// not 1001; `BadDensity` where NeutralDensity is no number from 0.001 to 10; `BadKind` where ColorantType is none of the
/// four names; `MissingKey` where a dictionary lacks Type or NeutralDensity, at its `<<`. Entries are judged in the order
/// of their keys, the last of each key alone, and a missing one after them.
pub fn inks(alloc: Global, objects: &ObjectList, details: u32) -> Result<DetailList, JobError>
    requires { AreObjects objects.now }
    ensures given { Gives result (details_of objects.now details) }
    ensures ascending { IfOk result (λ inks. AscendByName inks) }
{
    let Some(object) = objects.get(details as usize) else {
        return Ok(List::new(alloc));
    };
    if !object.body.is_dict() {
        return Err(JobError::Fault(JobFault {
            kind: FaultKind::NotDictionary,
            at: object.at,
        }));
    }
    let typed = type_of(objects, details);
    let value = last(objects, details, b"ColorantDetails");
    let colorants = match colorants_at(alloc, objects, value) {
        Ok(colorants) => colorants,
        Err(OutOfMemory) => return Err(JobError::OutOfMemory),
    };
    match details_from(object.at, typed, colorants) {
        Ok(inks) => Ok(inks),
        Err(fault) => Err(JobError::Fault(fault)),
    }
}

// Whether a value of Type is the one that is known.
fn type_in(value: &Body) -> Result<bool, FaultKind>
    ensures { result ≡ type_in value.now }
{
    match value {
        Body::Number(number) => {
            if *number == 10_010_000 {
                Ok(true)
            } else {
                Err(FaultKind::WrongType)
            }
        }
        _ => Err(FaultKind::WrongType),
    }
}

// Whether a dictionary has that type, false where it has none.
#[tactic(auto, unfolding(crate::specs::Details::type_of))]
fn type_of(objects: &ObjectList, dict: u32) -> Result<bool, EntryError>
    requires { AreObjects objects.now }
    ensures { result ≡ type_of objects.now dict }
{
    match last_value(objects, dict, b"Type") {
        Some((place, object)) => at_place(place, object.at, type_in(&object.body)),
        None => Ok(false),
    }
}

// The inks, or the fault that stands first.
fn details_from(
    at: u32,
    typed: Result<bool, EntryError>,
    colorants: Result<DetailList, EntryError>,
) -> Result<DetailList, JobFault>
    ensures { result ≡ details_from at typed colorants }
{
    match typed {
        Ok(known) => match colorants {
            Ok(inks) => {
                if known {
                    Ok(inks)
                } else {
                    Err(JobFault {
                        kind: FaultKind::MissingKey,
                        at,
                    })
                }
            }
            Err(error) => Err(error.fault),
        },
        Err(first) => match colorants {
            Ok(_) => Err(first.fault),
            Err(second) => {
                if second.place < first.place {
                    Err(second.fault)
                } else {
                    Err(first.fault)
                }
            }
        },
    }
}
