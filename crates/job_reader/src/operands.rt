ghost use Rattle.std.specs.Prelude.{◌≡◌, ◌<◌, ◌^◌, Some};
ghost use Rattle.job_reader.specs.Operands.{is_one_dict, is_dict_between, two_numbers, number_at};
ghost use Rattle.job_reader.specs.Performing.{wrong_operands};

use ps_tokens::faults::{FaultKind, JobError, JobFault};
use ps_tokens::object::{Body, Object};

/// Whether the operands, the objects from `from` up to `place`, are exactly one dictionary.
pub fn is_one_dict(objects: &[Object], from: u32, place: u32) -> bool
    ensures { result ≡ is_one_dict objects.now from place }
{
    match objects.get(from as usize) {
        Some(object) => is_dict_between(from, place, object),
        None => false,
    }
}

// Whether an object is a dictionary that ends before this place, where it stands at another.
fn is_dict_between(from: u32, place: u32, object: &Object) -> bool
    ensures { result ≡ is_dict_between from place (Some object.now) }
{
    let inside = object.inside;
    object.body.is_dict() && from as u64 + 1 + inside as u64 == place as u64
}

/// The two numbers that are the operands, the objects from `from` up to `place`; `None` where these are not exactly two
/// numbers.
pub fn two_numbers(objects: &[Object], from: u32, place: u32) -> Option<(i64, i64)>
    requires { from < 2 ^ 31 }
    ensures { result ≡ two_numbers objects.now from place }
{
    if from + 2 != place {
        return None;
    }
    match number_at(objects, from as usize) {
        Some(x) => match number_at(objects, from as usize + 1) {
            Some(y) => Some((x, y)),
            None => None,
        },
        None => None,
    }
}

/// The number at a place, in ten-thousandths; `None` where another object stands there, or none.
pub fn number_at(objects: &[Object], place: usize) -> Option<i64>
    ensures { result ≡ number_at objects.now place }
{
    match objects.get(place) {
        Some(object) => match &object.body {
            Body::Number(number) => Some(*number),
            _ => None,
        },
        None => None,
    }
}

/// The error `WrongOperands`, at the offset `at` of the operator.
pub fn wrong_operands(at: u32) -> JobError
    ensures { result ≡ wrong_operands at }
{
    JobError::Fault(JobFault {
        kind: FaultKind::WrongOperands,
        at,
    })
}
