ghost use Rattle.std.specs.Prelude.{◌≡◌, slice_get};
ghost use Rattle.job_reader.specs.Calls.{call_of, is_showpage};

use crate::operators::{Operator, operator_named};
use ps_tokens::object::{Body, Object};

/// A word at the top level of a job, with its offset: `operator` is `None` where the word is no operator of the
/// language.
#[derive(Clone, Copy, Debug, Drop, PartialEq, Eq)]
pub struct Call {
    pub at: u32,
    pub operator: Option<Operator>,
}

/// The call of the word at a place; `None` where another object stands there, or none.
pub fn call_at(objects: &[Object], place: usize) -> Option<Call>
    ensures { result ≡ call_of (slice_get objects.now place) }
{
    match objects.get(place) {
        Some(object) => match &object.body {
            Body::Operator(name) => Some(Call {
                at: object.at,
                operator: operator_named(name.as_slice()),
            }),
            _ => None,
        },
        None => None,
    }
}

/// Whether an operator is `showpage`, which ends the job.
pub fn is_showpage(operator: Operator) -> bool
    ensures { result ≡ is_showpage operator }
{
    match operator {
        Operator::ShowPage => true,
        _ => false,
    }
}
