ghost use Rattle.std.specs.Prelude.{◌≡◌};
ghost use Rattle.ps_tokens.specs.EntryErrors.{at_place, at_key, earlier};

use crate::faults::{FaultKind, JobFault};

/// A fault of a dictionary's entry. Of several faults the one with the least `place` is reported.
#[derive(Clone, Copy, Debug, Drop, PartialEq, Eq)]
pub struct EntryError {
    pub place: u32,
    pub fault: JobFault,
}

/// Gives the fault of a check of one object its offset `at` in the job, and the place by which it comes before or after
/// the faults of other entries. An `Ok` is returned as it is.
pub fn at_place<X>(place: u32, at: u32, judged: Result<X, FaultKind>) -> Result<X, EntryError>
    ensures { result ≡ at_place place at judged }
{
    match judged {
        Ok(x) => Ok(x),
        Err(kind) => Err(EntryError {
            place,
            fault: JobFault { kind, at },
        }),
    }
}

/// Gives the fault of an entry the place of the entry's key, so that it is ordered by the key and not by what stands
/// within the value. An `Ok` is returned as it is.
pub fn at_key<X>(key: u32, read: Result<X, EntryError>) -> Result<X, EntryError>
    ensures { result ≡ at_key key read }
{
    match read {
        Ok(x) => Ok(x),
        Err(error) => Err(EntryError {
            place: key,
            fault: error.fault,
        }),
    }
}

/// Of two faults the one with the lesser place, `first` where they are equal; the only one where there is one; `None`
/// where there is none.
pub fn earlier(first: Option<EntryError>, second: Option<EntryError>) -> Option<EntryError>
    ensures { result ≡ earlier first second }
{
    match (first, second) {
        (None, second) => second,
        (first, None) => first,
        (Some(one), Some(two)) => { if two.place < one.place { second } else { first } }
    }
}
