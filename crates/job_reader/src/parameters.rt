ghost use Rattle.std.specs.Prelude.{◌≡◌, Ok, IfSome, IfNone};
ghost use Rattle.ps_tokens.specs.Dictionaries.{AreObjects};
ghost use Rattle.job_parts.specs.Limits.{limits_after};
ghost use Rattle.job_reader.specs.Performing.{Performs, MayReplace};
ghost use Rattle.job_reader.specs.Statements.{both_set, params_set};

use crate::state::State;
use job_parts::{apply, zone_limits};
use page_model::parts::{LimitList, TrapParams};
use ps_tokens::faults::{JobError, JobFault};
use ps_tokens::last;
use ps_tokens::object::ObjectList;
use std::alloc::Global;

/// Applies the dictionary of `settrapparams` that stands at `dict`: sets the trapping parameters that it names, and the
/// step limits where it names ColorantZoneDetails (after PLRM3, sections 6.3 and 8.2, in this project's profile).
///
/// The faults of `apply` and of `zone_limits`, the one with the lesser offset.
pub fn set_trap_params(
    alloc: Global,
    objects: &ObjectList,
    dict: u32,
    state: &mut State,
) -> Result<(), JobError>
    requires { AreObjects objects.now }
    ensures { Performs result state.new (params_set objects.now dict state.old) }
{
    let params = apply(&state.params, objects, dict);
    match limits_in(alloc, &state.limits, objects, dict) {
        Ok(limits) => set_params(params, limits, state),
        Err(common_error) => match common_error {
            JobError::Fault(second) => Err(JobError::Fault(match params {
                Ok(_) => second,
                Err(first) => { if second.at < first.at { second } else { first } }
            })),
            JobError::OutOfMemory => Err(JobError::OutOfMemory),
        },
    }
}

// Limits in place of those now, none where the dictionary does not name them.
fn limits_in(
    alloc: Global,
    now: &LimitList,
    objects: &ObjectList,
    dict: u32,
) -> Result<Option<LimitList>, JobError>
    requires { AreObjects objects.now }
    ensures { MayReplace result now.now (limits_after now.now objects.now dict) }
{
    match last(objects, dict, b"ColorantZoneDetails") {
        Some(_) => {
            let limits = zone_limits(alloc, now, objects, dict)?;
            Ok(Some(limits))
        }
        None => Ok(None),
    }
}

// Parameters and limits, set together.
fn set_params(
    params: Result<TrapParams, JobFault>,
    limits: Option<LimitList>,
    state: &mut State,
) -> Result<(), JobError>
    ensures some { IfSome limits
        (λ ls. Performs result state.new (both_set params (Ok ls) state.old)) }
    ensures none { IfNone limits
        (Performs result state.new (both_set params (Ok state.old.limits) state.old)) }
{
    match params {
        Ok(params) => {
            state.params = params;
            if let Some(limits) = limits {
                state.limits = limits;
            }
            Ok(())
        }
        Err(fault) => Err(JobError::Fault(fault)),
    }
}
