ghost use Rattle.job_reader.specs.Performing.{Performs};
ghost use Rattle.job_reader.specs.Statements.{zone_made};

use crate::state::State;
use job_parts::limits::copy_of;
use page_model::bounds::{MOST_JOB_ZONES, MOST_VERTICES_IN_ALL};
use page_model::parts::{OutOfMemory, Zone};
use ps_tokens::faults::{FaultKind, JobError, JobFault};
use std::alloc::Global;

/// `settrapzone` at the offset `at`: adds a zone of the current path, with the parameters and limits in force, and
/// empties the path (after PLRM3, sections 6.3 and 8.2, in this project's profile).
///
/// `TooManyZones` for the 251st zone; then `TooManyVertices` where all zones together would have more than 16,384.
pub fn make_zone(alloc: Global, state: &mut State, at: u32) -> Result<(), JobError>
    ensures { Performs result state.new (zone_made at state.old) }
{
    if state.zones.len() >= MOST_JOB_ZONES {
        return Err(JobError::Fault(JobFault {
            kind: FaultKind::TooManyZones,
            at,
        }));
    }
    let vertices = state.vertices as u64 + state.path.len() as u64;
    if vertices > MOST_VERTICES_IN_ALL {
        return Err(JobError::Fault(JobFault {
            kind: FaultKind::TooManyVertices,
            at,
        }));
    }
    let limits = match copy_of(alloc, &state.limits) {
        Ok(limits) => limits,
        Err(OutOfMemory) => return Err(JobError::OutOfMemory),
    };
    let zone = Zone {
        params: state.params,
        path: state.path.take(),
        limits,
    };
    state.vertices = vertices as u32;
    match state.zones.push(zone) {
        Ok(()) => Ok(()),
        Err(_) => Err(JobError::OutOfMemory),
    }
}
