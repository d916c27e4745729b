ghost use Rattle.std.specs.Prelude.{◌≡◌, ◌∷◌, map, slice_get, IfOk};
ghost use Rattle.ps_tokens.specs.Tokens.{Gives};
ghost use Rattle.job_reader.specs.Statements.{job_shown, shown_fault, after_fault, under_trapping, job_at, wants_device};

use crate::job::Job;
use crate::state::State;
use lists::list::List;
use page_model::parts::{OutOfMemory, Zone, ZoneList};
use ps_tokens::faults::{FaultKind, JobError, JobFault};
use ps_tokens::object::Object;
use std::alloc::Global;

/// Ends the job at `showpage`, the object at `place` with the offset `at`: returns the job with what is in force
/// (PLRM3, section 8.2, in this project's profile). Its operands are the objects from `from` up to `place`.
///
/// `WrongOperands`; then `NoPageDevice` where no resolution was set and a zone was made or zone 0 is enabled; then
/// `AfterShowpage` where another object follows.
pub fn show(
    alloc: Global,
    objects: &[Object],
    from: u32,
    place: u32,
    at: u32,
    state: State,
) -> Result<Job, JobError>
    ensures { Gives result (job_shown objects.now from place at state) }
{
    match shown_fault(objects, from, place, at, &state) {
        Some(fault) => Err(JobError::Fault(fault)),
        None => match job_at(alloc, state) {
            Ok(job) => Ok(job),
            Err(OutOfMemory) => Err(JobError::OutOfMemory),
        },
    }
}

// The fault of `showpage`, if it has one.
#[tactic(auto, unfolding(crate::specs::Statements::shown_fault))]
fn shown_fault(
    objects: &[Object],
    from: u32,
    place: u32,
    at: u32,
    state: &State,
) -> Option<JobFault>
    ensures { result ≡ shown_fault objects.now from place at state.now }
{
    if from == place {
        if state.resolution == 0 && wants_device(state) {
            Some(JobFault {
                kind: FaultKind::NoPageDevice,
                at,
            })
        } else {
            after_fault(objects, place as usize + 1)
        }
    } else {
        Some(JobFault {
            kind: FaultKind::WrongOperands,
            at,
        })
    }
}

// The fault of an object after `showpage`.
fn after_fault(objects: &[Object], place: usize) -> Option<JobFault>
    ensures { result ≡ after_fault (slice_get objects.now place) }
{
    match objects.get(place) {
        Some(object) => Some(JobFault {
            kind: FaultKind::AfterShowpage,
            at: object.at,
        }),
        None => None,
    }
}

// Whether a page of this job wants a resolution.
fn wants_device(state: &State) -> bool
    ensures { result ≡ wants_device state.now }
{
    0 < state.zones.len() || (state.params.enabled && state.trapping)
}

// The job at `showpage`.
fn job_at(alloc: Global, state: State) -> Result<Job, OutOfMemory>
    ensures { IfOk result (λ job. job ≡ job_at state) }
{
    let State {
        mut params,
        limits,
        resolution,
        trapping,
        details,
        path: _,
        zones,
        vertices: _,
    } = state;
    params.enabled = params.enabled && trapping && zones.len() == 0;
    let first = Zone {
        params,
        path: List::new(alloc),
        limits,
    };
    let zones = all_zones(alloc, first, zones, trapping)?;
    Ok(Job {
        resolution,
        zones,
        details,
    })
}

// A zone and then others, these as they are where Trapping is true or false.
fn all_zones(
    alloc: Global,
    first: Zone,
    others: ZoneList,
    trapping: bool,
) -> Result<ZoneList, OutOfMemory>
    ensures { IfOk result (λ zones. zones ≡ first ∷ map (under_trapping trapping) others) }
{
    let mut zones = Vec::new(alloc);
    match zones.push(first) {
        Ok(()) => {}
        Err(_) => return Err(OutOfMemory),
    }
    for zone in others.into_vec() {
        match zones.push(under_trapping(trapping, zone)) {
            Ok(()) => {}
            Err(_) => return Err(OutOfMemory),
        }
    }
    Ok(List::from_vec(zones))
}

// A zone as it is where Trapping is true or false.
fn under_trapping(trapping: bool, zone: Zone) -> Zone
    ensures { result ≡ under_trapping trapping zone }
{
    let Zone {
        mut params,
        path,
        limits,
    } = zone;
    params.enabled = params.enabled && trapping;
    Zone {
        params,
        path,
        limits,
    }
}
