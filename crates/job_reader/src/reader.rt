ghost use Rattle.std.specs.Prelude.{◌≡◌, ◌≤◌, Ok, length, IfOk};
ghost use Rattle.ps_tokens.specs.Limits.{longest_job};
ghost use Rattle.ps_tokens.specs.Tokens.{Gives, tokens_of};
ghost use Rattle.ps_tokens.specs.Objects.{objects_of};
ghost use Rattle.ps_tokens.specs.Dictionaries.{AreObjects};
ghost use Rattle.job_reader.specs.InRange.{IsJob};
ghost use Rattle.job_reader.specs.Jobs.{job_of, job_of_tokens, job_of_objects};

use crate::calls::{call_at, is_showpage};
use crate::job::Job;
use crate::performing::perform;
use crate::showing::show;
use crate::state::nothing_read;
use ps_tokens::dictionary::count;
use ps_tokens::faults::{FaultKind, JobError, JobFault};
use ps_tokens::object::ObjectList;
use ps_tokens::token::TokenList;
use ps_tokens::{LONGEST_JOB, objects, tokens};
use std::alloc::Global;

/// Reads a whole job, in this project's job language (docs/JOBS.md), which is a profile of PLRM3.
///
/// The fault is the first of the bytes' tokens, then of the objects, then of the statements. A job of more than
/// `LONGEST_JOB` bytes is `JobTooLong`, before all of these.
#[tactic(auto, unfolding(crate::specs::Jobs::job_of))]
pub fn read_job(alloc: Global, bytes: &[u8]) -> Result<Job, JobError>
    ensures given { Gives result (job_of bytes.now) }
    ensures in_range { IfOk result (λ job. IsJob job) }
{
    if bytes.len() > LONGEST_JOB {
        Err(JobError::Fault(JobFault {
            kind: FaultKind::JobTooLong,
            at: LONGEST_JOB as u32,
        }))
    } else {
        read_tokens(alloc, bytes)
    }
}

// The job of bytes that are not too many.
fn read_tokens(alloc: Global, bytes: &[u8]) -> Result<Job, JobError>
    requires { length bytes.now ≤ longest_job }
    ensures { Gives result (job_of_tokens bytes.now (tokens_of bytes.now)) }
{
    match tokens(alloc, bytes) {
        Ok(found) => read_objects(alloc, bytes, &found),
        Err(common_error) => match common_error {
            JobError::Fault(fault) => Err(JobError::Fault(fault)),
            JobError::OutOfMemory => Err(JobError::OutOfMemory),
        },
    }
}

// The job of its tokens.
fn read_objects(alloc: Global, bytes: &[u8], tokens: &TokenList) -> Result<Job, JobError>
    requires size { length bytes.now ≤ longest_job }
    requires of_bytes { tokens_of bytes.now ≡ Ok tokens.now }
    ensures { Gives result (job_of_objects (length bytes.now) (objects_of bytes.now tokens.now)) }
{
    match objects(alloc, bytes, tokens) {
        Ok(found) => read_statements(alloc, &found, bytes.len() as u32),
        Err(common_error) => match common_error {
            JobError::Fault(fault) => Err(JobError::Fault(fault)),
            JobError::OutOfMemory => Err(JobError::OutOfMemory),
        },
    }
}

// The job of its objects, statement after statement.
fn read_statements(alloc: Global, objects: &ObjectList, len: u32) -> Result<Job, JobError>
    requires { AreObjects objects.now }
    ensures { Gives result (job_of_objects len (Ok objects.now)) }
{
    let all = objects.as_slice();
    let mut state = nothing_read(alloc);
    let mut from = 0u32;
    for place in 0..count(objects) {
        match call_at(all, place as usize) {
            Some(call) => {
                match call.operator {
                    Some(operator) => {
                        if is_showpage(operator) {
                            return show(alloc, all, from, place, call.at, state);
                        }
                        match perform(alloc, objects, from, place, call.at, operator, &mut state) {
                            Ok(()) => {}
                            Err(common_error) => return Err(common_error),
                        }
                    }
                    None => {
                        return Err(JobError::Fault(JobFault {
                            kind: FaultKind::UnknownOperator,
                            at: call.at,
                        }));
                    }
                }
                from = place + 1;
            }
            None => {}
        }
    }
    Err(JobError::Fault(JobFault {
        kind: FaultKind::NoShowpage,
        at: len,
    }))
}
