ghost use Rattle.std.specs.Prelude.{◌≡◌, ◌≤◌, filter, length, option_copied, IfOk, Ok};
ghost use Rattle.ps_tokens.specs.Dictionaries.{AreObjects};
ghost use Rattle.ps_tokens.specs.Limits.{longest_job};
ghost use Rattle.ps_tokens.specs.Objects.{objects_of};
ghost use Rattle.ps_tokens.specs.Tokens.{tokens_of};
ghost use Rattle.job_pages.specs.StatementSpans.{shows};
ghost use Rattle.job_pages.specs.Runs.{GivesRun, IsRun, count_of, end_fault, run_from, run_of, run_error};

use crate::statement_spans::{StatementSpan, StatementSpanList, statement_spans};
use lists::list::List;
use lists::names::OutOfMemory;
use ps_tokens::faults::{FaultKind, JobError, JobFault};
use ps_tokens::object::ObjectList;
use ps_tokens::token::TokenList;
use ps_tokens::{objects, tokens};
use std::alloc::Global;

/// The greatest number of pages of a job.
pub const MOST_PAGES: usize = 256;

/// Why a job of many pages was not read.
#[derive(Clone, Copy, Debug, Drop, PartialEq, Eq)]
pub enum RunError {
    /// The job as a whole has a fault.
    Fault(JobFault),
    /// The 257th `showpage` stands at this offset.
    TooManyPages(u32),
    OutOfMemory,
}

/// A job of many pages: its statements, and those of them that end its pages.
#[derive(Drop)]
pub struct Run {
    pub spans: StatementSpanList,
    pub shown: StatementSpanList,
}

/// The number of pages of a job: one for each `showpage`, at most `MOST_PAGES`. The job has at most
/// `ps_tokens::LONGEST_JOB` bytes.
///
/// The faults of the whole job's tokens come first, then those of its objects; then `NoShowpage` where there is no page,
/// `AfterShowpage` at the first object after the last page, and `TooManyPages`.
pub fn page_count(alloc: Global, bytes: &[u8]) -> Result<u32, RunError>
    requires { length bytes.now ≤ longest_job }
    ensures { GivesRun result (count_of bytes.now) }
{
    let run = read_run(alloc, bytes)?;
    Ok(run.shown.len() as u32)
}

/// Reads the statements of a job of many pages, with the errors of `page_count`.
#[tactic(auto, unfolding(crate::specs::Runs::run_of))]
pub fn read_run(alloc: Global, bytes: &[u8]) -> Result<Run, RunError>
    requires { length bytes.now ≤ longest_job }
    ensures { IsRun result (run_of bytes.now) }
{
    match tokens(alloc, bytes) {
        Ok(found) => run_of_tokens(alloc, bytes, &found),
        Err(JobError::Fault(fault)) => Err(RunError::Fault(fault)),
        Err(JobError::OutOfMemory) => Err(RunError::OutOfMemory),
    }
}

fn run_of_tokens(alloc: Global, bytes: &[u8], tokens: &TokenList) -> Result<Run, RunError>
    requires size { length bytes.now ≤ longest_job }
    requires of_bytes { tokens_of bytes.now ≡ Ok tokens.now }
    ensures { IsRun result (run_from (length bytes.now) (objects_of bytes.now tokens.now)) }
{
    match objects(alloc, bytes, tokens) {
        Ok(found) => run_of_objects(alloc, bytes.len() as u32, &found),
        Err(JobError::Fault(fault)) => Err(RunError::Fault(fault)),
        Err(JobError::OutOfMemory) => Err(RunError::OutOfMemory),
    }
}

fn run_of_objects(alloc: Global, len: u32, objects: &ObjectList) -> Result<Run, RunError>
    requires { AreObjects objects.now }
    ensures { IsRun result (run_from len (Ok objects.now)) }
{
    let Ok(spans) = statement_spans(alloc, objects) else {
        return Err(RunError::OutOfMemory);
    };
    let Ok(shown) = showpages_among(alloc, spans.as_slice()) else {
        return Err(RunError::OutOfMemory);
    };
    match run_error(len, objects, shown.as_slice()) {
        Some(error) => Err(error),
        None => Ok(Run { spans, shown }),
    }
}

// The statements that end pages.
fn showpages_among(alloc: Global, spans: &[StatementSpan]) -> Result<StatementSpanList, OutOfMemory>
    ensures { IfOk result (λ found. found ≡ filter shows spans.now) }
{
    let mut found = List::new(alloc);
    for span in spans {
        if span.shows() && found.push(*span).is_err() {
            return Err(OutOfMemory);
        }
    }
    Ok(found)
}

fn run_error(len: u32, objects: &ObjectList, shown: &[StatementSpan]) -> Option<RunError>
    ensures { result ≡ run_error len objects.now shown.now }
{
    match end_fault(len, objects, shown.last()) {
        Some(fault) => Some(RunError::Fault(fault)),
        None => match shown.get(MOST_PAGES) {
            Some(span) => Some(RunError::TooManyPages(span.at)),
            None => None,
        },
    }
}

// What is wrong at the job's end, after its last page.
fn end_fault(len: u32, objects: &ObjectList, last: Option<&StatementSpan>) -> Option<JobFault>
    ensures { result ≡ end_fault len objects.now (option_copied last.entry) }
{
    match last {
        None => Some(JobFault {
            kind: FaultKind::NoShowpage,
            at: len,
        }),
        Some(span) => match objects.get(span.place as usize + 1) {
            Some(object) => Some(JobFault {
                kind: FaultKind::AfterShowpage,
                at: object.at,
            }),
            None => None,
        },
    }
}
