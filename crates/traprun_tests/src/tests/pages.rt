use super::{DARKER_SIDE, DISABLED, INKS, Pieces, WIDE, judge};
use job_pages::page::page_job;
use job_pages::run::page_count;
use job_reader::job::Job;
use ps_tokens::LONGEST_JOB;
use ps_tokens::faults::{FaultKind, JobError, JobFault};
use std::alloc::Global;
use std::process::Abort;

// The trap width and the sliding limit of a page's zone 0, in ten-thousandths; or the fault of its job.
type Limits = Result<(u32, u32), JobFault>;

// The pieces of a job, how many pages it has, and of a page what it begins with, `None` where there is no such page.
const PAGES: &[(Pieces<'static>, u32, u32, Option<Limits>)] = &[
    (&[INKS, WIDE, DARKER_SIDE], 2, 0, Some(Ok((20_000, 7_000)))),
    (&[INKS, WIDE, DARKER_SIDE], 2, 1, Some(Ok((20_000, 10_000)))),
    (&[INKS, WIDE, DARKER_SIDE], 2, 2, None),
    (&[DISABLED, b" 5 showpage"], 2, 0, Some(Ok((2_500, 7_000)))),
    (
        &[DISABLED, b" 5 showpage"],
        2,
        1,
        Some(Err(JobFault {
            kind: FaultKind::WrongOperands,
            at: 46,
        })),
    ),
];

fn limits_of(job: &Job) -> Option<(u32, u32)> {
    let zone = job.zones.get(0)?;
    Some((zone.params.trap_width, zone.params.sliding_trap_limit))
}

fn limits_in(job: Job) -> Option<(u32, u32)> {
    limits_of(&job)
}

// What the job of that page says; `None` where it has no such page.
fn page_limits(alloc: Global, job: &[u8], page: u32) -> Option<Limits> {
    if job.len() > LONGEST_JOB {
        return None;
    }
    match page_count(alloc, job) {
        Ok(count) if page < count => match page_job(alloc, job, page) {
            Ok(read) => Some(Ok(limits_in(read)?)),
            Err(JobError::Fault(fault)) => Some(Err(fault)),
            Err(JobError::OutOfMemory) => None,
        },
        _ => None,
    }
}

// How many pages a job has.
fn count_of(alloc: Global, job: &[u8]) -> Option<u32> {
    if job.len() > LONGEST_JOB {
        return None;
    }
    page_count(alloc, job).ok()
}

// Whether the job of these pieces has that number of pages, and that page of it says this.
fn says(
    rt: &impl Abort,
    alloc: Global,
    (pieces, count, page, limits): (Pieces<'_>, u32, u32, Option<Limits>),
) -> bool {
    let job = pieces.concat(alloc).expect(rt, "no memory");
    count_of(alloc, &job) == Some(count) && page_limits(alloc, &job, page) == limits
}

#[test]
fn each_page_has_its_own_job(rt: HostRuntime) {
    for (row, page) in PAGES.iter().enumerate() {
        judge(&rt, says(&rt, rt.alloc(), *page), "row", row as u64);
    }
}
