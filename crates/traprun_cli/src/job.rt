ghost use Rattle.traprun_cli.specs.Reading.{JudgesRun, ReadsRunJob};

use crate::error::TraprunError;
use common_errors::common::CommonError;
use job_pages::many::ManyPages;
use job_pages::run::RunError;
use lists::names::Name;
use outside::reading::{ReadError, read_file};
use outside::tray::Tray;
use page_files::job::MOST_JOB;
use ps_tokens::LONGEST_JOB;
use ps_tokens::faults::{FaultKind, JobFault};
use std::alloc::Global;

/// Reads the job of that name: all its bytes, but at most one more than a job may have; and finds its pages.
pub(crate) fn read_run_job<T: Tray>(
    alloc: Global,
    tray: &mut T,
    name: &str,
) -> Result<ManyPages, TraprunError>
    ensures { ReadsRunJob name.now (T.state tray.old) (T.state tray.new) result }
{
    match read_file(alloc, tray, name, MOST_JOB) {
        Ok(bytes) => pages_or_error(alloc, bytes),
        Err(ReadError::ReadFault) => Err(TraprunError::Whole(CommonError::Read(None))),
        Err(ReadError::OutOfMemory) => Err(TraprunError::Whole(CommonError::Memory)),
    }
}

// The pages of a job of these bytes, or its first error.
fn pages_or_error(alloc: Global, bytes: Name) -> Result<ManyPages, TraprunError>
    ensures { JudgesRun bytes result }
{
    if bytes.len() > LONGEST_JOB {
        return Err(TraprunError::Whole(CommonError::Job(JobFault {
            kind: FaultKind::JobTooLong,
            at: LONGEST_JOB as u32,
        })));
    }
    match ManyPages::new(alloc, bytes) {
        Ok(job) => Ok(job),
        Err(RunError::Fault(fault)) => Err(TraprunError::Whole(CommonError::Job(fault))),
        Err(RunError::TooManyPages(at)) => Err(TraprunError::TooManyPages(at)),
        Err(RunError::OutOfMemory) => Err(TraprunError::Whole(CommonError::Memory)),
    }
}
