ghost use Rattle.page_files.specs.Steps.{ReadsJob, Judges};

use common_errors::common::CommonError;
use job_reader::job::Job;
use job_reader::reader::read_job;
use outside::reading::{ReadError, read_file};
use outside::tray::Tray;
use ps_tokens::LONGEST_JOB;
use ps_tokens::faults::JobError;
use std::alloc::Global;

/// The number of bytes of a job that are read at most: one more than a job may have.
pub const MOST_JOB: u32 = LONGEST_JOB as u32 + 1;

/// Reads the job of that name: all its bytes, but at most one more than a job may have. Its errors are a read that
/// fails, the job's fault, and out of memory.
pub fn read_job_file<T: Tray>(alloc: Global, tray: &mut T, name: &str) -> Result<Job, CommonError>
    ensures { ReadsJob name.now (T.state tray.old) (T.state tray.new) result }
{
    match read_file(alloc, tray, name, MOST_JOB) {
        Ok(bytes) => job_or_error(read_job(alloc, bytes.as_slice())),
        Err(ReadError::ReadFault) => Err(CommonError::Read(None)),
        Err(ReadError::OutOfMemory) => Err(CommonError::Memory),
    }
}

fn job_or_error(read: Result<Job, JobError>) -> Result<Job, CommonError>
    ensures { Judges read result }
{
    match read {
        Ok(job) => Ok(job),
        Err(JobError::Fault(fault)) => Err(CommonError::Job(fault)),
        Err(JobError::OutOfMemory) => Err(CommonError::Memory),
    }
}
