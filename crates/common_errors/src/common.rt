ghost use Rattle.std.specs.Prelude.{◌≡◌};
ghost use Rattle.common_errors.specs.CommonErrors.{status_of};

use crate::statuses::{JOB_REFUSED, NOT_READ, NOT_WRITTEN, OUT_OF_MEMORY, PAGE_REFUSED, USAGE};
use page_model::page::PageFault;
use pgm_plates::plate::PlateFault;
use ps_tokens::faults::JobFault;

/// Why a command did not do its work. Plates are numbered from 0 in the order of the words.
#[derive(Clone, Copy, Debug, Drop, PartialEq, Eq)]
pub enum CommonError {
    /// The words are no command of the program.
    Usage,
    /// The job has a fault.
    Job(JobFault),
    /// Some zone is enabled, and the job has no details of this plate's colorant.
    NoDetails(u32),
    /// This plate's file has a fault.
    Plate(u32, PlateFault),
    /// The plates do not make a page.
    Page(PageFault),
    /// This plate could not be read; with `None`, the job.
    Read(Option<u32>),
    /// This plate could not be written; with `None`, the report.
    Write(Option<u32>),
    /// Out of memory.
    Memory,
}

impl CommonError {
    /// The status that a program exits with after this error, one of `crate::statuses`.
    pub fn exit_status(&self) -> u8
        ensures { result ≡ status_of self.now }
    {
        match self {
            CommonError::Usage => USAGE,
            CommonError::Job(_) | CommonError::NoDetails(_) => JOB_REFUSED,
            CommonError::Plate(_, _) | CommonError::Page(_) => PAGE_REFUSED,
            CommonError::Read(_) => NOT_READ,
            CommonError::Write(_) => NOT_WRITTEN,
            CommonError::Memory => OUT_OF_MEMORY,
        }
    }
}
