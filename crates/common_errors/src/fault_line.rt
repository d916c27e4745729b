ghost use Rattle.std.specs.Prelude.{◌≡◌, ◌≤◌, ◌++◌, length, decimal};
ghost use Rattle.common_errors.specs.Lines.{line};
ghost use Rattle.common_errors.specs.CommonErrors.{line_of, numbered_line as numbered_line_of, job_line as job_spec, plate_fault_line as plate_spec, page_fault_line as page_spec};

use crate::common::CommonError;
use crate::kind_names::{kind_name, named_key, plate_fault_name, plate_fault_place};
use crate::line::Line;
use page_model::page::PageFault;
use pgm_plates::plate::PlateFault;
use ps_tokens::faults::JobFault;

impl CommonError {
    /// The line that is printed for this error, its LF included: fewer than 160 bytes. It allocates nothing. The form
    /// is this project's own.
    pub fn line(&self) -> Line
        ensures { result ≡ line_of self.now }
    {
        short_line(self)
    }

    /// The line of this error of one page of many: the page's number, counted from 0, and the error's line.
    pub fn numbered_line(&self, page: u32) -> Line
        ensures { result ≡ numbered_line_of page self.now }
    {
        let mut reported = Line::new();
        reported.push(b"page ");
        reported.push_number(page as u64);
        reported.push(b": ");
        reported.push(short_line(self).as_slice());
        reported
    }
}

// The line of an error, short enough for a page's number before it.
fn short_line(error: &CommonError) -> Line
    ensures value { result ≡ line_of error.now }
    ensures short { length result ≤ 113 }
{
    match error {
        CommonError::Usage => Line::of_text(
            b"usage: trap page [--workers N] [--band B] JOB REPORT NAME:IN:OUT ... | trap sample NUMBER WIDTH HEIGHT WORKERS",
        ),
        CommonError::Job(fault) => job_line(fault),
        CommonError::NoDetails(plate) => Line::of_number(b"job: NoDetails for plate ", *plate),
        CommonError::Plate(plate, fault) => plate_fault_line(*plate, fault),
        CommonError::Page(fault) => page_fault_line(fault),
        CommonError::Read(None) => Line::of_text(b"read fault: job"),
        CommonError::Read(Some(plate)) => Line::of_number(b"read fault: plate ", *plate),
        CommonError::Write(None) => Line::of_text(b"write fault: report"),
        CommonError::Write(Some(plate)) => Line::of_number(b"write fault: plate ", *plate),
        CommonError::Memory => Line::of_text(b"out of memory"),
    }
}

fn job_line(fault: &JobFault) -> Line
    ensures value { result ≡ job_spec fault.now }
    ensures short { length result ≤ 113 }
{
    let mut reported = Line::new();
    reported.push(b"job: ");
    reported.push(kind_name(fault.kind));
    reported.push(named_key(fault.kind));
    reported.push(b" at ");
    reported.push_number(fault.at as u64);
    reported.push(b"\n");
    reported
}

fn plate_fault_line(plate: u32, fault: &PlateFault) -> Line
    ensures value { result ≡ plate_spec plate fault.now }
    ensures short { length result ≤ 113 }
{
    let mut reported = Line::new();
    reported.push(b"plate ");
    reported.push_number(plate as u64);
    reported.push(b": ");
    reported.push(plate_fault_name(*fault));
    reported.push(b" at ");
    reported.push_number(plate_fault_place(*fault));
    reported.push(b"\n");
    reported
}

fn page_fault_line(fault: &PageFault) -> Line
    ensures value { result ≡ page_spec fault.now }
    ensures short { length result ≤ 113 }
{
    match fault {
        PageFault::SizeDiffers(plate) => Line::of_number(b"page: SizeDiffers plate ", *plate),
        PageFault::MaxvalDiffers(plate) => Line::of_number(b"page: MaxvalDiffers plate ", *plate),
        PageFault::TooManySamples => Line::of_text(b"page: TooManySamples"),
        PageFault::ReachTooWide(zone) => Line::of_number(b"page: ReachTooWide zone ", *zone),
    }
}
