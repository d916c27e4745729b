ghost use Rattle.std.specs.Prelude.{◌≡◌, ◌≤◌, length};
ghost use Rattle.trap_c.specs.Errors.{status_of_error, line_of_error, line_of_call};

use common_errors::common::CommonError;
use common_errors::line::Line;
use common_errors::statuses::{PAGE_REFUSED, USAGE};

/// What is wrong with the arguments of a call.
#[derive(Clone, Copy, Debug, Drop, PartialEq, Eq)]
pub enum CallFault {
    /// The names are not 1 to 16 names of colorants, separated by LF, or two of them are the same.
    Names,
    /// A side is 0 or above 16,384, or a plane has more than 160,000,000 samples.
    Sides,
    /// The rows would overlap: there are fewer samples from row to row than a row has.
    Step,
    /// The maxval is 0, or above what the samples' type holds.
    Maxval,
    /// The number of samples is not what the names, the height and the step give.
    Samples,
    /// The window is not within the sheet, or its core empty or not within the window; the halo is too small; or the
    /// job has zones and the window's corner is not at a multiple of the step.
    Place,
    /// The caller gives a struct another size than the library has for it.
    Size,
    /// The handle is open, where a job is to be opened; or not open, where one is needed.
    Handle,
}

/// Why a call leaves the planes unchanged.
#[derive(Clone, Copy, Debug, Drop, PartialEq, Eq)]
pub enum CallError {
    /// The arguments are wrong.
    Call(CallFault),
    /// The job or the page is refused, or there is too little memory.
    Page(CommonError),
    /// This zone has a vertex too far from the window's corner.
    Far(u32),
}

impl CallError {
    /// The status that a call returns for this error.
    pub fn exit_status(&self) -> u8
        ensures { result ≡ status_of_error self.now }
    {
        match self {
            CallError::Call(_) => USAGE,
            CallError::Page(common_error) => common_error.exit_status(),
            CallError::Far(_) => PAGE_REFUSED,
        }
    }

    /// The line that a call writes to the text for this error.
    pub fn line(&self) -> Line
        ensures { result ≡ line_of_error self.now }
    {
        match self {
            CallError::Call(fault) => call_line(*fault),
            CallError::Page(common_error) => common_error.line(),
            CallError::Far(zone) => Line::of_number(b"sheet: Far in zone ", *zone),
        }
    }
}

fn call_line(fault: CallFault) -> Line
    ensures { result ≡ line_of_call fault }
{
    match fault {
        CallFault::Names => Line::of_text(b"call: Names"),
        CallFault::Sides => Line::of_text(b"call: Sides"),
        CallFault::Step => Line::of_text(b"call: Step"),
        CallFault::Maxval => Line::of_text(b"call: Maxval"),
        CallFault::Samples => Line::of_text(b"call: Samples"),
        CallFault::Place => Line::of_text(b"call: Place"),
        CallFault::Size => Line::of_text(b"call: Size"),
        CallFault::Handle => Line::of_text(b"call: Handle"),
    }
}
