// An error in numbers, for C.

ghost use Rattle.std.specs.Prelude.{◌≡◌, ◌≢◌};
ghost use Rattle.common_errors.specs.CommonErrors.{plate_fault_place as place_spec};
ghost use Rattle.common_errors.specs.Statuses.{done as done_status};
ghost use Rattle.trap_c.specs.Errors.{status_of_error};
ghost use Rattle.trap_c.specs.declared.error.CallError.TheVariants.{Call};
ghost use Rattle.trap_c.specs.declared.error.CallFault.TheVariants.{Size};
ghost use Rattle.trap_c.specs.ErrorRecords.{error_of as error_spec, is_sized as is_sized_spec, kind_of as kind_spec, kind_of_call, kind_of_common, kind_of_fault, kind_of_page, kind_of_plate, name_of as name_spec, name_of_fault, no_error as no_error_spec, number_of_key, number_or, offset_of as offset_spec, plate_of as plate_spec, plate_of_common, plate_of_page, said_of, zone_of as zone_spec, zone_of_page};

use crate::error::{CallError, CallFault};
use common_errors::common::CommonError;
use common_errors::statuses::DONE;
use page_model::page::PageFault;
use pgm_plates::plate::PlateFault;
use ps_tokens::faults::FaultKind;
use ps_tokens::parameters::Key;

/// What a call says of its error: C's `struct trap_error`. `NO_NUMBER` and `NO_OFFSET` stand for what the error's line
/// does not name.
#[repr(C)]
#[derive(Drop)]
pub struct ErrorRecord {
    pub size: u32,
    pub status: u32,
    pub kind: u32,
    pub plate: u32,
    pub zone: u32,
    pub name: u32,
    pub offset: u64,
    pub rows: u64,
}

/// The bytes that C's struct has.
const ERROR_SIZE: u32 = 40;

const NO_NUMBER: u32 = 4_294_967_295;

const NO_OFFSET: u64 = 18_446_744_073_709_551_615;

fn kind_of_call_fault(fault: CallFault) -> u32
    ensures { result ≡ kind_of_call fault }
{
    match fault {
        CallFault::Size => 202,
        CallFault::Handle => 203,
        CallFault::Names => 204,
        CallFault::Sides => 205,
        CallFault::Step => 206,
        CallFault::Maxval => 207,
        CallFault::Samples => 208,
        CallFault::Place => 209,
    }
}

fn kind_of_job_fault(kind: FaultKind) -> u32
    ensures { result ≡ kind_of_fault kind }
{
    match kind {
        FaultKind::JobTooLong => 301,
        FaultKind::BadToken => 302,
        FaultKind::NumberTooLarge => 303,
        FaultKind::Unclosed => 304,
        FaultKind::Unmatched => 305,
        FaultKind::OddDictionary => 306,
        FaultKind::KeyNotName => 307,
        FaultKind::NameInside => 308,
        FaultKind::TooDeep => 309,
        FaultKind::WrongKind(_) => 310,
        FaultKind::OutOfRange(_) => 311,
        FaultKind::NotDictionary => 312,
        FaultKind::MissingKey => 313,
        FaultKind::WrongType => 314,
        FaultKind::BadDensity => 315,
        FaultKind::BadKind => 316,
        FaultKind::BadResolution => 317,
        FaultKind::UnknownOperator => 318,
        FaultKind::WrongOperands => 319,
        FaultKind::NoCurrentPoint => 320,
        FaultKind::CoordinateRange => 321,
        FaultKind::TooManyVertices => 322,
        FaultKind::TooManyZones => 323,
        FaultKind::NoPageDevice => 324,
        FaultKind::AfterShowpage => 325,
        FaultKind::NoShowpage => 326,
    }
}

fn kind_of_plate_fault(fault: PlateFault) -> u32
    ensures { result ≡ kind_of_plate fault }
{
    match fault {
        PlateFault::SampleAboveMaxval(_) => 401,
        PlateFault::BadMagic(_) => 411,
        PlateFault::BadHeader(_) => 412,
        PlateFault::SideRange(_) => 413,
        PlateFault::TooManySamples(_) => 414,
        PlateFault::MaxvalRange(_) => 415,
        PlateFault::Truncated(_) => 416,
        PlateFault::TrailingBytes(_) => 417,
    }
}

fn kind_of_page_fault(fault: PageFault) -> u32
    ensures { result ≡ kind_of_page fault }
{
    match fault {
        PageFault::SizeDiffers(_) => 402,
        PageFault::MaxvalDiffers(_) => 403,
        PageFault::TooManySamples => 404,
        PageFault::ReachTooWide(_) => 405,
    }
}

fn kind_of_common_error(error: CommonError) -> u32
    ensures { result ≡ kind_of_common error }
{
    match error {
        CommonError::Usage => 210,
        CommonError::Job(fault) => kind_of_job_fault(fault.kind),
        CommonError::NoDetails(_) => 327,
        CommonError::Plate(_, fault) => kind_of_plate_fault(fault),
        CommonError::Page(fault) => kind_of_page_fault(fault),
        CommonError::Read(_) => 501,
        CommonError::Write(_) => 601,
        CommonError::Memory => 701,
    }
}

fn kind_of(error: CallError) -> u32
    ensures { result ≡ kind_spec error }
{
    match error {
        CallError::Call(fault) => kind_of_call_fault(fault),
        CallError::Page(common_error) => kind_of_common_error(common_error),
        CallError::Far(_) => 406,
    }
}

fn or_no_number(file: Option<u32>) -> u32
    ensures { result ≡ number_or file }
{
    match file {
        Some(plate) => plate,
        None => NO_NUMBER,
    }
}

fn plate_of_page_fault(fault: PageFault) -> u32
    ensures { result ≡ plate_of_page fault }
{
    match fault {
        PageFault::SizeDiffers(plate) | PageFault::MaxvalDiffers(plate) => plate,
        PageFault::TooManySamples | PageFault::ReachTooWide(_) => NO_NUMBER,
    }
}

fn plate_of_common_error(error: CommonError) -> u32
    ensures { result ≡ plate_of_common error }
{
    match error {
        CommonError::NoDetails(plate) | CommonError::Plate(plate, _) => plate,
        CommonError::Page(fault) => plate_of_page_fault(fault),
        CommonError::Read(file) | CommonError::Write(file) => or_no_number(file),
        CommonError::Usage | CommonError::Job(_) | CommonError::Memory => NO_NUMBER,
    }
}

fn plate_of(error: CallError) -> u32
    ensures { result ≡ plate_spec error }
{
    match error {
        CallError::Page(common_error) => plate_of_common_error(common_error),
        CallError::Call(_) | CallError::Far(_) => NO_NUMBER,
    }
}

fn zone_of_page_fault(fault: PageFault) -> u32
    ensures { result ≡ zone_of_page fault }
{
    match fault {
        PageFault::ReachTooWide(zone) => zone,
        _ => NO_NUMBER,
    }
}

fn zone_of(error: CallError) -> u32
    ensures { result ≡ zone_spec error }
{
    match error {
        CallError::Page(CommonError::Page(fault)) => zone_of_page_fault(fault),
        CallError::Far(zone) => zone,
        _ => NO_NUMBER,
    }
}

fn number_of(key: Key) -> u32
    ensures { result ≡ number_of_key key }
{
    match key {
        Key::TrapWidth => 1,
        Key::BlackWidth => 2,
        Key::BlackColorLimit => 3,
        Key::BlackDensityLimit => 4,
        Key::StepLimit => 5,
        Key::SlidingTrapLimit => 6,
        Key::TrapColorScaling => 7,
        Key::Enabled => 8,
        Key::Trapping => 9,
    }
}

fn name_of_job_fault(kind: FaultKind) -> u32
    ensures { result ≡ name_of_fault kind }
{
    match kind {
        FaultKind::WrongKind(key) | FaultKind::OutOfRange(key) => number_of(key),
        _ => NO_NUMBER,
    }
}

fn name_of(error: CallError) -> u32
    ensures { result ≡ name_spec error }
{
    match error {
        CallError::Page(CommonError::Job(fault)) => name_of_job_fault(fault.kind),
        _ => NO_NUMBER,
    }
}

fn place_of(fault: PlateFault) -> u64
    ensures { result ≡ place_spec fault }
{
    match fault {
        PlateFault::SampleAboveMaxval(at)
        | PlateFault::BadMagic(at)
        | PlateFault::BadHeader(at)
        | PlateFault::SideRange(at)
        | PlateFault::TooManySamples(at)
        | PlateFault::MaxvalRange(at)
        | PlateFault::Truncated(at)
        | PlateFault::TrailingBytes(at) => at,
    }
}

fn offset_of(error: CallError) -> u64
    ensures { result ≡ offset_spec error }
{
    match error {
        CallError::Page(CommonError::Job(fault)) => u64::from(fault.at),
        CallError::Page(CommonError::Plate(_, fault)) => place_of(fault),
        _ => NO_OFFSET,
    }
}

impl ErrorRecord {
    /// What a call that is done says.
    fn none() -> ErrorRecord
        ensures { result ≡ no_error_spec }
    {
        ErrorRecord {
            size: ERROR_SIZE,
            status: u32::from(DONE),
            kind: 0,
            plate: NO_NUMBER,
            zone: NO_NUMBER,
            name: NO_NUMBER,
            offset: NO_OFFSET,
            rows: 0,
        }
    }

    /// What a call says of an error.
    fn of(error: &CallError) -> ErrorRecord
        ensures { result ≡ error_spec error.now }
    {
        ErrorRecord {
            size: ERROR_SIZE,
            status: u32::from(error.exit_status()),
            kind: kind_of(*error),
            plate: plate_of(*error),
            zone: zone_of(*error),
            name: name_of(*error),
            offset: offset_of(*error),
            rows: 0,
        }
    }

    /// Whether the caller's struct has the size of the library's.
    pub fn is_sized(&self) -> bool
        ensures { result ≡ is_sized_spec self.now }
    {
        self.size == ERROR_SIZE
    }

    /// Says that a call is done, and returns the status. The caller's struct has the right size.
    pub fn say_done(&mut self) -> u8
        ensures said { self.new ≡ no_error_spec }
        ensures status { result ≡ done_status }
    {
        *self = ErrorRecord::none();
        DONE
    }

    /// Says why a call failed, unless the caller's struct has another size, and returns the status.
    pub fn say(&mut self, error: &CallError) -> u8
        ensures said { self.new ≡ said_of self.old error.now }
        ensures status { result ≡ status_of_error error.now }
        ensures refused { result ≢ done_status }
    {
        if self.is_sized() {
            *self = ErrorRecord::of(error);
        }
        error.exit_status()
    }

    /// Says that a struct of the caller has another size, and returns the status.
    pub fn say_size(&mut self) -> u8
        ensures said { self.new ≡ said_of self.old (Call Size) }
        ensures status { result ≡ status_of_error (Call Size) }
        ensures refused { result ≢ done_status }
    {
        self.say(&CallError::Call(CallFault::Size))
    }
}
