ghost use Rattle.std.specs.Prelude.{◌≡◌, ◌≤◌, length};
ghost use Rattle.common_errors.specs.CommonErrors.{kind_name as kind_spec, named_key as named_spec, plate_fault_name as plate_spec, plate_fault_place as place_of};

use pgm_plates::plate::PlateFault;
use ps_tokens::faults::FaultKind;

/// The name of a kind of fault, with a space after it if a parameter's name follows.
pub(crate) fn kind_name(kind: FaultKind) -> &'static [u8]
    ensures name { result.now ≡ kind_spec kind }
    ensures short { length result.now ≤ 20 }
{
    match kind {
        FaultKind::JobTooLong => b"JobTooLong",
        FaultKind::BadToken => b"BadToken",
        FaultKind::NumberTooLarge => b"NumberTooLarge",
        FaultKind::Unclosed => b"Unclosed",
        FaultKind::Unmatched => b"Unmatched",
        FaultKind::OddDictionary => b"OddDictionary",
        FaultKind::KeyNotName => b"KeyNotName",
        FaultKind::NameInside => b"NameInside",
        FaultKind::TooDeep => b"TooDeep",
        FaultKind::UnknownOperator => b"UnknownOperator",
        FaultKind::WrongOperands => b"WrongOperands",
        FaultKind::WrongKind(_) => b"WrongKind ",
        FaultKind::OutOfRange(_) => b"OutOfRange ",
        FaultKind::NotDictionary => b"NotDictionary",
        FaultKind::MissingKey => b"MissingKey",
        FaultKind::WrongType => b"WrongType",
        FaultKind::BadDensity => b"BadDensity",
        FaultKind::BadKind => b"BadKind",
        FaultKind::BadResolution => b"BadResolution",
        FaultKind::NoCurrentPoint => b"NoCurrentPoint",
        FaultKind::CoordinateRange => b"CoordinateRange",
        FaultKind::TooManyVertices => b"TooManyVertices",
        FaultKind::TooManyZones => b"TooManyZones",
        FaultKind::NoPageDevice => b"NoPageDevice",
        FaultKind::NoShowpage => b"NoShowpage",
        FaultKind::AfterShowpage => b"AfterShowpage",
    }
}

/// The name of the parameter that a fault is about, empty if there is none.
pub(crate) fn named_key(kind: FaultKind) -> &'static [u8]
    ensures name { result.now ≡ named_spec kind }
    ensures short { length result.now ≤ 20 }
{
    match kind {
        FaultKind::WrongKind(key) | FaultKind::OutOfRange(key) => key.name(),
        _ => b"",
    }
}

pub(crate) fn plate_fault_name(fault: PlateFault) -> &'static [u8]
    ensures name { result.now ≡ plate_spec fault }
    ensures short { length result.now ≤ 20 }
{
    match fault {
        PlateFault::BadMagic(_) => b"BadMagic",
        PlateFault::BadHeader(_) => b"BadHeader",
        PlateFault::SideRange(_) => b"SideRange",
        PlateFault::TooManySamples(_) => b"TooManySamples",
        PlateFault::MaxvalRange(_) => b"MaxvalRange",
        PlateFault::SampleAboveMaxval(_) => b"SampleAboveMaxval",
        PlateFault::Truncated(_) => b"Truncated",
        PlateFault::TrailingBytes(_) => b"TrailingBytes",
    }
}

/// The offset that a plate's fault has.
pub(crate) fn plate_fault_place(fault: PlateFault) -> u64
    ensures { result ≡ place_of fault }
{
    match fault {
        PlateFault::BadMagic(at)
        | PlateFault::BadHeader(at)
        | PlateFault::SideRange(at)
        | PlateFault::TooManySamples(at)
        | PlateFault::MaxvalRange(at)
        | PlateFault::SampleAboveMaxval(at)
        | PlateFault::Truncated(at)
        | PlateFault::TrailingBytes(at) => at,
    }
}
