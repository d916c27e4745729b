//! Laws of plate files, each the contract of an empty function: a caller that calls it has the law.

ghost use Rattle.pgm_plates.specs.Laws.{NotBoth, OnePlate, OneFault, NoPrefix, OneSequence, FaultStays, TurnsBack, PlaneTurnsBack, SpelledReads, PlateOrFault, FilePlate, FileFault, NotBothWithin, OnePlateWithin, OneFaultWithin, NoPrefixWithin, FaultStaysWithin, TurnsBackWithin, SpelledReadsWithin, PlateOrFaultWithin, FilePlateWithin, FileFaultWithin, PageInSheet, TopOfFileWithin};

use crate::bounds::Bounds;

/// A plate file has no fault.
pub fn not_both()
    ensures { NotBoth }
{}

/// A plate file has one plate.
pub fn one_plate()
    ensures { OnePlate }
{}

/// Bytes have at most one fault.
pub fn one_fault()
    ensures { OneFault }
{}

/// No plate file is a proper prefix of another.
pub fn no_prefix()
    ensures { NoPrefix }
{}

/// Bytes are at most one list of plate files, one directly after the other.
pub fn one_sequence()
    ensures { OneSequence }
{}

/// A fault other than an early end stays, whatever bytes are appended.
pub fn fault_stays()
    ensures { FaultStays }
{}

/// Turning a plate into a plane and back gives the plate.
pub fn turns_back()
    ensures { TurnsBack }
{}

/// Turning a plane into a plate and back gives the plane.
pub fn plane_turns_back()
    ensures { PlaneTurnsBack }
{}

/// The canonical encoding of a plate is a plate file of it.
pub fn spelled_reads()
    ensures { SpelledReads }
{}

/// Bytes are a plate file or have a fault.
pub fn plate_or_fault()
    ensures { PlateOrFault }
{}

/// A plate that was read is the one of the whole file, where the tray tells its bytes.
pub fn file_plate()
    ensures { FilePlate }
{}

/// A fault that was answered is the one of the whole file, where the tray tells its bytes.
pub fn file_fault()
    ensures { FileFault }
{}

/// Within any bounds: a plate file has no fault.
pub fn not_both_within(bounds: Bounds)
    ensures { NotBothWithin bounds }
{}

/// Within any bounds: a plate file has one plate.
pub fn one_plate_within(bounds: Bounds)
    ensures { OnePlateWithin bounds }
{}

/// Within any bounds: bytes have at most one fault.
pub fn one_fault_within(bounds: Bounds)
    ensures { OneFaultWithin bounds }
{}

/// Within any bounds: no plate file is a proper prefix of another.
pub fn no_prefix_within(bounds: Bounds)
    ensures { NoPrefixWithin bounds }
{}

/// Within any bounds: a fault other than an early end stays, whatever bytes are appended.
pub fn fault_stays_within(bounds: Bounds)
    ensures { FaultStaysWithin bounds }
{}

/// Within any bounds: turning a plate into a plane and back gives the plate.
pub fn turns_back_within(bounds: Bounds)
    ensures { TurnsBackWithin bounds }
{}

/// Within any bounds: the canonical encoding of a plate is a plate file of it.
pub fn spelled_reads_within(bounds: Bounds)
    ensures { SpelledReadsWithin bounds }
{}

/// Within any bounds: bytes are a plate file or have a fault.
pub fn plate_or_fault_within(bounds: Bounds)
    ensures { PlateOrFaultWithin bounds }
{}

/// Within any bounds: a plate that was read is the one of the whole file, where the tray tells its bytes.
pub fn file_plate_within(bounds: Bounds)
    ensures { FilePlateWithin bounds }
{}

/// Within any bounds: a fault that was answered is the one of the whole file, where the tray tells its bytes.
pub fn file_fault_within(bounds: Bounds)
    ensures { FileFaultWithin bounds }
{}

/// Each plate file within the bounds of a page is one within those of a sheet.
pub fn page_in_sheet()
    ensures { PageInSheet }
{}

/// The rows read so far are the top rows of the plate of the whole file, where the tray tells its bytes.
pub fn top_of_file_within(bounds: Bounds)
    ensures { TopOfFileWithin bounds }
{}
