//! Laws of the verdict on a sheet: each is the contract of a function that does nothing.

ghost use Rattle.sheet_files.specs.Rereading.{SheetIsReread};
ghost use Rattle.sheet_files.specs.Verdicts.{OneSheetVerdict, SomeSheetVerdict};

use pgm_plates::bounds::Bounds;
use pgm_plates::laws::{
    not_both_within, one_fault_within, one_plate_within, plate_or_fault_within, top_of_file_within,
};

/// The bytes of a sheet's files have at most one verdict.
pub fn one_sheet_verdict()
    ensures { OneSheetVerdict }
{
    not_both_within(Bounds::Sheet);
    one_plate_within(Bounds::Sheet);
    one_fault_within(Bounds::Sheet);
}

/// If the job and all plates have files, there is a verdict.
pub fn some_sheet_verdict()
    ensures { SomeSheetVerdict }
{
    plate_or_fault_within(Bounds::Sheet);
}

/// Whatever was read of a sheet's plates a second time is the beginning of a sheet: of the one that was checked, if the
/// trays tell their bytes.
pub fn sheet_is_reread()
    ensures { SheetIsReread }
{
    top_of_file_within(Bounds::Sheet);
}
