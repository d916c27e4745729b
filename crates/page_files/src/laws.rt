//! Laws of the verdict: each is the contract of a function that does nothing.

ghost use Rattle.page_files.specs.Inputs.{one_page};
ghost use Rattle.page_files.specs.Verdicts.{OneVerdict, SomeVerdict};

use pgm_plates::laws::{not_both, one_fault, one_plate, plate_or_fault};

/// The bytes of a page's files have at most one verdict.
pub fn one_verdict()
    ensures { OneVerdict one_page }
{
    not_both();
    one_plate();
    one_fault();
}

/// If the job and all plates are among the files, there is a verdict.
pub fn some_verdict()
    ensures { SomeVerdict one_page }
{
    plate_or_fault();
}
