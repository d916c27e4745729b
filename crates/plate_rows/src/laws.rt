//! Laws of reading and writing by rows, each the contract of an empty function: a caller that calls it has the law.

ghost use Rattle.plate_rows.specs.Judged.{JudgingEnds, JudgingStops};
ghost use Rattle.plate_rows.specs.Laws.{EndsError, NoChange, ReadingBegins, ReadingEnds, ReadingGrows, ReadingStops, RowsError, WritingBreaks, WritingEnds, WritingGrows, WritingHolds, WritingLeaves};

use pgm_plates::bounds::Bounds;
use pgm_plates::laws::{file_fault_within, file_plate_within, not_both_within, top_of_file_within};

/// What holds of plates that were checked: of all of them, and of those before one that is refused.
pub fn plates_judged()
    ensures ends { JudgingEnds }
    ensures stops { JudgingStops }
{
    file_plate_within(Bounds::Sheet);
}

/// If the tray tells the bytes of a plate's file, the plate does not change between two readings.
pub fn no_change()
    ensures { NoChange }
{
    file_fault_within(Bounds::Sheet);
    not_both_within(Bounds::Sheet);
    top_of_file_within(Bounds::Sheet);
}

/// What was read of each plate so far: nothing at first, and the next rows more with each call; after all samples the
/// plates are read whole.
pub fn reading_goes_on()
    ensures begins { ReadingBegins }
    ensures grows { ReadingGrows }
    ensures ends { ReadingEnds }
{}

/// What holds if a second reading stops: at the beginning of the plates, at their rows, or at their ends.
pub fn reading_stops()
    ensures begun { ReadingStops }
    ensures rows { RowsError }
    ensures ended { EndsError }
{}

/// What was written of each plate so far: the next rows more with each call, or if that fails a prefix of each file;
/// and the whole when the files are finished.
pub fn writing_goes_on()
    ensures grows { WritingGrows }
    ensures breaks { WritingBreaks }
    ensures ends { WritingEnds }
    ensures leaves { WritingLeaves }
{}

/// What is in a plate's file while it is written: a prefix of its bytes. All other files are unchanged.
pub fn writing_holds()
    ensures { WritingHolds }
{}
