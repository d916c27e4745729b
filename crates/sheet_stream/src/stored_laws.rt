// Laws over the definitions: each function does nothing, and its contract is the law.

ghost use Rattle.sheet_stream.specs.Growing.{AllAreNew, NewGrow};
ghost use Rattle.sheet_stream.specs.Holding.{HoldsStrip, NextAreStored, NoneAreStored};
ghost use Rattle.sheet_stream.specs.RowReading.{FirstIsRead, NextIsRead};
ghost use Rattle.sheet_stream.specs.Reports.{ReportIsOutline};
ghost use Rattle.sheet_stream.specs.StoredStrips.{StripIsMade, StripsHaveForm, TurnedIsStrip};
ghost use Rattle.sheet_stream.specs.Writing.{PartStands, RowIsWritten};

/// The rows in memory are those of the strip, for each sheet that begins with what was read.
pub fn strip_is_stored()
    ensures { HoldsStrip }
{}

/// A strip whose planes have its rows is the sheet's strip.
pub fn strip_is_made()
    ensures { StripIsMade }
{}

/// The rows that are kept, and those that are read after them, are the rows of the next strip; and all rows of the
/// first strip are read.
pub fn next_are_stored()
    ensures first { NoneAreStored }
    ensures next { NextAreStored }
{}

/// The written rows of new tints grow by a row of a core at a time, up to all of them.
pub fn new_tints_grow()
    ensures grow { NewGrow }
    ensures all { AllAreNew }
{}

/// The rows of the first strip are read, and after the rows of a strip those of the next one, and kept in memory.
pub fn strips_are_read()
    ensures first { FirstIsRead }
    ensures next { NextIsRead }
{}

/// With each row of every plate one row more of new tints is written; and what is written of a plate so far is a prefix
/// of it.
pub fn rows_are_written()
    ensures grow { RowIsWritten }
    ensures part { PartStands }
{}

/// The report of a sheet depends on all of it but its tints.
pub fn report_is_outline()
    ensures { ReportIsOutline }
{}

/// A strip that is moved to other rows, as many, is the strip of those; and the zones of all strips have one form.
pub fn strips_turn()
    ensures turned { TurnedIsStrip }
    ensures form { StripsHaveForm }
{}
