// Laws over the definitions: each function does nothing, and its contract is the law.

ghost use Rattle.sheet_stream.specs.OnSheet.{StripIsBroken, StripIsCounted, StripIsWritten};

/// What is written and counted of a strip's core is written and counted of the sheet; if the writing fails, a row of
/// the sheet is not written.
pub fn strip_is_put()
    ensures written { StripIsWritten }
    ensures broken { StripIsBroken }
    ensures counted { StripIsCounted }
{}
