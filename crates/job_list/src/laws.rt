//! Laws of lists: each is the contract of a function that does nothing.

ghost use Rattle.std.specs.Prelude.{ℕ, List};
ghost use Rattle.job_list.specs.Lists.{HasReading, OneReading};

/// Bytes are a list, or have a first bad line.
pub fn some_reading()
    ensures { (bytes : List ℕ) → HasReading bytes }
{}

/// Bytes that are a list have no bad line, and are a list of no other jobs. Bytes have at most one first bad line.
pub fn one_reading()
    ensures { OneReading }
{}
