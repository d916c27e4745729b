//! The tests of the crates that the trapping rule is worked out in, row by row. They stand apart so that none of these crates
//! is proved a second time for them.
#![tactic(auto)]

#[cfg(test)]
mod columns;
#[cfg(test)]
mod envelopes;
#[cfg(test)]
mod parameters;
#[cfg(test)]
mod samples;
#[cfg(test)]
mod widths;
#[cfg(test)]
mod zones;
