//! The tests of what the library for C stands on: rasters and names of any bytes.
#![tactic(auto)]

#[cfg(test)]
mod names;
#[cfg(test)]
mod rasters;
