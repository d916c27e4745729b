//! A list of jobs: a line for each, with the files that it reads and those that it writes.
#![tactic(auto)]

pub mod laws;
pub mod line;
mod outputs;
pub mod reading;
mod words;
