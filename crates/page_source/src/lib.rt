//! The sample page that the program makes itself, for trials and tests.
#![tactic(auto)]

pub mod sample;
