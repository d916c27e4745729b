//! From a page to its files: trapped by workers, reported, and written.
#![tactic(auto)]

pub mod outcome;
pub mod output;
