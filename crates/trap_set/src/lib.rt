//! Trap sets: the traps of a page as a file of their own, as runs of samples with their new tints.
#![tactic(auto)]

mod apply;
mod bytes;
mod holding;
pub mod laws;
mod lines;
mod numbers;
mod planes;
mod samples;
mod set;
mod steps;
mod writing;

pub use apply::{SetError, apply_set};
pub use set::write_set;
