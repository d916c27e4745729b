//! The trap of one sample at a given edge: whether it is trapped, and its new tints.
#![tactic(auto)]

pub mod laws;
mod sample;
mod tints;
mod trapped;
pub mod widths;

pub use sample::trap_sample;
