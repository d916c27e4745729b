//! The whole job: its statements, what is in force at each of them, its zones, and its first fault. Operators and
//! entries are named after the PostScript Language Reference, third edition (PLRM3 in these comments), in this
//! project's profile: docs/JOBS.md says which there are.
#![tactic(auto)]

pub mod calls;
mod device;
mod drawing;
pub mod job;
pub mod laws;
mod operands;
pub mod operators;
mod parameters;
mod performing;
pub mod reader;
mod showing;
pub mod state;
mod zones;
