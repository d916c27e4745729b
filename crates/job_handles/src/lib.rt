//! Jobs that a C program holds between calls: a job that was read stays in a box, and C keeps its pointer.
#![tactic(auto)]

mod handle;
pub mod job_handle;
mod loose;
pub mod open_job;
