//! Names of any bytes in the form of the job language: `#` and two digits for each byte that a job's name cannot have.
#![tactic(auto)]

pub mod escape;
pub mod laws;
