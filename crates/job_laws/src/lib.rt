//! Laws of whole jobs, over their statements alone: the path and the zones in force, and the job that is read.
#![tactic(auto)]

pub mod laws;
