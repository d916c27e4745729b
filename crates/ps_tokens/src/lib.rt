//! The job language's tokens and objects, and the first fault of a job's bytes. The notation is that of the PostScript
//! Language Reference, third edition (PLRM3 in these comments), section 3.2, Syntax, in this project's profile:
//! docs/JOBS.md says what of it is taken.
#![tactic(auto)]

pub mod brackets;
mod bytes;
pub mod dictionary;
pub mod entry_errors;
pub mod faults;
mod judging;
pub mod laws;
pub mod names;
mod numbers;
pub mod object;
pub mod parameters;
pub mod pieces;
mod reader;
mod scanner;
mod texts;
pub mod token;
mod words;

pub use dictionary::{last, last_value};
pub use reader::objects;
pub use scanner::{LONGEST_JOB, tokens};
