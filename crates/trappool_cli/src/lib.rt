//! The top call of the program `trappool`: a list of jobs, whose pages are trapped by workers that go through all of
//! them.
#![tactic(auto)]

mod answering;
mod asking;
mod lines;
mod telling;
pub mod top;
mod words;
