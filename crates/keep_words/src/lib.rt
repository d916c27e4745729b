//! The words of the program trapkeep.
#![tactic(auto)]

mod numbers;
mod options;
pub mod whites;
pub mod words;
