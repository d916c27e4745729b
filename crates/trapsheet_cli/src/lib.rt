//! The top call of the program `trapsheet`: sheets of any size.
#![tactic(auto)]

mod run;
pub mod top;
pub mod words;
