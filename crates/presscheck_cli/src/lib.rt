//! The top call of the program `presscheck`: how many samples misregister could leave bare, before trapping and after.
#![tactic(auto)]

mod check;
mod risks;
mod text;
pub mod top;
mod words;
