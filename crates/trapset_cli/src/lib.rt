//! The top call of the program `trapset`: writes the traps of a page to a file of their own, and applies such a file to
//! plates.
#![tactic(auto)]

mod apply;
mod carry;
mod command;
mod planes;
mod plates;
pub mod reason;
pub mod top;
mod traps;
