//! Why a command did not do its work: each error, its status, its line, and how lines are printed.
#![tactic(auto)]

pub mod common;
mod fault_line;
mod kind_names;
pub mod line;
pub mod statuses;
pub mod telling;
pub mod words;
