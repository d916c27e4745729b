//! What a page becomes: its planes after trapping, and what is counted in it, row by row, for every engine that traps
//! it.
#![tactic(auto)]

mod blocks;
mod changes;
mod counting;
mod outcome;
mod planes;
mod sums;
mod taking;

pub use blocks::are_clear;
pub use changes::{count_changed, differences, note_changes};
pub use counting::{count_zones, edges_in};
pub use outcome::{Outcome, Trapped};
pub use sums::add_counts;
