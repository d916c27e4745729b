//! A page with its inks drawn back under black, or its whites under colour: its planes and its report.
#![tactic(auto)]

mod counting;
pub mod laws;
mod outcome;
mod planes;
mod report;
mod uses;

pub use outcome::{Kept, keep_page};
pub use planes::{fill_under_black, fill_under_colour};
pub use uses::KeepUse;
