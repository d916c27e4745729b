//! Plates of several trays, judged side by side by a number of workers.
#![tactic(auto)]

pub mod error;
pub mod images;
pub mod judging;
pub mod laws;
pub mod rereading;
pub mod sharing;
