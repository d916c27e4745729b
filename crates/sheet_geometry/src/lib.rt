//! Bare sheets: all of a sheet but its tints. Whether a sheet is refused, and by which rulers it is cut within a budget
//! for each window, depends on that alone, so it is decided before any tint is read.
#![tactic(auto)]

pub mod budget;
pub mod copies;
pub mod corners;
pub mod cuts;
mod far;
mod judging;
pub mod laws;
pub mod plan;
mod planes;
pub mod refill;
pub mod sheet_errors;
pub mod size_laws;
pub mod spans;
mod steps;
pub mod window_sheet;
