//! What comes of a sheet that was judged: it is read once more, strip by strip or whole, trapped, and its plates and its
//! report are written.
#![tactic(auto)]

pub mod error;
mod gather;
pub mod holding;
pub mod judging;
pub mod laws;
pub mod outcome;
pub mod planning;
pub mod reporting;
pub mod streaming;
pub mod telling;
pub mod whole;
pub mod windows;
pub mod writing;
