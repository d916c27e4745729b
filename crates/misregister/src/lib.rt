//! How many samples of a page misregister could leave bare: each plate shifts by itself, up to a radius.
#![tactic(auto)]

mod count;
pub mod laws;
mod plate;
mod row;
pub mod sheet;
mod workspace;

pub use count::{MOST_RADIUS, risk_count};
pub use workspace::RiskBuf;
