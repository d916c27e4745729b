//! Keepaway for underprints: under colour, a white is drawn back from where the colour ends.
#![tactic(auto)]

mod colour;
mod cover;
pub mod laws;
mod parts;
mod plate;
mod thick;
mod way;
mod widths;

pub use cover::{CoverWorkspace, cover_in, cover_of};
pub use parts::{White, WhiteList};
pub use plate::draw_plate;
pub use way::Way;
