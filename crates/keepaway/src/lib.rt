//! Keepaway: the inks under a rich black are drawn back from where black ends.
#![tactic(auto)]

mod cover;
pub mod laws;
mod levels;
mod marks;
mod parts;
mod plate;
pub mod rows;

pub use cover::{Cover, CoverWorkspace, cover_in, cover_of};
pub use parts::RichBlack;
pub use plate::draw_plate;
