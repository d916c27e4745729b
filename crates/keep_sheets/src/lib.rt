//! Keepaway on the windows of a sheet: how large a halo they need, how they are drawn back, and what is counted in
//! their cores.
#![tactic(auto)]

mod core_counts;
mod counts;
mod covers;
mod halo;
pub mod laws;
mod tile;
mod workspace;

pub use core_counts::add_core;
pub use counts::{KeepCounts, no_keep_counts};
pub use covers::CoverBuffers;
pub use halo::halo_of;
pub use tile::keep_tile_in;
pub use workspace::KeepWorkspace;
