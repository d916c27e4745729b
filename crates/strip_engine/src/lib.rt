//! The traps of a whole page by one thread, strip by strip.
#![tactic(auto)]

mod alone;
mod grid;
mod marks;
mod strips;
mod workspace;
mod zones;

pub use alone::trap_alone;
pub use marks::{marks_of_row, zones_of_row};
pub use strips::StripBuffers;
pub use workspace::PageWorkspace;
