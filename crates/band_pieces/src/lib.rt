//! The pieces of a page's work: each is made from the cells of its needs and packed into its own cells, by workers at
//! the shared table, and those that they leave by one thread at the closed table.
#![tactic(auto)]

mod alone;
mod alone_puts;
mod fills;
pub mod laws;
mod looks;
mod pages;
mod reading;
mod rows;
mod scratch;
mod sinks;
mod sources;
mod spans;

pub use alone::finish_alone;
pub use looks::{read_marks, read_plate, read_tints, read_zones};
pub use pages::{are_all_done, finish_table};
pub use scratch::Scratch;
pub use sources::CellSource;
