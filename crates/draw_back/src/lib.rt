//! An ink drawn back under a cover: row by row the least of its tints near by where the cover has ended.
#![tactic(auto)]

mod block;
mod disk;
mod edge;
mod field;
pub mod laws;
mod lower;
mod reach;
mod row;
mod window;

pub use field::Field;
pub use reach::Reach;
pub use row::{draw_column, draw_row};
