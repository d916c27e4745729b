//! A strip of a sheet of any sides trapped tile by tile: each window as a page of its own, with the counts of its
//! core added to the sheet's.
#![tactic(auto)]

pub mod counting;
pub mod counts;
pub mod rows;
pub mod tile;
pub mod tile_rows;
pub mod tints;
pub mod workspace;
