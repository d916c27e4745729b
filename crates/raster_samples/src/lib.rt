//! Samples in a memory that others laid out: interleaved or by planes, rows downwards or upwards, one byte or two.
#![tactic(auto)]

pub mod check;
pub mod laws;
pub mod raster;
pub mod read;
mod run;
pub mod write;
