//! The report of a page or of a sheet: lines into a sink, which is a text in memory or a file.
#![tactic(auto)]

pub mod file;
pub mod lines;
pub mod parts;
pub mod report;
mod reported;
mod sink;
mod writer;
mod written_lines;
