//! A sheet that streams: strip after strip its rows are read, trapped and written, in memory that does not grow with the
//! sheet.
#![tactic(auto)]

pub mod ahead;
pub mod beside;
pub mod common;
pub mod core_rows;
pub mod error;
pub mod laws;
pub mod parts;
pub mod pipeline;
pub mod rows;
pub mod sheet;
pub mod step;
pub mod stored_laws;
pub mod stored_rows;
pub mod stored_strip;
pub mod strip;
pub mod strips;
pub mod whole;
pub mod workspace;
pub mod zones;
