//! What the bytes of a page's files call for: an error, or the files to write.
#![tactic(auto)]

pub mod assemble;
pub mod format;
pub mod gather;
pub mod job;
pub mod laws;
pub mod looks;
pub mod plates;
pub mod writing;
