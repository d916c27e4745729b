//! The top call of the program `trap`: from words to files.
#![tactic(auto)]

pub mod command;
mod ending;
mod options;
mod page;
mod page_words;
mod plates;
mod sample;
mod sample_words;
pub mod top;
