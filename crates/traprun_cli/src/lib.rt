//! The top call of the program `traprun`: jobs of many pages, and plate files of one image for each page.
#![tactic(auto)]

pub mod error;
mod files;
mod gather;
mod images;
mod job;
pub mod laws;
mod page;
mod run;
pub mod telling;
pub mod top;
mod words;
