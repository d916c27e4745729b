//! Words of a command that are read without a parser's help: numbers, names of colorants, and words of two or three
//! parts.
#![tactic(auto)]

pub mod distinct;
pub mod files;
pub mod inputs;
pub mod names;
pub mod numbers;
pub mod parts;
pub mod places;
pub mod plates;
pub mod written;
