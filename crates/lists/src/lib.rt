//! The list type that every crate uses, names among the lists, and the words on lists that definitions are written in.
#![tactic(auto)]

pub mod list;
pub mod memory;
pub mod names;
