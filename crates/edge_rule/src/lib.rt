//! The deciding edges of a row of samples: those to their right, and those below them.
#![tactic(auto)]

mod deciding;
mod pairs;
mod plain;
mod row;

pub use row::edge_row;
