//! For each doubled column and row of a page the nearest deciding edge, above or below: the columns' phase of a
//! separable Euclidean distance transform, in two sweeps, down and up (as by Meijster, Roerdink and Hesselink). The
//! crate row_envelope has the rows' phase.
#![tactic(auto)]

mod codes;
mod lifts;
mod looks;
mod rows;
mod spans;
mod sweeps;

pub use lifts::are_zero;
pub use sweeps::columns;
