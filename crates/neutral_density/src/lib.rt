//! The neutral density of samples, and the tests of the trapping rule that depend on tints and densities alone.
#![tactic(auto)]

mod black;
mod inks;
mod shut;
mod sliding;
mod steps;

pub use black::is_black;
pub use inks::{densities, density, weight_of};
pub use shut::is_shut;
pub use sliding::slid;
pub use steps::steps_apart;
