//! Planes of one shape: what the planes of a page are, before it is trapped and after.
#![tactic(auto)]

pub mod arms;
pub mod bands;
pub mod bounds;
pub mod edges;
pub mod laws;
pub mod limits;
pub mod marks;
pub mod page;
pub mod parts;
pub mod planes;
pub mod reach;
pub mod shape_laws;
pub mod steps;
