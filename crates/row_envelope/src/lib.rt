//! For each sample of a row the nearest of its arms: the rows' phase of a separable Euclidean distance transform, by
//! the lower envelope of parabolas (Felzenszwalb and Huttenlocher). The crate column_scan has the columns' phase.
#![tactic(auto)]

mod hull;
mod row;

pub use hull::HullBuf;
pub use row::nearest_row;
