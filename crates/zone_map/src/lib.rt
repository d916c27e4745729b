//! The zones of a row of samples, by scan-line filling of polygons: the crossings of a path's segments with the row are
//! counted, upward and downward ones apart, and a sample is inside where they do not cancel out to its right (the
//! nonzero winding number rule; PostScript Language Reference, third edition, section 4.5).
#![tactic(auto)]

mod crossings;
mod extent;
mod gaps;
mod row;
mod spans;
mod tally;

pub use extent::{Extent, NO_EXTENT, write_extents};
pub use row::{zone_row, zone_row_near};
pub use spans::SpanBuf;
