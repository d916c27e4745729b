//! The values of a page's work, strip by strip: the zones, marks, column answers and new tints of some rows of a page,
//! each made from the ones before it.
#![tactic(auto)]

mod answers;
mod arms;
pub mod laws;
mod marks;
mod nearest;
mod quiet;
mod row_buffers;
mod rows;
mod tint_rows;
mod tints;
mod zones;

pub use answers::make_answers;
pub use marks::make_marks;
pub use quiet::is_quiet;
pub use row_buffers::RowBuffers;
pub use rows::{Rows, row_of};
pub use tint_rows::tints_of_row;
pub use tints::{make_row, make_tints};
pub use zones::make_zones;
