//! The traps of a whole page, by workers at a shared table. The crate strip_engine has them by one thread.
#![tactic(auto)]

mod parts;
mod plates;
mod table;
mod tally;
mod workspace;

pub use page_tally::Trapped;
pub use strip_engine::trap_alone;
pub use table::{trap_in, trap_page};
pub use workspace::TrapWorkspace;
