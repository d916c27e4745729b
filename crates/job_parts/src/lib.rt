//! The current path of a job: the vertices that its statements draw, and the errors of a statement that can't be
//! drawn. PLRM3 is the PostScript Language Reference, third edition, whose section 4.4, Path Construction, and
//! operators in 8.2 are followed, in this project's profile: straight lines alone.
#![tactic(auto)]

mod applying;
mod colorants;
mod details;
pub mod ink_details;
pub mod limits;
pub mod path;
pub mod pen;
pub mod settings;

pub use applying::apply;
pub use details::inks;
pub use limits::zone_limits;
