//! Workers that go through a whole list of jobs and take page after page, by line numbers from a queue under a rule.
#![tactic(auto)]

mod at_station;
mod gathered;
mod gathering;
mod line_work;
pub mod outcome;
pub mod pool;
mod pushing;
pub mod reply;
mod rule;
mod serving;
mod slot;
mod stage;
mod station;
mod taking;
mod trapping;
mod traps;
mod work;

pub use line_work::LineWork;
pub use pushing::push_lines;
pub use rule::{
    FoundNone, LinePass, LineQueue, join_passes, look, open_queue, pop_line, push_line, split_pass,
};
pub use serving::{Kept, Workspace, Workspaces, serve_all, workspaces_of};
pub use work::{OpenTakes, TakeGate};
