ghost use Rattle.std.specs.Prelude.{◌≡◌};
ghost use Rattle.job_reader.specs.Starts.{nothing_read};

use job_parts::path::Path;
use lists::list::List;
use page_model::parts::{DetailList, LimitList, TrapParams, ZoneList};
use std::alloc::Global;

/// What is in force at a statement, the zones that were made so far, and how many vertices these have in all.
#[derive(Drop)]
pub struct State {
    pub params: TrapParams,
    pub limits: LimitList,
    pub resolution: u32,
    pub trapping: bool,
    pub details: DetailList,
    pub path: Path,
    pub zones: ZoneList,
    pub vertices: u32,
}

/// The state before the first statement: the defaults, no zone and an empty path.
pub fn nothing_read(alloc: Global) -> State
    ensures { result ≡ nothing_read }
{
    State {
        params: TrapParams::usual(),
        limits: List::new(alloc),
        resolution: 0,
        trapping: true,
        details: List::new(alloc),
        path: Path::new(alloc),
        zones: List::new(alloc),
        vertices: 0,
    }
}
