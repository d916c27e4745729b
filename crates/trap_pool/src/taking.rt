ghost use Rattle.std.specs.Prelude.{◌≡◌, ◌≤◌, ◌<◌, ◌^◌, [], vec_capacity, vec_len};
ghost use Rattle.trap_pool.specs.Taking.{AllSettled, TrapsLine, pages_of};

use crate::gathered::Gathered;
use crate::reply::Reply;
use crate::slot::{Lines, Slot};
use crate::station::Station;
use crate::traps::Traps;
use page_model::page::Page;
use std::alloc::Global;
use std::sync::Mutex;

// A slot for each line, with its page if one waits, in `workspace`, which has a place for each.
pub(crate) fn slots_of<L: Lines>(
    pages: Vec<Option<Page>>,
    workspace: Vec<Mutex<Slot<L>>>,
) -> Vec<Mutex<Slot<L>>>
    requires pages { pages.items ≡ pages_of L.replies }
    requires numbered { vec_len pages < 2 ^ 32 }
    requires empty { workspace.items ≡ [] }
    requires workspace { vec_len pages ≤ vec_capacity workspace }
    ensures { vec_len result ≡ vec_len pages }
{
    let mut slots = workspace;
    for page in pages {
        let line = slots.len() as u32;
        let Ok(()) = slots.push(Mutex::new(Slot::new(line, page))) else {
            unreachable!()
        };
    }
    slots
}

// Sets all results that were made. A page that still waits is trapped first, if there is memory.
pub(crate) fn take_in<L: Lines>(
    alloc: Global,
    gathered: &mut Vec<Gathered>,
    slots: Vec<Mutex<Slot<L>>>,
)
    requires lines { gathered.old.items ≡ L.replies }
    requires slots { vec_len slots ≡ vec_len gathered.old }
    ensures { AllSettled gathered.old.items gathered.new.items }
{
    let mut idle: Option<Station> = None;
    for slot in slots {
        let mut slot = slot.into_inner();
        idle = slot.work(alloc, idle);
        if let (line, Some(traps)) = slot.into_traps() {
            settle_at(gathered, line as usize, traps);
        }
    }
}

// Sets the result of the accepted page of that line.
fn settle_at(gathered: &mut Vec<Gathered>, place: usize, traps: Traps)
    requires { TrapsLine gathered.old.items place traps }
    ensures { AllSettled gathered.old.items gathered.new.items }
{
    gathered[place].settle(traps);
}

// The replies to the lines, in their order, in `workspace`, which has a place for each.
pub(crate) fn replies_of(gathered: Vec<Gathered>, workspace: Vec<Reply>) -> Vec<Reply>
    requires empty { workspace.items ≡ [] }
    requires workspace { vec_len gathered ≤ vec_capacity workspace }
    ensures { result.items ≡ gathered.items }
{
    let mut replies = workspace;
    for line in gathered {
        let Ok(()) = replies.push(line.into_reply()) else {
            unreachable!()
        };
    }
    replies
}
