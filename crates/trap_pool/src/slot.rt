// Where the page of a line waits for a worker, and what a worker made of it.

ghost use Rattle.std.specs.Prelude.{◌≡◌, ◌<◌, IfSome, List, [], length};
ghost use Rattle.trap_pool.specs.Replies.{ReplyParts};
ghost use Rattle.trap_pool.specs.Slots.{MadeOf, traps_of};
ghost use Rattle.trap_pool.specs.Taking.{TrapsLine, reply_at, waiting_of};

use crate::stage::Stage;
use crate::station::Station;
use crate::traps::Traps;
use page_model::page::Page;
use std::alloc::Global;
use std::marker::{Brand, Model, PhantomData};

/// The lines of a list, with what was read for them. It exists in contracts alone: under a lock they say which page
/// belongs to which line.
pub(crate) trait Lines {
    ghost replies: { List ReplyParts };
}

impl Lines for Brand {
    ghost replies = { [] };
}

/// The slot of a line, which all workers see, under a lock.
#[derive(Drop)]
pub(crate) struct Slot<L: Lines> {
    line: u32,
    stage: Stage,
    lines: PhantomData<L>,
}

impl<L: Lines> Model for Slot<L> {
    ghost use Rattle.trap_pool.specs.Slots.{IsStage, SlotParts, slot_parts};

    ghost Value = { SlotParts };

    ghost view = { λ s. slot_parts s.line s.stage };

    ghost invariant = { λ s. IsStage L.replies s.line s.stage };
}

impl<L: Lines> Slot<L> {
    // The slot of a line, with its page, if one was accepted.
    pub(crate) fn new(line: u32, page: Option<Page>) -> Slot<L>
        requires line { line < length L.replies }
        requires page { page ≡ waiting_of (reply_at L.replies line) }
    {
        match page {
            Some(page) => Slot {
                line,
                stage: Stage::Waits(page),
                lines: PhantomData,
            },
            None => Slot {
                line,
                stage: Stage::Empty,
                lines: PhantomData,
            },
        }
    }

    // Traps the page that waits, at the idle desk or at a new one, and returns the desk. If memory runs out, the page
    // goes on waiting.
    pub(crate) fn work(&mut self, alloc: Global, idle: Option<Station>) -> Option<Station> {
        match std::mem::replace(&mut self.stage, Stage::Empty) {
            Stage::Waits(page) => {
                let (station, stage) = trap_waiting(alloc, idle, page);
                self.stage = stage;
                station
            }
            stage => {
                self.stage = stage;
                idle
            }
        }
    }

    // The line, and what was made of its page.
    pub(crate) fn into_traps(self) -> (u32, Option<Traps>)
        ensures line { IfSome result.1 (λ traps. TrapsLine L.replies result.0 traps) }
        ensures made { result.1 ≡ traps_of self.stage }
    {
        let Slot {
            line,
            stage,
            lines: _,
        } = self;
        match stage {
            Stage::Made(traps) => (line, Some(traps)),
            Stage::Waits(_) | Stage::Empty => (line, None),
        }
    }
}

fn trap_waiting(alloc: Global, idle: Option<Station>, page: Page) -> (Option<Station>, Stage)
    ensures { MadeOf page result.1 }
{
    let Ok(station) = Station::for_page(alloc, idle, &page) else {
        return (None, Stage::Waits(page));
    };
    let mut station = station;
    match station.trap(alloc, page) {
        Ok(traps) => (Some(station), Stage::Made(traps)),
        Err(page) => (Some(station), Stage::Waits(page)),
    }
}
