// The workers at the pages that were gathered.

ghost use Rattle.std.specs.Prelude.{◌≡◌, ◌<◌, ◌^◌, vec_len};
ghost use Rattle.trap_pool.specs.Rule.{Ascends};
ghost use Rattle.trap_pool.specs.Workspaces.{IsOpen};
ghost use Rattle.trap_pool.specs.Taking.{AllSettled, pages_of};

use crate::gathered::Gathered;
use crate::gathering::Gathering;
use crate::slot::Lines;
use crate::taking::{slots_of, take_in};
use crate::work::{PageWork, TakeGate};
use crate::{LinePass, LineQueue, Workspaces, push_lines, serve_all};
use std::alloc::Global;
use std::sync::{Mutex, Wait};
use std::thread::Threads;

/// What the workers begin with: the queue with its first pass, and for each of them a list for the lines that it takes.
#[derive(Drop)]
pub(crate) struct Opening {
    pub queue: LineQueue,
    pub pass: LinePass,
    pub workspaces: Workspaces<()>,
}

// Traps the pages that wait, whose lines have these numbers, and sets their results. If there is no memory for the
// slots, they go on waiting.
pub(crate) fn trap_lines<L: Lines + Send + Sync, H: Threads + Wait + Sync, G: TakeGate + Sync>(
    rt: &H,
    alloc: Global,
    gathering: Gathering,
    numbers: Vec<u32>,
    opening: Opening,
    gate: &G,
) -> Vec<Gathered>
    requires lines { gathering.lines.items ≡ L.replies }
    requires pages { gathering.pages.items ≡ pages_of L.replies }
    requires numbered { vec_len gathering.lines < 2 ^ 32 }
    requires ascends { Ascends numbers.items }
    requires open { IsOpen opening }
    ensures { AllSettled gathering.lines.items result.items }
{
    let Gathering { lines, pages } = gathering;
    let mut gathered = lines;
    let Ok(workspace) = Vec::with_capacity(alloc, pages.len()) else {
        return gathered;
    };
    let slots = slots_of::<L>(pages, workspace);
    let stations = Mutex::new(Vec::new(alloc));
    let work = PageWork {
        rt,
        alloc,
        slots: slots.as_slice(),
        stations: &stations,
        gate,
    };
    serve_waiting(rt, &work, numbers.as_slice(), opening);
    take_in(alloc, &mut gathered, slots);
    gathered
}

// Pushes the lines into the queue, as many as it has places for, and lets the workers take them.
fn serve_waiting<L: Lines + Send + Sync, H: Threads + Wait + Sync, G: TakeGate + Sync>(
    rt: &H,
    work: &PageWork<'_, L, H, G>,
    numbers: &[u32],
    opening: Opening,
)
    requires ascends { Ascends numbers.now }
    requires open { IsOpen opening }
{
    let Opening {
        queue,
        mut pass,
        workspaces,
    } = opening;
    push_lines(rt, &queue, &mut pass, numbers);
    let _served = serve_all(rt, &queue, work, pass, workspaces);
}
