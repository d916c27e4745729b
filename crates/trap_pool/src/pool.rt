ghost use Rattle.std.specs.Prelude.{◌≡◌, ◌+◌, ◌≤◌, ◌<◌, ◌^◌, IfOk, true, [], length, vec_capacity, vec_len, All};
ghost use Rattle.crossbeam_queue.specs.Passes.{IsPassOf, view};
ghost use Rattle.trap_pool.specs.Rule.{Ascends, IsAbove, pass_view, whole};
ghost use Rattle.trap_pool.specs.Serving.{IsUnused};
ghost use Rattle.trap_pool.specs.Pools.{AnswersPool};
ghost use Rattle.trap_pool.specs.Workspaces.{IsOpen, IsWorkspaceFor};
ghost use Rattle.page_model.specs.Limits.{most_workers};

use crate::gathering::{Gathering, gather_lines};
use crate::reply::{Reply, ReplyList};
use crate::taking::replies_of;
use crate::trapping::{Opening, trap_lines};
use crate::work::TakeGate;
use crate::{open_queue, workspaces_of};
use job_list::line::LineList;
use lists::list::List;
use outside::tray::Tray;
use page_model::page::Page;
use page_model::parts::OutOfMemory;
use std::alloc::{AllocError, Global};
use std::marker::Brand;
use std::sync::Wait;
use std::thread::Threads;

// The number of places of the queue.
const PLACES: usize = 256;

/// Reads the page of each line in order, traps the pages by `workers` workers, which take them by their line numbers
/// from a queue, and returns a reply for each line.
///
/// A page is accepted if its samples, together with those of the pages that were accepted before it, are at most
/// 320,000,000. Each accepted page is in a slot of its own, which all workers see; a worker's buffers are used again
/// for its next page. What no worker made, the caller makes after them, so that each line has its reply whatever the
/// queue does. If there is no memory for a page, that is the reply to its line alone. All memory for replies is
/// allocated first: if that fails, nothing is begun.
pub fn pool_run<H: Threads + Wait + Sync, T: Tray, G: TakeGate + Sync>(
    rt: &H,
    alloc: Global,
    tray: &mut T,
    lines: &LineList,
    workers: u32,
    gate: &G,
) -> Result<ReplyList, OutOfMemory>
    requires numbered { length lines.now < 2 ^ 32 }
    requires some_workers { 1 ≤ workers }
    requires few_workers { workers ≤ most_workers }
    ensures { AnswersPool lines.now (T.state tray.old) (T.state tray.new) result }
{
    let Ok(workspace) = PoolWorkspace::new(alloc, lines.len(), workers as usize) else {
        return Err(OutOfMemory);
    };
    let PoolWorkspace {
        gathering,
        replies,
        numbers,
        opening,
    } = workspace;
    let gathering = gather_lines(alloc, tray, lines, gathering);
    let numbers = waiting_lines(gathering.pages.as_slice(), numbers);
    let gathered = trap_lines::<Brand, H, G>(rt, alloc, gathering, numbers, opening, gate);
    Ok(List::from_vec(replies_of(gathered, replies)))
}

// What a pool allocates before it begins: a place for each line's page, reply and number, and what its workers begin
// with.
#[derive(Drop)]
struct PoolWorkspace {
    gathering: Gathering,
    replies: Vec<Reply>,
    numbers: Vec<u32>,
    opening: Opening,
}

impl PoolWorkspace {
    fn new(alloc: Global, lines: usize, workers: usize) -> Result<PoolWorkspace, AllocError>
        ensures { IfOk result (λ workspace. IsWorkspaceFor lines workers workspace) }
    {
        let gathered = Vec::with_capacity(alloc, lines)?;
        let pages = Vec::with_capacity(alloc, lines)?;
        let replies = Vec::with_capacity(alloc, lines)?;
        let numbers = Vec::with_capacity(alloc, lines)?;
        let workspaces = workspaces_of(alloc, workers, lines.min(PLACES))?;
        let (queue, pass) = open_queue(alloc, PLACES)?;
        Ok(PoolWorkspace {
            gathering: Gathering {
                lines: gathered,
                pages,
            },
            replies,
            numbers,
            opening: Opening {
                queue,
                pass,
                workspaces,
            },
        })
    }
}

// The numbers of the lines whose pages wait to be trapped, in order.
fn waiting_lines(pages: &[Option<Page>], workspace: Vec<u32>) -> Vec<u32>
    requires numbered { length pages.now < 2 ^ 32 }
    requires empty { workspace.items ≡ [] }
    requires workspace { length pages.now ≤ vec_capacity workspace }
    ensures { Ascends result.items }
{
    let mut numbers = workspace;
    for number in 0..pages.len() {
        note_waiting(&pages[number], number as u32, &mut numbers);
    }
    numbers
}

// Adds the line's number, if its page waits to be trapped.
fn note_waiting(page: &Option<Page>, number: u32, numbers: &mut Vec<u32>)
    requires ascends { Ascends numbers.old.items }
    requires above { IsAbove number numbers.old.items }
    requires workspace { vec_len numbers.old < vec_capacity numbers.old }
    ensures ascends { Ascends numbers.new.items }
    ensures above { IsAbove (number + 1) numbers.new.items }
    ensures few { vec_len numbers.new ≤ vec_len numbers.old + 1 }
    ensures workspace { vec_capacity numbers.old ≤ vec_capacity numbers.new }
{
    if page.is_some() {
        let Ok(()) = numbers.push(number) else {
            unreachable!()
        };
    }
}
