ghost use Rattle.std.specs.Prelude.{◌≡◌, ℕ, List, true, false, [], ◌++◌, ◌<◌, ◌≤◌, ◌+◌, IfOk, vec_len, vec_capacity, All};
ghost use Rattle.std.specs.Thread.{IsSync};
ghost use Rattle.crossbeam_queue.specs.Passes.{view, IsPassOf};
ghost use Rattle.trap_pool.specs.Rule.{pass_view, whole, times, Ascends};
ghost use Rattle.trap_pool.specs.Serving.{AreMade, IsServed, IsUnused, kept_lines, served_lines};

use crate::line_work::LineWork;
use crate::rule::{FoundNone, LinePass, LineQueue, join_passes, look, pop_line, split_pass};
use std::alloc::{AllocError, Global};
use std::sync::Wait;
use std::thread;
use std::thread::Threads;

/// A line that a worker took, and what it made of it.
#[derive(Drop)]
pub struct Kept<K: Drop> {
    pub line: u32,
    pub made: K,
}

/// A worker's results: what it made of the lines that it took, and, if it stopped because the queue was empty, the
/// token of that.
#[derive(Drop)]
pub struct Workspace<K: Drop> {
    pub kept: Vec<Kept<K>>,
    pub end: Option<FoundNone>,
}

/// The results of each worker.
pub type Workspaces<K> = Vec<Workspace<K>>;

/// Allocates the lists of results for `count` workers, each with a capacity of `places` lines. All are empty.
pub fn workspaces_of<K: Drop>(
    alloc: Global,
    count: usize,
    places: usize,
) -> Result<Workspaces<K>, AllocError>
    ensures { IfOk result (λ workspaces. (vec_len workspaces ≡ count)
        × All (λ workspace. (places ≤ vec_capacity workspace.kept) × IsUnused workspace) workspaces.items) }
{
    let mut workspaces = Vec::with_capacity(alloc, count)?;
    for _ in 0..count {
        let kept = Vec::with_capacity(alloc, places)?;
        workspaces.push(Workspace { kept, end: None })?;
    }
    Ok(workspaces)
}

// Takes lines until the queue is empty, or its list is full, and keeps what it makes of each.
fn serve<R: Wait, K: Drop, W: LineWork<K>>(
    rt: &R,
    queue: &LineQueue,
    work: &W,
    mut pass: LinePass,
    workspace: Workspace<K>,
) -> (LinePass, Workspace<K>)
    requires pass { IsPassOf queue.now pass × (view pass ≡ pass_view 1 false [] []) }
    requires workspace { IsUnused workspace }
    ensures pass { IsPassOf queue.now result.0
        × (view result.0 ≡ pass_view 1 false [] (kept_lines result.1.kept.items)) }
    ensures made { AreMade (W.makes work.now) result.1 }
    ensures served { IsServed result.1 }
{
    let mut kept = workspace.kept;
    kept.clear();
    let mut end = None;
    for _ in rt.forever() {
        if kept.len() >= kept.capacity() {
            break;
        }
        let line = match pop_line(rt, queue, &mut pass) {
            Ok(line) => line,
            Err(none) => {
                end = Some(none);
                break;
            }
        };
        let made = work.make(line);
        let Ok(()) = kept.push(Kept { line, made }) else {
            unreachable!()
        };
    }
    (pass, Workspace { kept, end })
}

// A worker for each list, on a thread of its own, takes lines out of the queue.
fn serve_workspaces<R: Threads + Wait + Sync, K: Drop + Send, W: LineWork<K> + Sync>(
    rt: &R,
    queue: &LineQueue,
    work: &W,
    mut pass: LinePass,
    mut workspaces: Workspaces<K>,
) -> (LinePass, Workspaces<K>)
    requires queue { IsPassOf queue.now pass }
    requires parts { vec_len workspaces < (view pass).parts }
    requires unused { All IsUnused workspaces.items }
    ensures queue { IsPassOf queue.now result.0 }
    ensures workspaces { (vec_len result.1 ≡ vec_len workspaces)
        × (vec_capacity workspaces ≤ vec_capacity result.1) }
    ensures taken { view result.0 ≡ pass_view (view pass).parts (view pass).mark
        (view pass).pushed ((view pass).taken ++ served_lines result.1.items) }
    ensures made { All (AreMade (W.makes work.now)) result.1.items }
    ensures served { All IsServed result.1.items }
{
    let Some(workspace) = workspaces.pop() else {
        return (pass, workspaces);
    };
    let worker = split_pass(queue, &mut pass);
    let ((worker, workspace), (mut pass, mut workspaces)) = thread::join(
        rt,
        move || -> (LinePass, Workspace<K>)
            requires { IsSync R.row × IsSync W.row × IsPassOf queue.now worker
                × (view worker ≡ pass_view 1 false [] []) × IsUnused workspace }
            ensures { IsPassOf queue.entry.now result.0
                × (view result.0 ≡ pass_view 1 false [] (kept_lines result.1.kept.items))
                × AreMade (W.makes work.entry.now) result.1 × IsServed result.1 }
        { serve(rt, queue, work, worker, workspace) },
        move || -> (LinePass, Workspaces<K>)
            requires { IsSync R.row × IsSync W.row × IsPassOf queue.now pass
                × (vec_len workspaces < (view pass).parts) × All IsUnused workspaces.items }
            ensures queue { IsPassOf queue.entry.now result.0 }
            ensures workspaces { (vec_len result.1 ≡ vec_len workspaces)
                × (vec_capacity workspaces ≤ vec_capacity result.1) }
            ensures taken { view result.0 ≡ pass_view (view pass).parts (view pass).mark
                (view pass).pushed ((view pass).taken ++ served_lines result.1.items) }
            ensures made { All (AreMade (W.makes work.entry.now)) result.1.items }
            ensures served { All IsServed result.1.items }
        { serve_workspaces(rt, queue, work, pass, workspaces) },
    );
    join_passes(queue, &mut pass, worker);
    let Ok(()) = workspaces.push(workspace) else {
        unreachable!()
    };
    (pass, workspaces)
}

/// Drains the queue of the lines that the reader pushed: a worker for each list of results takes line after line, until
/// the queue is empty or its list is full. Each list that comes back is full, or has the token of a pop that found the
/// queue empty. The lines that the workers took and those that are left in the queue are the ones that were pushed, and
/// each result is one that may be made of its line. As many lists come back as were given. Where a thread can't be
/// started the caller does its work.
pub fn serve_all<R: Threads + Wait + Sync, K: Drop + Send, W: LineWork<K> + Sync>(
    rt: &R,
    queue: &LineQueue,
    work: &W,
    pass: LinePass,
    workspaces: Workspaces<K>,
) -> (LinePass, Workspaces<K>)
    requires queue { IsPassOf queue.now pass }
    requires workspaces { (vec_len workspaces < whole) × All IsUnused workspaces.items }
    requires reader { ((view pass).mark ≡ true) × ((view pass).parts ≡ whole)
        × ((view pass).taken ≡ []) }
    ensures queue { IsPassOf queue.now result.0 }
    ensures view { view result.0
        ≡ pass_view whole true (view pass).pushed (served_lines result.1.items) }
    ensures taken { (left : List ℕ) × Ascends left × ((line : ℕ) → times line (view pass).pushed
        ≡ times line (served_lines result.1.items) + times line left) }
    ensures workspaces { vec_len result.1 ≡ vec_len workspaces }
    ensures made { All (AreMade (W.makes work.now)) result.1.items }
    ensures served { All IsServed result.1.items }
{
    let (mut pass, workspaces) = serve_workspaces(rt, queue, work, pass, workspaces);
    look(queue, &mut pass);
    (pass, workspaces)
}
