ghost use Rattle.std.specs.Prelude.{◌≡◌, true, [], ◌≤◌, ◌<◌, length, take};
ghost use Rattle.crossbeam_queue.specs.Fifo.{Held};
ghost use Rattle.crossbeam_queue.specs.Passes.{view, IsPassOf, ruled_capacity};
ghost use Rattle.trap_pool.specs.Rule.{pass_view, whole, Ascends, Known};

use crate::rule::{LinePass, LineQueue, push_line};
use std::sync::Wait;

/// Pushes lines in order, up to the first that finds the queue full, and returns how many it pushed. If these are not
/// all, the queue was full at one moment of the call.
pub fn push_lines<R: Wait>(rt: &R, queue: &LineQueue, pass: &mut LinePass, lines: &[u32]) -> usize
    requires queue { IsPassOf queue.now pass.old }
    requires opening { view pass.old ≡ pass_view whole true [] [] }
    requires ascends { Ascends lines.now }
    ensures queue { IsPassOf queue.now pass.new }
    ensures count { result ≤ length lines.now }
    ensures pushed { view pass.new ≡ pass_view whole true (take result lines.now) [] }
    ensures full { result < length lines.now
        → Held (ruled_capacity queue.now) (Known (view pass.new)) }
{
    let mut next = 0;
    for _ in rt.forever() {
        if next >= lines.len() {
            break;
        }
        match push_line(rt, queue, pass, lines[next]) {
            Ok(()) => next += 1,
            Err(_) => return next,
        }
    }
    next
}
