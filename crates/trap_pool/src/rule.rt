//! The queue of line numbers, its passes, and the six kinds of step.
ghost use Rattle.std.specs.Prelude.{◌≡◌, ℕ, List, true, false, [], ◌∷◌, ◌++◌, ◌<◌, ◌+◌, ◌-◌, IfOk, IfErr, OnOk, OnErr};
ghost use Rattle.crossbeam_queue.specs.Fifo.{Held};
ghost use Rattle.crossbeam_queue.specs.Passes.{view, IsPassOf, IsSamePass, ruled_capacity};
ghost use Rattle.trap_pool.specs.Rule.{pass_view, either_mark, whole, IsAbove, Known};

use crossbeam_queue::protocol::{Join, Lesson, Outcome, Protocol, Split};
use crossbeam_queue::{Pass, RuledArrayQueue};
use std::alloc::{AllocError, Global};
use std::collections::LinkedList;
use std::sync::Wait;

/// What is known of a pass: how many of the parts that all passes share it has, whether it has the reader's mark, and
/// the lines that it pushed and took. It exists in proofs alone.
pub struct PassView {
    pub parts: u64,
    pub mark: bool,
    pub pushed: LinkedList<u32>,
    pub taken: LinkedList<u32>,
}

/// The rule that holds between any two steps of any passes: the lines in the queue ascend; they and all lines that were
/// taken are the lines that were pushed, each once; at most one pass has the mark, and the others have pushed nothing.
pub struct QueueRule;

impl Protocol<u32, PassView> for QueueRule {
    ghost use Rattle.std.specs.Prelude.{true, []};
    ghost use Rattle.trap_pool.specs.Rule.{pass_view, whole, IsKept};

    ghost holds = { IsKept };

    ghost first = { pass_view whole true [] [] };
}

// A line is pushed, or the queue is full.
struct Pushed;

impl Outcome<u32, PassView> for Pushed {
    ghost then = { λ v x w. w ≡ pass_view v.parts v.mark (v.pushed ++ x ∷ []) v.taken };
}

impl Lesson<u32, PassView> for Pushed {
    ghost fact = { Known };
}

// A line is taken, or there is none.
struct Taken;

impl Outcome<u32, PassView> for Taken {
    ghost then = { λ v x w. w ≡ pass_view v.parts v.mark v.pushed (v.taken ++ x ∷ []) };
}

impl Lesson<u32, PassView> for Taken {
    ghost fact = { Known };
}

/// A token that a pop found the queue empty at one moment. Only `pop_line` makes one.
#[derive(Drop)]
pub struct FoundNone {
    _looked: (),
}

// A pass is split, or two are joined.
struct Cut;

impl Split<PassView> for Cut {
    ghost use Rattle.std.specs.Prelude.{false, [], ◌-◌};
    ghost use Rattle.trap_pool.specs.Rule.{pass_view};

    ghost left = { λ v. pass_view (v.parts - 1) v.mark v.pushed v.taken };

    ghost right = { λ v. pass_view 1 false [] [] };
}

impl Join<PassView> for Cut {
    ghost use Rattle.std.specs.Prelude.{false, [], ◌+◌, ◌++◌};
    ghost use Rattle.trap_pool.specs.Rule.{pass_view, either_mark};

    ghost both = { λ v w. pass_view (v.parts + w.parts) (either_mark v.mark w.mark)
        (v.pushed ++ w.pushed) (v.taken ++ w.taken) };

    ghost spent = { pass_view 0 false [] [] };
}

/// A queue of line numbers under the rule.
pub type LineQueue = RuledArrayQueue<u32, PassView, QueueRule>;

/// What a thread needs to step on the queue. A thread without one can't touch it.
pub type LinePass = Pass<u32, PassView>;

/// Allocates an empty queue with `places` places, and its first pass.
pub fn open_queue(alloc: Global, places: usize) -> Result<(LineQueue, LinePass), AllocError>
    requires { 0 < places }
    ensures { IfOk result (λ q. (ruled_capacity q.0 ≡ places) × IsPassOf q.0 q.1
        × (view q.1 ≡ pass_view whole true [] [])) }
{
    LineQueue::ruled(alloc, places)
}

/// Pushes a line, or gives it back if the queue is full. The pass has to have the mark, and the line to be above all
/// that were pushed before.
pub fn push_line<R: Wait>(
    rt: &R,
    queue: &LineQueue,
    pass: &mut LinePass,
    line: u32,
) -> Result<(), u32>
    requires queue { IsPassOf queue.now pass.old }
    requires mark { (view pass.old).mark ≡ true }
    requires above { IsAbove line (view pass.old).pushed }
    ensures queue { IsPassOf queue.now pass.new }
    ensures pushed { OnOk result (view pass.new ≡ pass_view (view pass.old).parts true
        ((view pass.old).pushed ++ line ∷ []) (view pass.old).taken) }
    ensures full { IfErr result (λ x. (x ≡ line) × (view pass.new ≡ view pass.old)
        × Held (ruled_capacity queue.now) (Known (view pass.old))) }
{
    queue.push_as::<Pushed, R>(rt, pass, line)
}

/// Takes the first line out of the queue. The error is a token that the queue was found empty.
pub fn pop_line<R: Wait>(rt: &R, queue: &LineQueue, pass: &mut LinePass) -> Result<u32, FoundNone>
    requires queue { IsPassOf queue.now pass.old }
    requires part { 0 < (view pass.old).parts }
    ensures queue { IsPassOf queue.now pass.new }
    ensures taken { IfOk result (λ x. view pass.new ≡ pass_view (view pass.old).parts
        (view pass.old).mark (view pass.old).pushed ((view pass.old).taken ++ x ∷ [])) }
    ensures none { OnErr result ((view pass.new ≡ view pass.old)
        × Held 0 (Known (view pass.old))) }
{
    match queue.pop_as::<Taken, R>(rt, pass) {
        Some(line) => Ok(line),
        None => Err(FoundNone { _looked: () }),
    }
}

/// Splits off a pass with one part, which has pushed and taken nothing. The mark stays with the old one.
pub fn split_pass(queue: &LineQueue, pass: &mut LinePass) -> LinePass
    requires queue { IsPassOf queue.now pass.old }
    requires parts { 1 < (view pass.old).parts }
    ensures queue { IsPassOf queue.now pass.new × IsPassOf queue.now result }
    ensures left { view pass.new ≡ pass_view ((view pass.old).parts - 1) (view pass.old).mark
        (view pass.old).pushed (view pass.old).taken }
    ensures right { view result ≡ pass_view 1 false [] [] }
{
    queue.another::<Cut>(pass)
}

/// Joins the other pass into this one.
pub fn join_passes(queue: &LineQueue, pass: &mut LinePass, other: LinePass)
    requires queue { IsPassOf queue.now pass.old × IsPassOf queue.now other }
    ensures queue { IsPassOf queue.now pass.new }
    ensures both { view pass.new ≡ pass_view ((view pass.old).parts + (view other).parts)
        (either_mark (view pass.old).mark (view other).mark)
        ((view pass.old).pushed ++ (view other).pushed)
        ((view pass.old).taken ++ (view other).taken) }
{
    queue.absorb::<Cut>(pass, other);
}

/// For proofs: what the pass knows of the lines in the queue at one moment of the call.
pub fn look(queue: &LineQueue, pass: &mut LinePass)
    requires queue { IsPassOf queue.now pass.old }
    ensures queue { IsPassOf queue.now pass.new × (view pass.new ≡ view pass.old) }
    ensures known { (items : List ℕ) × Known (view pass.old) items }
{
    queue.learn_as::<Taken>(pass);
}
