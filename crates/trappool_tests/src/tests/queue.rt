ghost use Rattle.std.specs.Prelude.{◌≡◌};

use super::judge;
use std::alloc::Global;
use std::process::Abort;
use std::sync::Wait;
use std::sync::atomic::AtomicBool;
use std::sync::atomic::Ordering::SeqCst;
use std::thread::Threads;
use trap_pool::{LineWork, Workspace, open_queue, push_line, push_lines, serve_all, workspaces_of};

// Two workers that wait for each other, and make the line's square.
#[derive(Drop)]
struct Meeting {
    came: [AtomicBool; 2],
    met: [AtomicBool; 2],
}

impl LineWork<u64> for Meeting {
    ghost use Rattle.std.specs.Prelude.{◌≡◌, ◌*◌};

    ghost makes = { λ work line made. made ≡ line * line };

    fn make(&self, line: u32) -> u64 {
        let mine = (line % 2) as usize;
        self.came[mine].store(true, SeqCst);
        for _ in 0..200_000_000u32 {
            if self.came[1 - mine].load(SeqCst) {
                self.met[mine].store(true, SeqCst);
                break;
            }
        }
        line as u64 * line as u64
    }
}

fn has_met(work: &Meeting) -> bool {
    work.met[0].load(SeqCst) && work.met[1].load(SeqCst)
}

fn new_meeting() -> Meeting {
    Meeting {
        came: [AtomicBool::new(false), AtomicBool::new(false)],
        met: [AtomicBool::new(false), AtomicBool::new(false)],
    }
}

// The sum of what was made.
fn sum_of(workspaces: &[Workspace<u64>]) -> u64 {
    let mut made = 0u64;
    for workspace in workspaces {
        for kept in workspace.kept.as_slice() {
            made = made.wrapping_add(kept.made);
        }
    }
    made
}

// How many of two lines were pushed, and the sum of what two workers made of them.
fn serve_two<H: Threads + Wait + Abort + Sync>(
    rt: &H,
    alloc: Global,
    work: &Meeting,
) -> (usize, u64) {
    let workspaces = workspaces_of::<u64>(alloc, 2, 4).expect(rt, "no memory");
    let (queue, mut pass) = open_queue(alloc, 4).expect(rt, "no memory");
    let pushed = push_lines(rt, &queue, &mut pass, &[6, 7]);
    let (_, workspaces) = serve_all(rt, &queue, work, pass, workspaces);
    (pushed, sum_of(workspaces.as_slice()))
}

#[test]
fn two_workers_meet(rt: HostRuntime) {
    let work = new_meeting();
    let is_made = serve_two(&rt, rt.alloc(), &work) == (2, 85);
    judge(&rt, is_made && has_met(&work), "workers", 2);
}

// Whether a queue of one line takes the first of two, and hands the second one back.
fn is_handed_back<H: Wait + Abort>(rt: &H, alloc: Global) -> bool {
    let (queue, mut pass) = open_queue(alloc, 1).expect(rt, "no memory");
    if push_lines(rt, &queue, &mut pass, &[4, 6]) != 1 {
        return false;
    }
    push_line(rt, &queue, &mut pass, 6) == Err(6)
}

#[test]
fn a_full_queue_hands_the_line_back(rt: HostRuntime) {
    judge(&rt, is_handed_back(&rt, rt.alloc()), "lines", 2);
}
