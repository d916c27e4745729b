use super::{
    Case, MAGENTA, Pieces, TRAPPED_CYAN, TRAPPED_MAGENTA, TRAPPED_REPORT, UNSLID_CYAN,
    UNSLID_REPORT, USUAL, Wanted, ends, judge,
};
use std::alloc::Global;
use std::process::Abort;
use std::sync::Wait;
use std::sync::atomic::AtomicBool;
use std::sync::atomic::Ordering::SeqCst;
use std::thread::Threads;
use trap_pool::{OpenTakes, TakeGate};

const THREE: Pieces<'static> = &[
    b"job r0 Cyan:cyan:a0 Magenta:magenta:b0\n",
    b"job r1 Orange:cyan:a1 Magenta:magenta:b1\n",
    b"unslid r2 Cyan:cyan:a2 Magenta:magenta:b2\n",
];

const OF_THREE: Wanted<'static> = Wanted {
    status: 9,
    reported: "job 0: done\njob 1: job: NoDetails for plate 0\njob 2: done\n",
    written: &[
        ("a0", Some(TRAPPED_CYAN)),
        ("b0", Some(TRAPPED_MAGENTA)),
        ("r0", Some(TRAPPED_REPORT)),
        ("a1", None),
        ("b1", None),
        ("r1", None),
        ("a2", Some(UNSLID_CYAN)),
        ("b2", Some(MAGENTA)),
        ("r2", Some(UNSLID_REPORT)),
    ],
};

fn three_end<H: Threads + Wait + Abort + Sync>(
    rt: &H,
    alloc: Global,
    words: &str,
    wanted: Wanted<'_>,
) -> bool {
    let case = Case {
        words,
        list: THREE,
        ..USUAL
    };
    ends(rt, alloc, case, &OpenTakes, wanted)
}

#[test]
fn three_jobs_by_one_worker_and_by_five(rt: HostRuntime) {
    for words in ["1 list", "5 list", "64 list", "0000000002 list"] {
        judge(&rt, three_end(&rt, rt.alloc(), words, OF_THREE), words, 9);
    }
}

// Words that mean nothing.
const NO_WORDS: &[&str] = &["1", "0 list", "65 list", "1 list list", "+1 list", "list 1"];

const USAGE: Wanted<'static> = Wanted {
    status: 2,
    reported: "usage: trappool WORKERS LIST\n",
    written: &[],
};

#[test]
fn other_words_are_refused(rt: HostRuntime) {
    for words in NO_WORDS {
        judge(&rt, three_end(&rt, rt.alloc(), words, USAGE), words, 2);
    }
}

// Two takes that wait for each other.
#[derive(Drop)]
struct Meeting {
    came: [AtomicBool; 2],
    met: [AtomicBool; 2],
}

impl TakeGate for Meeting {
    fn taken(&self, line: u32) {
        let mine = (line % 2) as usize;
        self.came[mine].store(true, SeqCst);
        for _ in 0..200_000_000u32 {
            if self.came[1 - mine].load(SeqCst) {
                self.met[mine].store(true, SeqCst);
                break;
            }
        }
    }
}

fn has_met(gate: &Meeting) -> bool {
    gate.met[0].load(SeqCst) && gate.met[1].load(SeqCst)
}

fn new_meeting() -> Meeting {
    Meeting {
        came: [AtomicBool::new(false), AtomicBool::new(false)],
        met: [AtomicBool::new(false), AtomicBool::new(false)],
    }
}

const BOTH_DONE: Wanted<'static> = Wanted {
    status: 0,
    reported: "job 0: done\njob 1: done\n",
    written: &[("a0", Some(TRAPPED_CYAN)), ("a1", Some(UNSLID_CYAN))],
};

#[test]
fn two_workers_take_a_line_each(rt: HostRuntime) {
    let gate = new_meeting();
    let is_done = ends(&rt, rt.alloc(), USUAL, &gate, BOTH_DONE);
    judge(&rt, is_done && has_met(&gate), "workers", 2);
}
