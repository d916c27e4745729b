use super::{
    Case, MAGENTA, TRAPPED_CYAN, TRAPPED_MAGENTA, TRAPPED_REPORT, UNSLID_CYAN, UNSLID_REPORT,
    USUAL, Wanted, ends, judge,
};
use std::alloc::Global;
use std::process::Abort;
use std::sync::Wait;
use std::thread::Threads;
use trap_pool::OpenTakes;

// From which call of the tray on a failed one prints this line: each file is begun by a call and read to its end by a
// last one. The list and each job take one read, each plate eleven for the bytes of its header and one for its samples.
const READS: &[(u64, u8, &str)] = &[
    (0, 5, "read fault: list\n"),
    (3, 9, "job 0: read fault: job\njob 1: done\n"),
    (6, 9, "job 0: read fault: plate 0\njob 1: done\n"),
    (20, 9, "job 0: read fault: plate 1\njob 1: done\n"),
    (34, 9, "job 0: done\njob 1: read fault: job\n"),
    (37, 9, "job 0: done\njob 1: read fault: plate 0\n"),
    (51, 9, "job 0: done\njob 1: read fault: plate 1\n"),
    (65, 0, "job 0: done\njob 1: done\n"),
];

// The status and the text printed where that call of the tray fails.
fn end_at(call: u64) -> (u8, &'static str) {
    let mut end = (0, "");
    for (first, status, reported) in READS {
        if *first <= call {
            end = (*status, reported);
        }
    }
    end
}

fn ends_at_read<H: Threads + Wait + Abort + Sync>(rt: &H, alloc: Global, call: u64) -> bool {
    let case = Case {
        tray_fails: Some(call),
        ..USUAL
    };
    let (status, reported) = end_at(call);
    let wanted = Wanted {
        status,
        reported,
        written: &[],
    };
    ends(rt, alloc, case, &OpenTakes, wanted)
}

#[test]
fn each_read_fails_in_turn(rt: HostRuntime) {
    for call in 0..66 {
        judge(&rt, ends_at_read(&rt, rt.alloc(), call), "call", call);
    }
}

// How a run ends as the calls of the rack fail one after another: files before the failed one are whole, and no later file of
// its line is there; after a line that could not be printed, be it in part, no file is.
const WRITES: &[Wanted<'static>] = &[
    Wanted {
        status: 9,
        reported: "job 0: write fault: plate 0\njob 1: done\n",
        written: &[("b0", None), ("r0", None), ("r1", Some(UNSLID_REPORT))],
    },
    Wanted {
        status: 9,
        reported: "job 0: write fault: plate 1\njob 1: done\n",
        written: &[
            ("a0", Some(TRAPPED_CYAN)),
            ("r0", None),
            ("r1", Some(UNSLID_REPORT)),
        ],
    },
    Wanted {
        status: 9,
        reported: "job 0: write fault: report\njob 1: done\n",
        written: &[("b0", Some(TRAPPED_MAGENTA)), ("r1", Some(UNSLID_REPORT))],
    },
    Wanted {
        status: 6,
        reported: "",
        written: &[
            ("r0", Some(TRAPPED_REPORT)),
            ("a1", None),
            ("b1", None),
            ("r1", None),
        ],
    },
    Wanted {
        status: 6,
        reported: "job 0: ",
        written: &[
            ("r0", Some(TRAPPED_REPORT)),
            ("a1", None),
            ("b1", None),
            ("r1", None),
        ],
    },
    Wanted {
        status: 9,
        reported: "job 0: done\njob 1: write fault: plate 0\n",
        written: &[("r0", Some(TRAPPED_REPORT)), ("b1", None), ("r1", None)],
    },
    Wanted {
        status: 9,
        reported: "job 0: done\njob 1: write fault: plate 1\n",
        written: &[
            ("r0", Some(TRAPPED_REPORT)),
            ("a1", Some(UNSLID_CYAN)),
            ("r1", None),
        ],
    },
    Wanted {
        status: 9,
        reported: "job 0: done\njob 1: write fault: report\n",
        written: &[("r0", Some(TRAPPED_REPORT)), ("b1", Some(MAGENTA))],
    },
    Wanted {
        status: 6,
        reported: "job 0: done\n",
        written: &[("r0", Some(TRAPPED_REPORT)), ("r1", Some(UNSLID_REPORT))],
    },
    Wanted {
        status: 6,
        reported: "job 0: done\njob 1: ",
        written: &[("r0", Some(TRAPPED_REPORT)), ("r1", Some(UNSLID_REPORT))],
    },
    Wanted {
        status: 0,
        reported: "job 0: done\njob 1: done\n",
        written: &[("r0", Some(TRAPPED_REPORT)), ("r1", Some(UNSLID_REPORT))],
    },
];

// Whether the run in which that call of the rack fails comes to that end.
fn ends_at_write<H: Threads + Wait + Abort + Sync>(
    rt: &H,
    alloc: Global,
    call: u64,
    end: usize,
) -> bool {
    let case = Case {
        rack_fails: Some(call),
        ..USUAL
    };
    match WRITES.get(end) {
        Some(wanted) => ends(rt, alloc, case, &OpenTakes, *wanted),
        None => false,
    }
}

// The end that a run comes to: that of the call before, or the next one.
fn write_end<H: Threads + Wait + Abort + Sync>(
    rt: &H,
    alloc: Global,
    call: u64,
    last: usize,
) -> usize {
    if ends_at_write(rt, alloc, call, last) {
        return last;
    }
    let next = last.saturating_add(1);
    judge(rt, ends_at_write(rt, alloc, call, next), "call", call);
    next
}

#[test]
fn each_write_fails_in_turn(rt: HostRuntime) {
    let mut last = 0;
    for call in 0..60 {
        last = write_end(&rt, rt.alloc(), call, last);
    }
    judge(&rt, last == 10, "ends", last as u64);
}
