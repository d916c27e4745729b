use super::{
    APPLY, Case, Look, TRAPPED_CYAN, TRAPPED_MAGENTA, TRAPS, USUAL, WRITTEN, ends, judge, run,
    tells,
};
use outside::mem_rack::MemRack;
use std::alloc::Global;
use std::process::Abort;

// what `apply` writes into the files of WRITTEN, and `traps`
const PATCHED: &[Option<&[u8]>] = &[None, Some(TRAPPED_CYAN), Some(TRAPPED_MAGENTA)];

const MADE: &[Option<&[u8]>] = &[Some(b"trap set\npage 6 1 255 plates 2\nend\n"), None, None];

// From which call of the tray on a failed one prints this line: each file is begun by a call and read to its end by a
// last one. The job takes one read of a grain, each plate eleven for the bytes of its header and one for its samples,
// the set one.
const READS: &[(&str, &[(u64, &str)], u64, &[Option<&[u8]>])] = &[
    (
        TRAPS,
        &[
            (0, "read fault: job\n"),
            (3, "read fault: plate 0\n"),
            (17, "read fault: plate 1\n"),
        ],
        31,
        MADE,
    ),
    (
        APPLY,
        &[
            (0, "read fault: plate 0\n"),
            (14, "read fault: plate 1\n"),
            (28, "read fault: set\n"),
        ],
        31,
        PATCHED,
    ),
];

// What is printed where that call of the tray fails.
fn line_at<'a>(lines: &[(u64, &'a str)], call: u64) -> &'a str {
    let mut line = "";
    for (first, later) in lines {
        if *first <= call {
            line = later;
        }
    }
    line
}

fn with_calls(words: &str, tray_fails: Option<u64>, rack_fails: Option<u64>) -> Case<'_> {
    Case {
        words,
        tray_fails,
        rack_fails,
        ..USUAL
    }
}

// Whether a run in which that call of the tray fails prints the line of that call; the last one is never made.
fn ends_at_read(
    rt: &impl Abort,
    alloc: Global,
    (words, lines, count, files): (&str, &[(u64, &str)], u64, &[Option<&[u8]>]),
    call: u64,
) -> bool {
    let case = with_calls(words, Some(call), None);
    if call < count {
        ends(rt, alloc, case, 5, Look::Refused(line_at(lines, call)))
    } else {
        ends(rt, alloc, case, 0, Look::Written(files))
    }
}

#[test]
fn each_read_fails_in_turn(rt: HostRuntime) {
    for reads in READS {
        for call in 0..=reads.2 {
            judge(
                &rt,
                ends_at_read(&rt, rt.alloc(), *reads, call),
                reads.0,
                call,
            );
        }
    }
}

// Whether that stands of a file: all of it, a prefix or nothing where it is the one that broke, and nothing after that.
fn is_right(stored: Option<&[u8]>, whole: Option<&[u8]>, is_broken: bool, is_later: bool) -> bool {
    match (stored, whole) {
        (Some(stored), Some(whole)) => !is_later
            && (stored == whole || is_broken)
            && whole.starts_with(stored),
        (Some(_), None) => false,
        (None, Some(_)) => is_later || is_broken,
        (None, None) => true,
    }
}

// Whether a file broke: all files before it are whole, of it there is a prefix or nothing, and none of the later ones.
pub(super) fn is_broken(rack: &MemRack, files: &[Option<&[u8]>], lines: &[&str]) -> bool {
    let mut is_later = false;
    for (place, name) in WRITTEN.iter().enumerate() {
        let is_broken = lines.get(place).is_some_and(|line| tells(rack, line));
        let whole = files.get(place).copied().flatten();
        if !is_right(rack.file(name), whole, is_broken, is_later) {
            return false;
        }
        is_later = is_later || is_broken;
    }
    is_later
}

// The words, what is written, and what is printed for each file of WRITTEN that breaks.
const WRITES: &[(&str, &[Option<&[u8]>], &[&str])] = &[
    (TRAPS, MADE, &["write fault: set\n", "", ""]),
    (
        APPLY,
        PATCHED,
        &[
            "no line",
            "write fault: plate 0\n",
            "write fault: plate 1\n",
        ],
    ),
];

// Whether a run in which that call of the rack fails breaks a file so; `None` where it has no such call.
fn ends_at_write(
    rt: &impl Abort,
    alloc: Global,
    (words, files, lines): (&str, &[Option<&[u8]>], &[&str]),
    call: u64,
) -> Option<bool> {
    let case = with_calls(words, None, Some(call));
    match run(rt, alloc, case, Look::Broken(files, lines)) {
        (0, _) => None,
        end => Some(end == (6, true)),
    }
}

// Judges the end of a run in which that call fails, and gives how many calls there are so far: each before has failed.
fn judge_end(rt: &impl Abort, end: Option<bool>, words: &str, call: u64, calls: u64) -> u64 {
    match end {
        Some(is_right) => {
            judge(rt, is_right && calls == call, words, call);
            call.saturating_add(1)
        }
        None => calls,
    }
}

#[test]
fn each_write_fails_in_turn(rt: HostRuntime) {
    for writes in WRITES {
        let mut calls = 0;
        for call in 0..40 {
            let end = ends_at_write(&rt, rt.alloc(), *writes, call);
            calls = judge_end(&rt, end, writes.0, call, calls);
        }
        judge(&rt, 3 <= calls && calls < 40, writes.0, calls);
    }
}

// The runs whose line can't be printed, and their statuses.
const UNTOLD: &[(&str, u8)] = &[
    ("apply set", 2),
    ("traps in0 set Cyan:in0", 3),
    ("apply set job:out0", 4),
    ("apply none in0:out0", 5),
    ("apply set in0:out0", 8),
    ("apply job in0:out0 in1:out1", 8),
];

#[test]
fn a_line_that_cannot_be_reported_leaves_its_status(rt: HostRuntime) {
    for (words, status) in UNTOLD {
        let case = with_calls(words, None, Some(0));
        let is = ends(&rt, rt.alloc(), case, *status, Look::Refused(""));
        judge(&rt, is, words, u64::from(*status));
    }
}
