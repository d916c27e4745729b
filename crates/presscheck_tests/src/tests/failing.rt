use super::{Case, TRAPPED, UNTRAPPED, USUAL, WORDS, ends, judge};
use std::alloc::Global;
use std::process::Abort;

// From which call of the tray on a failed one prints this line: each file is begun by a call and read to its end by a
// last one. The job takes five reads of a grain, each plate eleven for the bytes of its header and one for its samples.
const LINES: [(u64, &str); 3] = [
    (0, "read fault: job\n"),
    (7, "read fault: plate 0\n"),
    (21, "read fault: plate 1\n"),
];

// What is printed where that call of the tray fails.
fn line_at(call: u64) -> &'static str {
    let mut line = LINES[0].1;
    for (first, later) in LINES {
        if first <= call {
            line = later;
        }
    }
    line
}

fn ends_at_read(rt: &impl Abort, alloc: Global, call: u64) -> bool {
    let case = Case {
        tray_fails: Some(call),
        ..USUAL
    };
    if call < 35 {
        ends(rt, alloc, case, 5, line_at(call))
    } else {
        ends(
            rt,
            alloc,
            case,
            0,
            "press check\nradius 1\nbefore 2\nafter 0\nend\n",
        )
    }
}

#[test]
fn each_read_fails_in_turn(rt: HostRuntime) {
    for call in 0..=35 {
        judge(&rt, ends_at_read(&rt, rt.alloc(), call), "call", call);
    }
}

// The runs whose text can't be printed, and their statuses.
const UNTOLD: &[(&str, &[&[u8]], u8)] = &[
    (WORDS, TRAPPED, 6),
    (WORDS, UNTRAPPED, 6),
    ("17 job Cyan:in0", TRAPPED, 2),
    (WORDS, &[b"showpage"], 3),
    ("1 job Cyan:job", TRAPPED, 4),
    ("1 job Cyan:in2", UNTRAPPED, 5),
];

fn is_untold<'a>(
    rt: &impl Abort,
    alloc: Global,
    words: &'a str,
    job: &'a [&'a [u8]],
    status: u8,
) -> bool {
    let case = Case {
        words,
        job,
        rack_fails: Some(0),
        ..USUAL
    };
    ends(rt, alloc, case, status, "")
}

#[test]
fn a_text_that_cannot_be_reported_changes_status_0_alone(rt: HostRuntime) {
    for (words, job, status) in UNTOLD {
        let is = is_untold(&rt, rt.alloc(), words, job, *status);
        judge(&rt, is, words, u64::from(*status));
    }
}
