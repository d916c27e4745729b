use super::{CYAN, Case, MAGENTA, TRAPPED, UNTRAPPED, USAGE, USUAL, ends, judge};
use std::alloc::Global;
use std::process::Abort;

// A check: its words, job and plates, and the status and the text printed.
#[derive(Clone, Copy)]
struct Checked {
    words: &'static str,
    job: &'static [&'static [u8]],
    plates: &'static [&'static [u8]],
    status: u8,
    text: &'static str,
}

const BOTH: &[&[u8]] = &[CYAN, MAGENTA];

const CHECKS: &[Checked] = &[
    Checked {
        words: "1 job Cyan:in0 Magenta:in1",
        job: TRAPPED,
        plates: BOTH,
        status: 0,
        text: "press check\nradius 1\nbefore 2\nafter 0\nend\n",
    },
    Checked {
        words: "0 job Cyan:in0 Magenta:in1",
        job: TRAPPED,
        plates: BOTH,
        status: 0,
        text: "press check\nradius 0\nbefore 0\nafter 0\nend\n",
    },
    Checked {
        words: "2 job Cyan:in0 Magenta:in1",
        job: TRAPPED,
        plates: BOTH,
        status: 0,
        text: "press check\nradius 2\nbefore 4\nafter 2\nend\n",
    },
    Checked {
        words: "3 job Cyan:in0 Magenta:in1",
        job: TRAPPED,
        plates: BOTH,
        status: 0,
        text: "press check\nradius 3\nbefore 6\nafter 4\nend\n",
    },
    Checked {
        words: "0000000016 job Cyan:in0 Magenta:in1",
        job: TRAPPED,
        plates: BOTH,
        status: 0,
        text: "press check\nradius 16\nbefore 6\nafter 6\nend\n",
    },
    Checked {
        words: "1 job Cyan:in0",
        job: UNTRAPPED,
        plates: BOTH,
        status: 0,
        text: "press check\nradius 1\nbefore 1\nafter 1\nend\n",
    },
    // one plate's file, read as two plates
    Checked {
        words: "2 job Cyan:in0 Magenta:in0",
        job: UNTRAPPED,
        plates: BOTH,
        status: 0,
        text: "press check\nradius 2\nbefore 2\nafter 2\nend\n",
    },
    Checked {
        words: "1 job Cyan:in0 Magenta:in1",
        job: &[b"<< /TrapWidth 0 >> settrapparams showpage"],
        plates: BOTH,
        status: 3,
        text: "job: OutOfRange TrapWidth at 14\n",
    },
    Checked {
        words: "1 job Orange:in0 Magenta:in1",
        job: TRAPPED,
        plates: BOTH,
        status: 3,
        text: "job: NoDetails for plate 0\n",
    },
    Checked {
        words: "1 job Cyan:in0 Magenta:job",
        job: TRAPPED,
        plates: BOTH,
        status: 4,
        text: "plate 1: BadMagic at 0\n",
    },
    Checked {
        words: "1 job Cyan:in0 Magenta:in1",
        job: TRAPPED,
        plates: &[CYAN, b"P5\n5 1\n255\n\xFF\xFF\xFF\0\0"],
        status: 4,
        text: "page: SizeDiffers plate 1\n",
    },
    Checked {
        words: "1  Cyan:in0",
        job: TRAPPED,
        plates: BOTH,
        status: 5,
        text: "read fault: job\n",
    },
    Checked {
        words: "1 job Cyan:in0 Magenta:in2",
        job: TRAPPED,
        plates: BOTH,
        status: 5,
        text: "read fault: plate 1\n",
    },
];

// The tables stand in functions of their own: a function that names one is proved with all its rows.
fn checks() -> &'static [Checked] {
    CHECKS
}

fn is_reported(rt: &impl Abort, alloc: Global, check: &Checked) -> bool {
    let case = Case {
        words: check.words,
        job: check.job,
        plates: check.plates,
        ..USUAL
    };
    ends(rt, alloc, case, check.status, check.text)
}

#[test]
fn checks_tell_their_counts_or_why_there_are_none(rt: HostRuntime) {
    for check in checks() {
        let is = is_reported(&rt, rt.alloc(), check);
        judge(&rt, is, check.words, u64::from(check.status));
    }
}

// Words that are no check.
const OTHER_WORDS: &[&str] = &[
    "",
    "1",
    "1 job",
    "1 job ",
    "17 job Cyan:in0",
    "+1 job Cyan:in0",
    "-1 job Cyan:in0",
    "00000000001 job Cyan:in0",
    "4294967297 job Cyan:in0",
    " job Cyan:in0",
    "one job Cyan:in0",
    "job 1 Cyan:in0",
    "1 job Cyan",
    "1 job Cyan:",
    "1 job :in0",
    "1 job Cyan:in0:out0",
    "1 job Cyan:in0 ",
    "1 job Cyan:in0 Cyan:in1",
    "1 job A:in0 B:in0 C:in0 A:in0",
    "1 job A:in0 B:in0 C:in0 D:in0 E:in0 F:in0 G:in0 H:in0 I:in0 J:in0 K:in0 L:in0 M:in0 N:in0 O:in0 P:in0 Q:in0",
    "page job report Cyan:in0:out0",
];

fn other_words() -> &'static [&'static str] {
    OTHER_WORDS
}

fn is_no_check(rt: &impl Abort, alloc: Global, words: &str) -> bool {
    let case = Case {
        words,
        job: UNTRAPPED,
        ..USUAL
    };
    ends(rt, alloc, case, 2, USAGE)
}

#[test]
fn other_words_are_answered_by_the_usage(rt: HostRuntime) {
    for words in other_words() {
        judge(&rt, is_no_check(&rt, rt.alloc(), words), words, 2);
    }
}
