use super::{CYAN, Case, DISABLED, Look, MAGENTA, USUAL, ends, judge};
use std::alloc::Global;
use std::process::Abort;
use std::thread::Threads;

const USAGE: &str =
    "usage: trap page [--workers N] [--band B] JOB REPORT NAME:IN:OUT ... | trap sample NUMBER WIDTH HEIGHT WORKERS\n";

// Words with single spaces between them, the status that they end with, and the text that is printed. Two spaces stand round
// an empty word.
const WORDS: &[(&str, u8, &str)] = &[
    ("", 2, USAGE),
    ("page", 2, USAGE),
    ("page --workers 0 job report Cyan:in0:out0", 2, USAGE),
    ("page job report Cyan:in0:out0 Cyan:in1:out1", 2, USAGE),
    ("page job report Cyan:in0:report", 2, USAGE),
    ("sample 1 2 3", 2, USAGE),
    (" ", 2, USAGE),
    ("pages job report Cyan:in0:out0", 2, USAGE),
    ("--workers 2 page job report Cyan:in0:out0", 2, USAGE),
    ("page --help", 2, USAGE),
    ("page job report Cyan:in0:out0 -h", 2, USAGE),
    ("page job report", 2, USAGE),
    ("page job report ", 2, USAGE),
    ("page --workers 65 job report Cyan:in0:out0", 2, USAGE),
    ("page --workers +8 job report Cyan:in0:out0", 2, USAGE),
    (
        "page --workers 00000000008 job report Cyan:in0:out0",
        2,
        USAGE,
    ),
    ("page --workers  job report Cyan:in0:out0", 2, USAGE),
    ("page --workers= job report Cyan:in0:out0", 2, USAGE),
    ("page --workers -- job report Cyan:in0:out0", 2, USAGE),
    ("page job report Cyan:in0:out0 --workers", 2, USAGE),
    (
        "page --workers 2 --workers 2 job report Cyan:in0:out0",
        2,
        USAGE,
    ),
    (
        "page --workers=2 job report Cyan:in0:out0 --workers=2",
        2,
        USAGE,
    ),
    ("page --band 8 job --band=8 report Cyan:in0:out0", 2, USAGE),
    ("page --band 0 job report Cyan:in0:out0", 2, USAGE),
    ("page --band 4097 job report Cyan:in0:out0", 2, USAGE),
    ("page --zones 2 job report Cyan:in0:out0", 2, USAGE),
    ("page -- --workers 2 job report Cyan:in0:out0", 2, USAGE),
    ("page job report Cyan:in0:out0 -- --band 8", 2, USAGE),
    ("page job report Cyan:in0:out0:more", 2, USAGE),
    ("page job report Cyan:in0:out0:", 2, USAGE),
    ("page job report Cyan:in0", 2, USAGE),
    ("page job report :in0:out0", 2, USAGE),
    ("page job report Cyan::out0", 2, USAGE),
    ("page job report Cyan:in0:", 2, USAGE),
    ("page job report Cyan:in0:out0 ", 2, USAGE),
    ("page job report Cyan:in0:out0 Magenta:in1:out0", 2, USAGE),
    ("page job report Spot%1:in0:out0", 2, USAGE),
    (
        "page job report nnnnnnnnnnnnnnnnnnnnnnnnnnnnnnnnnnnnnnnnnnnnnnnnnnnnnnnnnnnnnnnnn:in0:out0",
        2,
        USAGE,
    ),
    (
        "page job report A:in0:out0 B:in0:out1 C:in0:out2 D:in0:out3 E:in0:out4 F:in0:out5 G:in0:out6 H:in0:out7 I:in0:out8 J:in0:out9 K:in0:out10 L:in0:out11 M:in0:out12 N:in0:out13 O:in0:out14 P:in0:out15 Q:in0:out16",
        2,
        USAGE,
    ),
    ("sample", 2, USAGE),
    ("sample 1 2 3 4 5", 2, USAGE),
    ("sample 4294967296 8 8 1", 2, USAGE),
    ("sample 0 0 8 1", 2, USAGE),
    ("sample 0 16385 8 1", 2, USAGE),
    ("sample 0 8 16385 1", 2, USAGE),
    ("sample 0 8 8 0", 2, USAGE),
    ("sample 0 8 8 65", 2, USAGE),
    ("sample +1 8 8 1", 2, USAGE),
    ("sample --workers 8 8 1", 2, USAGE),
    ("page --workers=8 job report Cyan:in0:out0", 0, ""),
    (
        "page --workers 8 --band=4096 job report Cyan:in0:out0",
        0,
        "",
    ),
    (
        "page job --band 1 report --workers 0000000064 Cyan:in0:out0",
        0,
        "",
    ),
    (
        "page job report Cyan:in0:out0 --band=9 Magenta:in1:out1 --workers 3",
        0,
        "",
    ),
    ("page -- job report Cyan:in0:out0", 0, ""),
    ("page --workers 2 job -- report Cyan:in0:out0", 0, ""),
    ("page job report Cyan:in0:out0 -- Magenta:in1:out1", 0, ""),
    (
        "page job report nnnnnnnnnnnnnnnnnnnnnnnnnnnnnnnnnnnnnnnnnnnnnnnnnnnnnnnnnnnnnnnn:in0:out0",
        0,
        "",
    ),
    (
        "page job report A:in0:out0 B:in0:out1 C:in0:out2 D:in0:out3 E:in0:out4 F:in0:out5 G:in0:out6 H:in0:out7 I:in0:out8 J:in0:out9 K:in0:out10 L:in0:out11 M:in0:out12 N:in0:out13 O:in0:out14 P:in0:out15",
        0,
        "",
    ),
    ("page job report Cyan:in0:in0", 0, ""),
    ("page job job Cyan:in0:out0", 0, ""),
    ("page job  Cyan:in0:out0", 0, ""),
    ("page  report Cyan:in0:out0", 5, "read fault: job\n"),
    ("page - report Cyan:in0:out0", 5, "read fault: job\n"),
    (
        "page -- --band report Cyan:in0:out0",
        5,
        "read fault: job\n",
    ),
    ("page help report Cyan:in0:out0", 5, "read fault: job\n"),
    (
        "page job report Cyan:job:out0",
        4,
        "plate 0: BadMagic at 0\n",
    ),
    (
        "page job report Cyan:in0:out0 Magenta:in9:out1",
        5,
        "read fault: plate 1\n",
    ),
];

// The table stands in a function of its own: a function that names it is proved with all its rows.
fn all_words() -> &'static [(&'static str, u8, &'static str)] {
    WORDS
}

// Whether a run of these words ends with the status and the text printed, and writes a plate at status 0 alone.
fn is_answered(
    rt: &(impl Abort + Threads + Sync),
    alloc: Global,
    words: &str,
    wanted: u8,
    line: &str,
) -> bool {
    let case = Case {
        words,
        job: &[DISABLED],
        plates: &[CYAN, MAGENTA],
        ..USUAL
    };
    ends(rt, alloc, case, wanted, look_at(wanted, line))
}

fn look_at(wanted: u8, line: &str) -> Look<'_> {
    if wanted == 0 {
        Look::Reported(line)
    } else {
        Look::Unwritten(line)
    }
}

#[test]
fn words_are_a_command_or_a_usage(rt: HostRuntime) {
    for (words, wanted, line) in all_words() {
        let is = is_answered(&rt, rt.alloc(), words, *wanted, line);
        judge(&rt, is, words, u64::from(*wanted));
    }
}
