use super::{CYAN, Case, Look, MAGENTA, UNTRAPPED_REPORT, USUAL, ends, judge};
use std::alloc::Global;
use std::process::Abort;
use std::thread::Threads;

const USAGE: &str = "usage: traprun WORKERS BAND JOB REPORT NAME:IN:OUT ...\n";

// Words that mean no run. In the last ones a file that is read is one that a page could write.
const WRONG: &[&str] = &[
    "",
    "1 64 job report",
    "0 64 job report Cyan:in0:out0",
    "65 64 job report Cyan:in0:out0",
    "1 0 job report Cyan:in0:out0",
    "1 4097 job report Cyan:in0:out0",
    "00000000001 64 job report Cyan:in0:out0",
    "1 64 job report Cyan:in0",
    "1 64 job report Cyan:in0:out0 Cyan:in1:out1",
    "1 64 job report Cyan:in0:out0 Magenta:in1:out0",
    "1 64 job report Cyan:in0:report",
    "1 64 job report :in0:out0",
    "1 64 report.0 report Cyan:in0:out0",
    "1 64 out0.12 report Cyan:in0:out0",
    "1 64 job report Cyan:out0.007:out0",
    "1 64 job report Cyan:report.1:out0",
    "1 64 job report Cyan:in0:out0 Magenta:out0.9999999999:out1",
];

// Words that do mean one: the names that are read only look like such files.
const RIGHT: &[&str] = &[
    "64 4096 job report Cyan:in0:out0 Magenta:in1:out1",
    "0000000001 1 job report Cyan:in0:out0 Magenta:in1:out1",
];

// Words by which a file that is not there would be read, and the line of that.
const MISSING: &[(&str, &str)] = &[
    ("1 64 out0. report Cyan:in0:out0", "read fault: job\n"),
    ("1 64 out0.1a report Cyan:in0:out0", "read fault: job\n"),
    ("1 64 report report Cyan:in0:out0", "read fault: job\n"),
    (
        "1 64 job report Cyan:out0:out0",
        "page 0: read fault: plate 0\n",
    ),
    (
        "1 64 job report Cyan:out.1:out0",
        "page 0: read fault: plate 0\n",
    ),
];

fn wrong_words() -> &'static [&'static str] {
    WRONG
}

// Whether a run of one page by these words ends so.
fn words_end(
    rt: &(impl Abort + Threads + Sync),
    alloc: Global,
    words: &str,
    status: u8,
    look: Look<'_>,
) -> bool {
    ends(rt, alloc, Case { words, ..USUAL }, status, look)
}

#[test]
fn words_that_mean_no_run_are_refused(rt: HostRuntime) {
    for words in wrong_words() {
        let is = words_end(&rt, rt.alloc(), words, 2, Look::Left(USAGE, &[]));
        judge(&rt, is, words, 2);
    }
}

#[test]
fn a_file_that_is_not_there_is_a_read_fault(rt: HostRuntime) {
    for (words, line) in MISSING {
        let is = words_end(&rt, rt.alloc(), words, 5, Look::Left(line, &[]));
        judge(&rt, is, words, 5);
    }
}

const WHOLE: Look<'static> = Look::Left("", &[CYAN, MAGENTA, UNTRAPPED_REPORT]);

#[test]
fn other_words_mean_a_run(rt: HostRuntime) {
    for words in RIGHT {
        judge(&rt, words_end(&rt, rt.alloc(), words, 0, WHOLE), words, 0);
    }
}
