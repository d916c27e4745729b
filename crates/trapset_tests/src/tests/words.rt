use super::{Case, Look, USUAL, ends, judge};
use std::alloc::Global;
use std::process::Abort;

const USAGE: &str = "usage: trapset traps JOB SET NAME:IN ... | trapset apply SET IN:OUT ...\n";

// Words that are no command.
const OTHER_WORDS: &[&str] = &[
    "",
    "traps",
    "apply",
    "trap job set Cyan:in0",
    "Apply set in0:out0",
    "set in0:out0",
    "traps job",
    "traps job set",
    "traps job set ",
    "traps job set Cyan",
    "traps job set Cyan:",
    "traps job set :in0",
    "traps job set Cyan:in0:out0",
    "traps job set Cyan:in0 ",
    "traps job set Cyan:in0 Cyan:in1",
    "traps job set A:in0 B:in0 C:in0 A:in0",
    "traps job set A:in0 B:in0 C:in0 D:in0 E:in0 F:in0 G:in0 H:in0 I:in0 J:in0 K:in0 L:in0 M:in0 N:in0 O:in0 P:in0 Q:in0",
    "traps --workers 2 job set Cyan:in0",
    "apply set",
    "apply set ",
    "apply set in0",
    "apply set in0:",
    "apply set :out0",
    "apply set in0:out0 ",
    "apply set Cyan:in0:out0",
    "apply set in0:out0 in1:out0",
    "apply set in0:a in0:b in0:c in0:a",
    "apply set a:A a:B a:C a:D a:E a:F a:G a:H a:I a:J a:K a:L a:M a:N a:O a:P a:Q",
];

fn other_words() -> &'static [&'static str] {
    OTHER_WORDS
}

// Whether a run by these words, where all files are there, is refused so.
fn is_refused(rt: &impl Abort, alloc: Global, words: &str, status: u8, reported: &str) -> bool {
    ends(
        rt,
        alloc,
        Case { words, ..USUAL },
        status,
        Look::Refused(reported),
    )
}

#[test]
fn other_words_are_answered_by_the_usage(rt: HostRuntime) {
    for words in other_words() {
        let is = is_refused(&rt, rt.alloc(), words, 2, USAGE);
        judge(&rt, is, words, 2);
    }
}

// Words of files that are not there, and what is printed for the first of them.
const MISSING: &[(&str, &str)] = &[
    ("traps none set Cyan:in0", "read fault: job\n"),
    ("traps  set Cyan:in0", "read fault: job\n"),
    (
        "traps job set Cyan:in0 Magenta:none",
        "read fault: plate 1\n",
    ),
    ("apply none in0:out0 in1:out1", "read fault: set\n"),
    ("apply none in0:out0 none:out1", "read fault: plate 1\n"),
    ("apply  in0:out0 in1:out1", "read fault: set\n"),
];

fn missing_files() -> &'static [(&'static str, &'static str)] {
    MISSING
}

#[test]
fn a_missing_file_is_a_read_fault(rt: HostRuntime) {
    for (words, reported) in missing_files() {
        let is = is_refused(&rt, rt.alloc(), words, 5, reported);
        judge(&rt, is, words, 5);
    }
}
