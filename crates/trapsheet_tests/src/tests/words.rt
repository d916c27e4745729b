use super::{WIDE, Wanted, case_of, ends};
use std::alloc::{AllocError, Global};
use std::process::Abort;
use std::test::Fail;
use std::thread::Threads;
use test_files::{CYAN, DISABLED, MAGENTA, UNTRAPPED_REPORT};

const USAGE: &str = "usage: trapsheet WORKERS JOB REPORT NAME:IN:OUT ...\n";

// Words that mean no sheet. In the last ones a file that is read is one that is written.
const WRONG: &[&str] = &[
    "",
    "1 job report",
    "0 job report Cyan:in0:out0",
    "65 job report Cyan:in0:out0",
    "00000000001 job report Cyan:in0:out0",
    "1 job report Cyan:in0",
    "1 job report Cyan:in0:out0 Cyan:in1:out1",
    "1 job report Cyan:in0:out0 Magenta:in1:out0",
    "1 job report Cyan:in0:report",
    "1 job report :in0:out0",
    "1 job report Cyan:in0:out:0",
    "1 job job Cyan:in0:out0",
    "1 in0 report Cyan:in0:in0",
    "1 out0 report Cyan:in0:out0",
    "1 job in1 Cyan:in0:out0 Magenta:in1:out1",
    "1 job report Cyan:out1:out0 Magenta:in1:out1",
];

const RIGHT: &[&str] = &[
    "64 job report Cyan:in0:out0 Magenta:in1:out1",
    "0000000001 job report Cyan:in0:out0 Magenta:in1:out1",
];

// Words by which a file that is not there would be read, and the line of that.
const MISSING: &[(&str, &str)] = &[
    ("1 out0.1 report Cyan:in0:out0", "read fault: job\n"),
    ("1 job report Cyan:out:out0", "read fault: plate 0\n"),
    (
        "1 job report Cyan:in0:out0 Magenta:in0:out1",
        "read fault: plate 1\n",
    ),
];

// Whether a run by these words ends so.
fn end_so(
    rt: &(impl Abort + Threads + Sync),
    alloc: Global,
    words: &str,
    wanted: Wanted<'_>,
) -> Result<bool, AllocError> {
    let mut case = case_of(&[DISABLED], &[&[CYAN], &[MAGENTA]], WIDE);
    case.words = words;
    ends(rt, alloc, case, wanted)
}

fn error_with(status: u8, reported: &str) -> Wanted<'_> {
    Wanted {
        status,
        reported,
        plates: &[],
        report: None,
    }
}

#[test]
fn words_that_mean_no_sheet_are_refused(rt: HostRuntime) -> Result<(), Fail> {
    for words in WRONG {
        assert!(rt;
            end_so(&rt, rt.alloc(), words, error_with(2, USAGE))?,
            "{words}"
        );
    }
    Ok(())
}

#[test]
fn a_file_that_is_not_there_is_a_read_fault(rt: HostRuntime) -> Result<(), Fail> {
    for (words, line) in MISSING {
        assert!(rt;
            end_so(&rt, rt.alloc(), words, error_with(5, line))?,
            "{words}"
        );
    }
    Ok(())
}

#[test]
fn other_words_mean_a_sheet(rt: HostRuntime) -> Result<(), Fail> {
    let wanted = Wanted {
        status: 0,
        reported: "",
        plates: &[CYAN, MAGENTA],
        report: Some(UNTRAPPED_REPORT),
    };
    for words in RIGHT {
        assert!(rt; end_so(&rt, rt.alloc(), words, wanted)?, "{words}");
    }
    Ok(())
}
