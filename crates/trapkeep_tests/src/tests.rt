use lists::list::List;
use outside::mem_file::FileList;
use outside::mem_rack::MemRack;
use outside::mem_tray::MemTray;
use std::alloc::Global;
use std::process::Abort;
use test_files::{INKS, WIDE, put_file, rack_of, tray_of, words_of};
use trapkeep_cli::top::trapkeep_main;

// Two plates of one row: a tint of Cyan, and Black on four of its samples.
const CYAN: &[u8] = b"P5\n6 1\n255\n\xFFddddd";

const BLACK: &[u8] = b"P5\n6 1\n255\n\xFF\0\0\0\0\xFF";

// A shape of full ink, which serves as white and as the colour on it.
const SHAPE: &[u8] = b"P5\n10 1\n255\n\xFF\xFF\0\0\0\0\0\0\0\0";

const USUAL: &str = "--rich-black 1 job report Cyan:in0:out0 Black:in1:out1";

const USAGE: &str =
    "usage: trapkeep --rich-black W [--black-limit L] [--except NAME] ... JOB REPORT NAME:IN:OUT ... | trapkeep --underprint NAME=W ... JOB REPORT NAME:IN:OUT ...\n";

// the files that a run may write
const WRITTEN: &[&str] = &["out0", "out1", "report"];

// What stands in them then, in order.
type Files<'a> = &'a [Option<&'a [u8]>];

const NONE: Files<'static> = &[None, None, None];

const DRAWN: Files<'static> = &[
    Some(b"P5\n6 1\n255\n\xFF\xFFdddd"),
    Some(BLACK),
    Some(
        b"keepaway report\npage 6 1 255 plates 2\ncovered 4\nplate Cyan rich-black 1 underprint 0\nplate Black rich-black 0 underprint 0\nend\n",
    ),
];

const SPARED: Files<'static> = &[
    Some(CYAN),
    Some(BLACK),
    Some(
        b"keepaway report\npage 6 1 255 plates 2\ncovered 4\nplate Cyan rich-black 0 underprint 0\nplate Black rich-black 0 underprint 0\nend\n",
    ),
];

const WHITE_DRAWN: Files<'static> = &[
    Some(b"P5\n10 1\n255\n\xFF\xFF\xFF\0\0\0\0\0\0\0"),
    Some(SHAPE),
    Some(
        b"keepaway report\npage 10 1 255 plates 2\ncovered 8\nplate Cyan rich-black 0 underprint 1\nplate Black rich-black 0 underprint 0\nend\n",
    ),
];

fn put(rt: &impl Abort, alloc: Global, files: &mut FileList, name: &str, pieces: &[&[u8]]) {
    assert!(rt; put_file(alloc, files, name, pieces).is_ok(), "no memory");
}

fn files_of(rt: &impl Abort, alloc: Global) -> FileList {
    let mut files = List::new(alloc);
    put(rt, alloc, &mut files, "job", &[INKS, WIDE]);
    put(rt, alloc, &mut files, "in0", &[CYAN]);
    put(rt, alloc, &mut files, "in1", &[BLACK]);
    put(rt, alloc, &mut files, "in2", &[SHAPE]);
    files
}

fn holds(rack: &MemRack, files: Files<'_>) -> bool {
    for (name, wanted) in WRITTEN.iter().zip(files) {
        if rack.file(name) != *wanted {
            return false;
        }
    }
    true
}

// The status, and whether this is told and stands in the files.
fn end_of_call(
    alloc: Global,
    words: &[String],
    tray: &mut MemTray,
    rack: &mut MemRack,
    reported: &str,
    files: Files<'_>,
) -> (u8, bool) {
    let status = trapkeep_main(alloc, words, tray, rack);
    (
        status,
        rack.reported() == reported.as_bytes() && holds(rack, files),
    )
}

fn end_of(
    rt: &impl Abort,
    alloc: Global,
    words: &str,
    tray_fails: Option<u64>,
    reported: &str,
    files: Files<'_>,
) -> (u8, bool) {
    let words = words_of(alloc, words).expect(rt, "no memory");
    let stored = files_of(rt, alloc);
    let mut tray = tray_of(alloc, stored, 64, tray_fails).expect(rt, "no tray");
    let mut rack = rack_of(alloc, 50, 1000, None).expect(rt, "no memory");
    end_of_call(alloc, &words, &mut tray, &mut rack, reported, files)
}

fn judge(
    rt: &impl Abort,
    alloc: Global,
    words: &str,
    status: u8,
    reported: &str,
    files: Files<'_>,
) {
    let end = end_of(rt, alloc, words, None, reported, files);
    assert!(rt; end == (status, true), "{words}");
}

// Words that are no command.
const OTHER_WORDS: &[&str] = &[
    "",
    "--rich-black 1 job report",
    "job report Cyan:in0:out0",
    "--rich-black 101 job report Cyan:in0:out0",
    "--rich-black -1 job report Cyan:in0:out0",
    "--rich-black 1 --rich-black 1 job report Cyan:in0:out0",
    "--rich-black 1 --except Green job report Cyan:in0:out0",
    "--rich-black 1 --black-limit 1.1 job report Cyan:in0:out0",
    "--rich-black 1 job report Cyan:in0:report",
    "--rich-black 1 job report Cyan:in0:in0",
    "--underprint Cyan job report Cyan:in0:out0",
    "--underprint Green=1 job report Cyan:in0:out0",
    "--underprint Cyan=1 --underprint Cyan=2 job report Cyan:in0:out0",
    "--underprint Cyan=1 --rich-black 1 job report Cyan:in0:out0",
    "--underprint Cyan=1 --except Cyan job report Cyan:in0:out0",
];

#[test]
fn other_words_are_answered_by_the_usage(rt: HostRuntime) {
    for words in OTHER_WORDS {
        judge(&rt, rt.alloc(), words, 2, USAGE, NONE);
    }
}

#[test]
fn inks_are_drawn_back_under_black(rt: HostRuntime) {
    judge(&rt, rt.alloc(), USUAL, 0, "", DRAWN);
    judge(
        &rt,
        rt.alloc(),
        "--except Cyan --rich-black .5 -- job report Cyan:in0:out0 Black:in1:out1",
        0,
        "",
        SPARED,
    );
}

#[test]
fn white_is_drawn_back_under_colour(rt: HostRuntime) {
    judge(
        &rt,
        rt.alloc(),
        "--underprint Cyan=1 job report Cyan:in2:out0 Black:in2:out1",
        0,
        "",
        WHITE_DRAWN,
    );
}

// Words of runs that are refused, with their statuses.
const REFUSED: &[(&str, u8)] = &[
    ("--rich-black 1 in0 report Cyan:in0:out0", 3),
    ("--rich-black 1 job report Cyan:job:out0", 4),
    ("--rich-black 1 job report Cyan:none:out0", 5),
];

#[test]
fn a_refused_file_has_its_status(rt: HostRuntime) {
    for (words, status) in REFUSED {
        let end = end_of(&rt, rt.alloc(), words, None, "", NONE);
        assert!(rt; end.0 == *status, "{words}");
    }
}

#[test]
fn a_read_that_fails_writes_nothing(rt: HostRuntime) {
    let end = end_of(&rt, rt.alloc(), USUAL, Some(0), "read fault: job\n", NONE);
    assert!(rt; end == (5, true), "status");
}
