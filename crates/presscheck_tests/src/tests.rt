mod counts;
mod failing;
mod windows;
mod worked;

use lists::list::List;
use outside::mem_file::FileList;
use outside::mem_rack::MemRack;
use outside::mem_tray::MemTray;
use presscheck_cli::top::presscheck_main;
use std::alloc::Global;
use std::process::Abort;
use test_files::{CYAN, DISABLED, INKS, MAGENTA, WIDE, put_file, rack_of, tray_of, words_of};

// the files that are read: the job, and the plates in order
const READ: &[&str] = &[
    "job", "in0", "in1", "in2", "in3", "in4", "in5", "in6", "in7", "in8", "in9", "in10", "in11",
    "in12", "in13", "in14", "in15",
];

const USAGE: &str = "usage: presscheck RADIUS JOB NAME:IN ...\n";

const WORDS: &str = "1 job Cyan:in0 Magenta:in1";

// The pieces of jobs.
const TRAPPED: &[&[u8]] = &[INKS, WIDE];

const UNTRAPPED: &[&[u8]] = &[DISABLED];

// A run of the program over files in memory: its words, the pieces of its job, its plates, and a call of the tray or of the rack
// that fails.
#[derive(Clone, Copy)]
struct Case<'a> {
    words: &'a str,
    job: &'a [&'a [u8]],
    plates: &'a [&'a [u8]],
    tray_fails: Option<u64>,
    rack_fails: Option<u64>,
}

const USUAL: Case<'static> = Case {
    words: WORDS,
    job: TRAPPED,
    plates: &[CYAN, MAGENTA],
    tray_fails: None,
    rack_fails: None,
};

// Stops the test where an answer is wrong, and names the row that it is of.
fn judge(rt: &impl Abort, is_right: bool, row: &str, number: u64) {
    assert!(rt; is_right, "{row}, {number}");
}

// Adds the file of that number of READ.
fn put(rt: &impl Abort, alloc: Global, files: &mut FileList, number: usize, pieces: &[&[u8]]) {
    if let Some(name) = READ.get(number) {
        assert!(rt; put_file(alloc, files, name, pieces).is_ok(), "no memory");
    }
}

// The job and the plates, by the names of READ.
fn files_of(rt: &impl Abort, alloc: Global, case: Case<'_>) -> FileList {
    let mut files = List::new(alloc);
    put(rt, alloc, &mut files, 0, case.job);
    for (plate, bytes) in case.plates.iter().enumerate() {
        put(rt, alloc, &mut files, plate.saturating_add(1), &[*bytes]);
    }
    files
}

// The status, and whether the text is printed and none of the files that are read was created.
fn end_of_call(
    alloc: Global,
    words: &[String],
    tray: &mut MemTray,
    rack: &mut MemRack,
    text: &str,
) -> (u8, bool) {
    let status = presscheck_main(alloc, words, tray, rack);
    (status, rack.reported() == text.as_bytes() && is_empty(rack))
}

fn end_on_rack(
    rt: &impl Abort,
    alloc: Global,
    words: &[String],
    tray: &mut MemTray,
    case: Case<'_>,
    text: &str,
) -> (u8, bool) {
    let mut rack = rack_of(alloc, 50, 1000, case.rack_fails).expect(rt, "no memory");
    end_of_call(alloc, words, tray, &mut rack, text)
}

fn end_on_files(
    rt: &impl Abort,
    alloc: Global,
    words: &[String],
    case: Case<'_>,
    text: &str,
) -> (u8, bool) {
    let files = files_of(rt, alloc, case);
    let mut tray = tray_of(alloc, files, 64, case.tray_fails).expect(rt, "no tray");
    end_on_rack(rt, alloc, words, &mut tray, case, text)
}

// Whether a run ends with the status and the text printed, and created none of the files that it reads.
fn ends(rt: &impl Abort, alloc: Global, case: Case<'_>, status: u8, text: &str) -> bool {
    let words = words_of(alloc, case.words).expect(rt, "no memory");
    end_on_files(rt, alloc, &words, case, text) == (status, true)
}

fn is_empty(rack: &MemRack) -> bool {
    for name in READ {
        if rack.file(name).is_some() {
            return false;
        }
    }
    true
}
