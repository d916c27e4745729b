mod failing;
mod lines;
mod plates;
mod rows;
mod words;
mod worked;

use self::failing::is_broken;
use lists::list::List;
use outside::mem_file::FileList;
use outside::mem_rack::MemRack;
use outside::mem_tray::MemTray;
use std::alloc::Global;
use std::process::Abort;
use test_files::{
    CYAN, DISABLED, INKS, MAGENTA, TRAPPED_CYAN, TRAPPED_MAGENTA, WIDE, put_file, rack_of, tray_of,
    words_of,
};
use trapset_cli::top::trapset_main;

// The set of these plates with a trap of two samples.
const SET: &[u8] = b"trap set\npage 6 1 255 plates 2\nrun 0 2 2 255 255\nend\n";

const TRAPS: &str = "traps job set Cyan:in0 Magenta:in1";

const APPLY: &str = "apply set in0:out0 in1:out1";

// the files of the plates, in order
const READ: &[&str] = &[
    "in0", "in1", "in2", "in3", "in4", "in5", "in6", "in7", "in8", "in9", "in10", "in11", "in12",
    "in13", "in14", "in15",
];

// the files that a run may write
const WRITTEN: &[&str] = &["set", "out0", "out1"];

// The bytes of a file, one piece after the other.
type Pieces<'a> = &'a [&'a [u8]];

// A run of the program over files in memory: its words, its job, the plates by the names of READ, its set, the files that it may
// write, and a call of the tray or of the rack that fails.
#[derive(Clone, Copy)]
struct Case<'a> {
    words: &'a str,
    job: Pieces<'a>,
    plates: &'a [&'a [u8]],
    set: Pieces<'a>,
    written: &'a [&'a str],
    tray_fails: Option<u64>,
    rack_fails: Option<u64>,
}

// A run of `apply` onto the two plates.
const USUAL: Case<'static> = Case {
    words: APPLY,
    job: &[DISABLED],
    plates: &[CYAN, MAGENTA],
    set: &[SET],
    written: WRITTEN,
    tray_fails: None,
    rack_fails: None,
};

// A run of these words over other files.
fn case_of<'a>(
    words: &'a str,
    job: Pieces<'a>,
    plates: &'a [&'a [u8]],
    set: Pieces<'a>,
) -> Case<'a> {
    Case {
        words,
        job,
        plates,
        set,
        written: WRITTEN,
        tray_fails: None,
        rack_fails: None,
    }
}

// What is looked at where a run has ended.
#[derive(Clone, Copy)]
enum Look<'a> {
    // This is printed, and none of the files was created.
    Refused(&'a str),
    // Nothing is printed, and this stands in the files, in their order.
    Written(&'a [Option<&'a [u8]>]),
    // A file of these is broken off, and the line of that one is printed.
    Broken(&'a [Option<&'a [u8]>], &'a [&'a str]),
}

// Stops the test where an answer is wrong, and names the row that it is of.
fn judge(rt: &impl Abort, is_right: bool, row: &str, number: u64) {
    assert!(rt; is_right, "{row}, {number}");
}

fn put(rt: &impl Abort, alloc: Global, files: &mut FileList, name: &str, pieces: Pieces<'_>) {
    assert!(rt; put_file(alloc, files, name, pieces).is_ok(), "no memory");
}

// The job, the plates and the set.
fn files_of(rt: &impl Abort, alloc: Global, case: Case<'_>) -> FileList {
    let mut files = List::new(alloc);
    put(rt, alloc, &mut files, "job", case.job);
    put(rt, alloc, &mut files, "set", case.set);
    for (name, bytes) in READ.iter().zip(case.plates) {
        put(rt, alloc, &mut files, name, &[*bytes]);
    }
    files
}

// The status, and whether the rack stands so then.
fn end_of_call(
    alloc: Global,
    words: &[String],
    tray: &mut MemTray,
    rack: &mut MemRack,
    case: Case<'_>,
    look: Look<'_>,
) -> (u8, bool) {
    let status = trapset_main(alloc, words, tray, rack);
    (status, looks(rack, case.written, look))
}

fn end_on_rack(
    rt: &impl Abort,
    alloc: Global,
    words: &[String],
    tray: &mut MemTray,
    case: Case<'_>,
    look: Look<'_>,
) -> (u8, bool) {
    let mut rack = rack_of(alloc, 50, 1000, case.rack_fails).expect(rt, "no memory");
    end_of_call(alloc, words, tray, &mut rack, case, look)
}

fn end_on_files(
    rt: &impl Abort,
    alloc: Global,
    words: &[String],
    case: Case<'_>,
    look: Look<'_>,
) -> (u8, bool) {
    let files = files_of(rt, alloc, case);
    let mut tray = tray_of(alloc, files, 64, case.tray_fails).expect(rt, "no tray");
    end_on_rack(rt, alloc, words, &mut tray, case, look)
}

// The status of a run, and whether its rack stands so then.
fn run(rt: &impl Abort, alloc: Global, case: Case<'_>, look: Look<'_>) -> (u8, bool) {
    let words = words_of(alloc, case.words).expect(rt, "no memory");
    end_on_files(rt, alloc, &words, case, look)
}

// Whether a run ends with the status, and its rack stands so then.
fn ends(rt: &impl Abort, alloc: Global, case: Case<'_>, status: u8, look: Look<'_>) -> bool {
    run(rt, alloc, case, look) == (status, true)
}

// Whether the set, put onto the two plates, ends so.
fn set_ends(rt: &impl Abort, alloc: Global, set: Pieces<'_>, status: u8, look: Look<'_>) -> bool {
    ends(rt, alloc, Case { set, ..USUAL }, status, look)
}

fn looks(rack: &MemRack, names: &[&str], look: Look<'_>) -> bool {
    match look {
        Look::Refused(text) => tells(rack, text) && is_empty(rack, names),
        Look::Written(files) => tells(rack, "") && holds(rack, names, files),
        Look::Broken(files, lines) => is_broken(rack, files, lines),
    }
}

fn tells(rack: &MemRack, text: &str) -> bool {
    rack.reported() == text.as_bytes()
}

// Whether that stands in the file of that name, or there is none.
fn has(rack: &MemRack, name: &str, wanted: Option<&[u8]>) -> bool {
    rack.file(name) == wanted
}

fn holds(rack: &MemRack, names: &[&str], files: &[Option<&[u8]>]) -> bool {
    for (name, wanted) in names.iter().zip(files) {
        if !has(rack, name, *wanted) {
            return false;
        }
    }
    true
}

// Whether none of the files was created.
fn is_empty(rack: &MemRack, names: &[&str]) -> bool {
    for name in names {
        if !has(rack, name, None) {
            return false;
        }
    }
    true
}
