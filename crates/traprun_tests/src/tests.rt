mod failing;
mod many;
mod pages;
mod refused;
mod words;
mod worked;

use self::failing::holds_prefix;
use band_claims::OpenGate;
use lists::list::List;
use outside::mem_file::FileList;
use outside::mem_rack::MemRack;
use outside::mem_tray::MemTray;
use std::alloc::Global;
use std::process::Abort;
use std::thread::Threads;
use test_files::{
    CYAN, DISABLED, INKS, MAGENTA, TRAPPED_CYAN, TRAPPED_MAGENTA, TRAPPED_REPORT, UNSLID_CYAN,
    UNSLID_REPORT, UNTRAPPED_REPORT, WIDE, put_file, rack_of, tray_of, words_of,
};
use traprun_cli::top::traprun_main;

const SHOW: &[u8] = b" showpage";

const DARKER_SIDE: &[u8] = b" << /SlidingTrapLimit 1 >> settrapparams showpage";

const TWO_PLATES: &str = "4 64 job report Cyan:in0:out0 Magenta:in1:out1";

// the files that are read: the job, and the plates in order
const READ: &[&str] = &["job", "in0", "in1"];

// the files that two pages of two plates write, in their order, and those of one page more
const WRITTEN: &[&str] = &[
    "out0.0", "out1.0", "report.0", "out0.1", "out1.1", "report.1", "out0.2", "out1.2", "report.2",
    "out0.3", "out1.3", "report.3",
];

// The bytes of a file, one piece after the other.
type Pieces<'a> = &'a [&'a [u8]];

// A run of the program over files in memory: its words, each file of READ, and a call of the tray or of the rack that fails.
#[derive(Clone, Copy)]
struct Case<'a> {
    words: &'a str,
    files: &'a [Pieces<'a>],
    tray_fails: Option<u64>,
    rack_fails: Option<u64>,
}

// A run of one page, in which no call fails.
const USUAL: Case<'static> = Case {
    words: TWO_PLATES,
    files: &[&[DISABLED], &[CYAN], &[MAGENTA]],
    tray_fails: None,
    rack_fails: None,
};

// What is looked at where a run has ended: what is printed, and what stands in files.
#[derive(Clone, Copy)]
enum Look<'a> {
    // Of the files of WRITTEN these stand there, from the first on, and no more.
    Left(&'a str, &'a [&'a [u8]]),
    // This many files of a run of two pages are whole, of the next one there is a prefix or nothing, and no more.
    Broken(&'a str, usize),
    // In these files that stands.
    Some(&'a str, &'a [(&'a str, Option<&'a [u8]>)]),
}

// Stops the test where an answer is wrong, and names the row that it is of.
fn judge(rt: &impl Abort, is_right: bool, row: &str, number: u64) {
    assert!(rt; is_right, "{row}, {number}");
}

// The job and the plates, by the names of READ.
fn files_of(rt: &impl Abort, alloc: Global, found: &[Pieces<'_>]) -> FileList {
    let mut files = List::new(alloc);
    for (name, pieces) in READ.iter().zip(found) {
        assert!(rt;
            put_file(alloc, &mut files, name, pieces).is_ok(),
            "no memory"
        );
    }
    files
}

// The status, and whether the rack stands so then.
fn end_of_call(
    rt: &(impl Threads + Sync),
    alloc: Global,
    words: &[String],
    tray: &mut MemTray,
    rack: &mut MemRack,
    look: Look<'_>,
) -> (u8, bool) {
    let status = traprun_main(rt, alloc, words, tray, rack, &OpenGate);
    (status, looks(rack, look))
}

fn end_on_rack(
    rt: &(impl Abort + Threads + Sync),
    alloc: Global,
    words: &[String],
    tray: &mut MemTray,
    case: Case<'_>,
    look: Look<'_>,
) -> (u8, bool) {
    let mut rack = rack_of(alloc, 50, 100000, case.rack_fails).expect(rt, "no memory");
    end_of_call(rt, alloc, words, tray, &mut rack, look)
}

fn end_on_files(
    rt: &(impl Abort + Threads + Sync),
    alloc: Global,
    words: &[String],
    case: Case<'_>,
    look: Look<'_>,
) -> (u8, bool) {
    let files = files_of(rt, alloc, case.files);
    let mut tray = tray_of(alloc, files, 64, case.tray_fails).expect(rt, "no tray");
    end_on_rack(rt, alloc, words, &mut tray, case, look)
}

// The status of a run, and whether its rack stands so then.
fn run(
    rt: &(impl Abort + Threads + Sync),
    alloc: Global,
    case: Case<'_>,
    look: Look<'_>,
) -> (u8, bool) {
    let words = words_of(alloc, case.words).expect(rt, "no memory");
    end_on_files(rt, alloc, &words, case, look)
}

// Whether a run ends with the status, and its rack stands so then.
fn ends(
    rt: &(impl Abort + Threads + Sync),
    alloc: Global,
    case: Case<'_>,
    status: u8,
    look: Look<'_>,
) -> bool {
    run(rt, alloc, case, look) == (status, true)
}

// Whether a run over these files by the usual words ends so.
fn files_end(
    rt: &(impl Abort + Threads + Sync),
    alloc: Global,
    files: &[Pieces<'_>],
    status: u8,
    look: Look<'_>,
) -> bool {
    ends(rt, alloc, Case { files, ..USUAL }, status, look)
}

fn looks(rack: &MemRack, look: Look<'_>) -> bool {
    match look {
        Look::Left(reported, files) => tells(rack, reported) && holds(rack, files),
        Look::Broken(reported, count) => tells(rack, reported) && holds_prefix(rack, count),
        Look::Some(reported, files) => tells(rack, reported) && holds_some(rack, files),
    }
}

fn tells(rack: &MemRack, reported: &str) -> bool {
    rack.reported() == reported.as_bytes()
}

// Whether of the files of WRITTEN these stand there, from the first on, and no more.
fn holds(rack: &MemRack, files: &[&[u8]]) -> bool {
    for (place, name) in WRITTEN.iter().enumerate() {
        if rack.file(name) != files.get(place).copied() {
            return false;
        }
    }
    true
}

fn holds_some(rack: &MemRack, files: &[(&str, Option<&[u8]>)]) -> bool {
    for (name, bytes) in files {
        if rack.file(name) != *bytes {
            return false;
        }
    }
    true
}
