mod failing;
mod gathering;
mod limits;
mod refused;
mod samples;
mod words;
mod worked;
mod workers;
mod writing;

use self::failing::{holds_up_to, is_broken};
use band_claims::{Gate, OpenGate};
use lists::list::List;
use lists::memory::push;
use outside::mem_file::{FileList, MemFile};
use outside::mem_rack::MemRack;
use outside::mem_tray::MemTray;
use std::alloc::Global;
use std::process::Abort;
use std::thread::Threads;
use test_files::{
    CYAN, DISABLED, INKS, MAGENTA, TRAPPED_CYAN, TRAPPED_MAGENTA, TRAPPED_REPORT, UNSLID_CYAN,
    UNSLID_REPORT, UNTRAPPED_REPORT, WIDE, rack_of, tray_of, words_of,
};
use trap_cli::top::trap_main;

// What stands round the parameters of a page, between the inks and the page's end.
const SET: &[u8] = b"<< ";

const END: &[u8] = b" >> settrapparams showpage";

const ONE_PLATE: &str = "page job report Cyan:in0:out0";

const TWO_PLATES: &str = "page job report Cyan:in0:out0 Magenta:in1:out1";

// Plates of one column: above Cyan alone, and below Magenta.
const TALL_CYAN: &[u8] = b"P5\n1 12\n255\n\0\0\0\0\0\0\xFF\xFF\xFF\xFF\xFF\xFF";

const TALL_MAGENTA: &[u8] = b"P5\n1 12\n255\n\xFF\xFF\xFF\xFF\xFF\xFF\0\0\0\0\0\0";

// the files of the plates that are read, in order
const READ: &[&str] = &["in0", "in1", "in2", "in3"];

const WRITTEN: &[&str] = &["out0", "out1", "out2", "out3"];

// A run of the top call over files in memory.
#[derive(Clone, Copy)]
struct Case<'a> {
    // with single spaces between them; no words where it is empty
    words: &'a str,
    // the pieces of the job
    job: &'a [&'a [u8]],
    plates: &'a [&'a [u8]],
    // the number of a file, from 0 for the job, and the place in it at which reads fail
    failing: Option<(usize, u64)>,
    tray_fails: Option<u64>,
    rack_fails: Option<u64>,
    workspace: u64,
}

const USUAL: Case<'static> = Case {
    words: TWO_PLATES,
    job: &[INKS, WIDE],
    plates: &[CYAN, MAGENTA],
    failing: None,
    tray_fails: None,
    rack_fails: None,
    workspace: 10000,
};

// What is looked at where a run has ended.
#[derive(Clone, Copy)]
enum Look<'a> {
    // Of the files none was created, and this is printed.
    Refused(&'a str),
    // These plates and this report were written, and nothing is printed.
    Written(&'a [&'a [u8]], &'a [u8]),
    // This is printed.
    Reported(&'a str),
    // This is printed, and the first plate was not created.
    Unwritten(&'a str),
    // Of the files of the usual case all stand there before this one, this many bytes of it, and no later one; and this
    // is printed.
    UpTo(usize, usize, &'a str),
    // Of what the usual case writes a file broke.
    Broken,
    // None of the files was created.
    Empty,
}

// Stops the test where an answer is wrong, and names the row that it is of.
fn judge(rt: &impl Abort, is_right: bool, row: &str, number: u64) {
    assert!(rt; is_right, "{row}, {number}");
}

// The file of that name, of these pieces one after the other, of which reads fail from that place on.
fn file_of(
    rt: &impl Abort,
    alloc: Global,
    name: &str,
    pieces: &[&[u8]],
    fails_at: Option<u64>,
) -> MemFile {
    let mut file = test_files::file_of(alloc, name, pieces).expect(rt, "no memory");
    file.fails_at = fails_at;
    file
}

fn put(rt: &impl Abort, files: &mut FileList, file: MemFile) {
    assert!(rt; push(files, file).is_ok(), "no memory");
}

// The place at which reads of the file of that number fail.
fn place_in(case: Case<'_>, file: usize) -> Option<u64> {
    match case.failing {
        Some((number, place)) if number == file => Some(place),
        _ => None,
    }
}

fn job_of(rt: &impl Abort, alloc: Global, case: Case<'_>) -> MemFile {
    file_of(rt, alloc, "job", case.job, place_in(case, 0))
}

// Adds that plate where the case has it, by its name of READ.
fn add_plate(rt: &impl Abort, alloc: Global, files: &mut FileList, case: Case<'_>, plate: usize) {
    if let (Some(name), Some(bytes)) = (READ.get(plate), case.plates.get(plate)) {
        let place = place_in(case, plate.saturating_add(1));
        put(rt, files, file_of(rt, alloc, name, &[*bytes], place));
    }
}

// The job and the plates.
fn files_of(rt: &impl Abort, alloc: Global, case: Case<'_>) -> FileList {
    let mut files = List::new(alloc);
    put(rt, &mut files, job_of(rt, alloc, case));
    for plate in 0..READ.len() {
        add_plate(rt, alloc, &mut files, case, plate);
    }
    files
}

// The status, and whether the rack stands so then.
fn end_of_call<H: Threads + Sync, G: Gate + Sync>(
    rt: &H,
    alloc: Global,
    words: &[String],
    tray: &mut MemTray,
    rack: &mut MemRack,
    gate: &G,
    look: Look<'_>,
) -> (u8, bool) {
    let ended = trap_main(rt, alloc, words, tray, rack, gate);
    (ended.status, looks(rack, look))
}

fn end_on_rack<H: Abort + Threads + Sync, G: Gate + Sync>(
    rt: &H,
    alloc: Global,
    words: &[String],
    case: Case<'_>,
    tray: &mut MemTray,
    gate: &G,
    look: Look<'_>,
) -> (u8, bool) {
    let mut rack = rack_of(alloc, 50, case.workspace, case.rack_fails).expect(rt, "no memory");
    end_of_call(rt, alloc, words, tray, &mut rack, gate, look)
}

fn end_on_files<H: Abort + Threads + Sync, G: Gate + Sync>(
    rt: &H,
    alloc: Global,
    words: &[String],
    case: Case<'_>,
    gate: &G,
    look: Look<'_>,
) -> (u8, bool) {
    let files = files_of(rt, alloc, case);
    let mut tray = tray_of(alloc, files, 64, case.tray_fails).expect(rt, "no tray");
    end_on_rack(rt, alloc, words, case, &mut tray, gate, look)
}

// The status of a run, and whether its rack stands so then.
fn run_by<H: Abort + Threads + Sync, G: Gate + Sync>(
    rt: &H,
    alloc: Global,
    case: Case<'_>,
    gate: &G,
    look: Look<'_>,
) -> (u8, bool) {
    let words = words_of(alloc, case.words).expect(rt, "no memory");
    end_on_files(rt, alloc, &words, case, gate, look)
}

fn run(
    rt: &(impl Abort + Threads + Sync),
    alloc: Global,
    case: Case<'_>,
    look: Look<'_>,
) -> (u8, bool) {
    run_by(rt, alloc, case, &OpenGate, look)
}

// Whether a run ends with the status, and its rack stands so then.
fn ends(
    rt: &(impl Abort + Threads + Sync),
    alloc: Global,
    case: Case<'_>,
    status: u8,
    look: Look<'_>,
) -> bool {
    run(rt, alloc, case, look) == (status, true)
}

fn looks(rack: &MemRack, look: Look<'_>) -> bool {
    match look {
        Look::Refused(text) => tells(rack, text) && is_empty(rack),
        Look::Written(plates, report) => tells(rack, "") && holds(rack, plates, report),
        Look::Reported(text) => tells(rack, text),
        Look::Unwritten(text) => tells(rack, text) && has(rack, "out0", None),
        Look::UpTo(broken, count, text) => tells(rack, text) && holds_up_to(rack, broken, count),
        Look::Broken => is_broken(rack),
        Look::Empty => is_empty(rack),
    }
}

fn tells(rack: &MemRack, text: &str) -> bool {
    rack.reported() == text.as_bytes()
}

fn has(rack: &MemRack, name: &str, wanted: Option<&[u8]>) -> bool {
    match (rack.file(name), wanted) {
        (Some(bytes), Some(wanted)) => bytes == wanted,
        (None, None) => true,
        _ => false,
    }
}

// Whether the plates and the report are these.
fn holds(rack: &MemRack, plates: &[&[u8]], report: &[u8]) -> bool {
    for (name, bytes) in WRITTEN.iter().zip(plates) {
        if !has(rack, name, Some(bytes)) {
            return false;
        }
    }
    has(rack, "report", Some(report))
}

// Whether none of the files was created.
fn is_empty(rack: &MemRack) -> bool {
    for name in WRITTEN {
        if !has(rack, name, None) {
            return false;
        }
    }
    has(rack, "report", None)
}
