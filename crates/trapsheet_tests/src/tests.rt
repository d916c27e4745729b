mod cut;
mod failing;
mod words;
mod worked;

use lists::list::List;
use lists::names::OutOfMemory;
use outside::mem_file::FileList;
use outside::mem_rack::MemRack;
use outside::mem_tray::MemTray;
use sheet_geometry::budget::Budget;
use std::alloc::{AllocError, Global};
use std::process::Abort;
use std::thread::Threads;
use test_files::{put_file, rack_of, tray_of, words_of};
use trapsheet_cli::top::trapsheet_within;

const TWO_PLATES: &str = "4 job report Cyan:in0:out0 Magenta:in1:out1";

// Windows of a few samples, and windows that every page of these tests fits into.
const NARROW: Budget = Budget {
    rows: 1,
    samples: 1,
};

const WIDE: Budget = Budget {
    rows: 512,
    samples: 2_000_000,
};

// A column of twelve samples, cut into several strips: the same edge, from above to below.
const CYAN_DOWN: &[u8] = b"P5\n1 12\n255\n\0\0\0\0\0\0\xFF\xFF\xFF\xFF\xFF\xFF";

const MAGENTA_DOWN: &[u8] = b"P5\n1 12\n255\n\xFF\xFF\xFF\xFF\xFF\xFF\0\0\0\0\0\0";

const BOTH_CYAN_DOWN: &[u8] = b"P5\n1 12\n255\n\0\0\0\0\0\0\0\xFF\xFF\xFF\xFF\xFF";

const BOTH_MAGENTA_DOWN: &[u8] = b"P5\n1 12\n255\n\xFF\xFF\xFF\xFF\xFF\0\0\0\0\0\0\0";

const DOWN_REPORT: &[u8] =
    b"trap report\npage 1 12 255 plates 2\nzone 0 samples 12 changed 2\nedges 1\nplate Cyan changed 1\nplate Magenta changed 1\nend\n";

// How many trays and racks there are.
const DEVICES: usize = 16;

// The files that are read by each tray: the job and the first plate, and then a plate each.
const READ: &[&str] = &["in0", "in1", "in2"];

const WRITTEN: &[&str] = &["out0", "out1", "out2"];

type Pieces<'a> = &'a [&'a [u8]];

// A call of a tray or of a rack that fails.
#[derive(Clone, Copy)]
struct Fault {
    device: usize,
    call: u64,
}

// A run of the program over files in memory: its words, the pieces of the job's file and of each plate's, and the calls that
// fail.
#[derive(Clone, Copy)]
struct Case<'a> {
    words: &'a str,
    job: Pieces<'a>,
    plates: &'a [Pieces<'a>],
    windows: Budget,
    // the most bytes that one call of a device takes
    grain: usize,
    tray_fails: Option<Fault>,
    rack_fails: Option<Fault>,
}

// How a run ends: its status, the text that is printed, the plates that stand then, and the report.
#[derive(Clone, Copy)]
struct Wanted<'a> {
    status: u8,
    reported: &'a str,
    plates: &'a [&'a [u8]],
    report: Option<&'a [u8]>,
}

// A run by the usual words, in which no call fails.
fn case_of<'a>(job: Pieces<'a>, plates: &'a [Pieces<'a>], windows: Budget) -> Case<'a> {
    Case {
        words: TWO_PLATES,
        job,
        plates,
        windows,
        grain: 50,
        tray_fails: None,
        rack_fails: None,
    }
}

// The call of that device that fails.
fn fault_at(fault: Option<Fault>, device: usize) -> Option<u64> {
    match fault {
        Some(fault) if fault.device == device => Some(fault.call),
        _ => None,
    }
}

// The files of one tray.
fn files_of(alloc: Global, case: Case<'_>, device: usize) -> Result<FileList, OutOfMemory> {
    let mut files = List::new(alloc);
    if device == 0 {
        put_file(alloc, &mut files, "job", case.job)?;
    }
    if let (Some(name), Some(pieces)) = (READ.get(device), case.plates.get(device)) {
        put_file(alloc, &mut files, name, pieces)?;
    }
    Ok(files)
}

fn put_tray(
    rt: &impl Abort,
    alloc: Global,
    trays: &mut Vec<MemTray>,
    case: Case<'_>,
    device: usize,
) -> Result<(), AllocError> {
    let files = files_of(alloc, case, device).expect(rt, "no memory");
    assert!(rt; 0 < case.grain);
    let fails = fault_at(case.tray_fails, device);
    let tray = tray_of(alloc, files, case.grain, fails).expect(rt, "two files of one name");
    trays.push(tray)?;
    Ok(())
}

fn trays_of(rt: &impl Abort, alloc: Global, case: Case<'_>) -> Result<Vec<MemTray>, AllocError> {
    let mut trays = Vec::new(alloc);
    for device in 0..DEVICES {
        put_tray(rt, alloc, &mut trays, case, device)?;
    }
    Ok(trays)
}

fn put_rack(
    rt: &impl Abort,
    alloc: Global,
    racks: &mut Vec<MemRack>,
    grain: usize,
    fails: Option<u64>,
) -> Result<(), AllocError> {
    assert!(rt; 0 < grain);
    racks.push(rack_of(alloc, grain, 1_000_000, fails)?)?;
    Ok(())
}

fn racks_of(rt: &impl Abort, alloc: Global, case: Case<'_>) -> Result<Vec<MemRack>, AllocError> {
    let mut racks = Vec::new(alloc);
    for device in 0..DEVICES {
        let fails = fault_at(case.rack_fails, device);
        put_rack(rt, alloc, &mut racks, case.grain, fails)?;
    }
    Ok(racks)
}

// The status, and the racks as they stand then.
fn end_of_call(
    rt: &(impl Abort + Threads + Sync),
    alloc: Global,
    words: &[String],
    windows: &Budget,
    mut trays: Vec<MemTray>,
    mut racks: Vec<MemRack>,
) -> (u8, Vec<MemRack>) {
    assert!(rt; trays.len() >= 16);
    assert!(rt; racks.len() >= 16);
    let status = trapsheet_within(rt, alloc, words, windows, &mut trays, &mut racks);
    (status, racks)
}

fn run(
    rt: &(impl Abort + Threads + Sync),
    alloc: Global,
    case: Case<'_>,
) -> Result<(u8, Vec<MemRack>), AllocError> {
    let words = words_of(alloc, case.words)?;
    let racks = racks_of(rt, alloc, case)?;
    let trays = trays_of(rt, alloc, case)?;
    Ok(end_of_call(rt, alloc, &words, &case.windows, trays, racks))
}

// Whether the rack of that number holds its plate, and nothing else but the report where it is the first.
fn holds(rack: &MemRack, device: usize, wanted: Wanted<'_>) -> bool {
    let report = if device == 0 { wanted.report } else { None };
    for (place, name) in WRITTEN.iter().enumerate() {
        let plate = if place == device {
            wanted.plates.get(place).copied()
        } else {
            None
        };
        if rack.file(name) != plate {
            return false;
        }
    }
    rack.file("report") == report
}

// Whether the first rack tells this text, and the others nothing.
fn tells(rack: &MemRack, device: usize, reported: &str) -> bool {
    let text = if device == 0 { reported } else { "" };
    rack.reported() == text.as_bytes()
}

fn are_left_so(racks: &[MemRack], wanted: Wanted<'_>) -> bool {
    for (device, rack) in racks.iter().enumerate() {
        if !holds(rack, device, wanted) || !tells(rack, device, wanted.reported) {
            return false;
        }
    }
    true
}

fn is_so(status: u8, racks: Vec<MemRack>, wanted: Wanted<'_>) -> bool {
    let are_left = are_left_so(racks.as_slice(), wanted);
    are_left && status == wanted.status
}

// Whether the run ends so.
fn ends(
    rt: &(impl Abort + Threads + Sync),
    alloc: Global,
    case: Case<'_>,
    wanted: Wanted<'_>,
) -> Result<bool, AllocError> {
    let (status, racks) = run(rt, alloc, case)?;
    Ok(is_so(status, racks, wanted))
}
