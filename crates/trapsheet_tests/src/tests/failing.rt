use super::{
    BOTH_CYAN_DOWN, BOTH_MAGENTA_DOWN, CYAN_DOWN, Case, DOWN_REPORT, Fault, MAGENTA_DOWN, NARROW,
    Pieces, WIDE, case_of, run,
};
use outside::mem_rack::MemRack;
use sheet_geometry::budget::Budget;
use std::alloc::{AllocError, Global};
use std::process::Abort;
use std::test::Fail;
use std::thread::Threads;
use test_files::{CYAN, DISABLED, INKS, MAGENTA, UNTRAPPED_REPORT, WIDE as SPREAD};

// The lines of a read that fails, by the tray, in the order of its calls.
const READS: &[&[&str]] = &[
    &["read fault: job\n", "read fault: plate 0\n"],
    &["read fault: plate 1\n"],
];

// The lines of a write that fails, by the rack.
const WRITES: &[&[&str]] = &[
    &["write fault: plate 0\n", "write fault: report\n"],
    &["write fault: plate 1\n"],
];

// With a worker beside the caller, strips are trapped while others are read and written.
const TWO_WORKERS: &str = "2 job report Cyan:in0:out0 Magenta:in1:out1";

// More calls than a device gets.
const CALLS: u64 = 64;

// A sheet whose devices fail: its job and plates, how it is cut, and the three files that it makes.
#[derive(Clone, Copy)]
struct Tried<'a> {
    job: Pieces<'a>,
    plates: &'a [Pieces<'a>],
    windows: Budget,
    out0: &'a [u8],
    out1: &'a [u8],
    report: &'a [u8],
}

// In one window, with nothing to trap; and in several strips, of which some are written while others are read.
const TRIED: &[Tried<'static>] = &[
    Tried {
        job: &[DISABLED],
        plates: &[&[CYAN], &[MAGENTA]],
        windows: WIDE,
        out0: CYAN,
        out1: MAGENTA,
        report: UNTRAPPED_REPORT,
    },
    Tried {
        job: &[INKS, SPREAD],
        plates: &[&[CYAN_DOWN], &[MAGENTA_DOWN]],
        windows: NARROW,
        out0: BOTH_CYAN_DOWN,
        out1: BOTH_MAGENTA_DOWN,
        report: DOWN_REPORT,
    },
];

// How a run ended: with one of these lines, or done.
#[derive(Clone, Copy, PartialEq, Eq)]
enum End {
    Line(usize),
    Done,
}

// Which calls fail: those of a tray, or those of a rack.
#[derive(Clone, Copy)]
enum Failing {
    Reads,
    Writes,
}

fn case_with<'a>(tried: Tried<'a>, failing: Failing, fault: Fault) -> Case<'a> {
    let usual = case_of(tried.job, tried.plates, tried.windows);
    let (tray_fails, rack_fails) = match failing {
        Failing::Reads => (Some(fault), None),
        Failing::Writes => (None, Some(fault)),
    };
    Case {
        words: TWO_WORKERS,
        job: usual.job,
        plates: usual.plates,
        windows: usual.windows,
        grain: usual.grain,
        tray_fails,
        rack_fails,
    }
}

fn status_of(failing: Failing) -> u8 {
    match failing {
        Failing::Reads => 5,
        Failing::Writes => 6,
    }
}

// How many of the three files stand there whole; `None` where one of them has other bytes than a prefix of its own.
fn whole_of(tried: Tried<'_>, racks: &[MemRack]) -> Option<usize> {
    let mut count = 0usize;
    for (rack, name, wanted) in [
        (0, "out0", tried.out0),
        (1, "out1", tried.out1),
        (0, "report", tried.report),
    ] {
        if let Some(bytes) = racks.get(rack)?.file(name) {
            if !wanted.starts_with(bytes) {
                return None;
            }
            if bytes.len() == wanted.len() {
                count = count.saturating_add(1);
            }
        }
    }
    Some(count)
}

// How many files there are on the first two racks.
fn files_on(racks: &[MemRack]) -> usize {
    let mut count = 0usize;
    for rack in racks {
        for name in ["out0", "out1", "report"] {
            if rack.file(name).is_some() {
                count = count.saturating_add(1);
            }
        }
    }
    count
}

fn line_of(lines: &[&str], racks: &[MemRack]) -> Option<usize> {
    let reported = racks.first()?.reported();
    lines.iter().position(|line| line.as_bytes() == reported)
}

fn is_done(tried: Tried<'_>, status: u8, racks: &[MemRack]) -> bool {
    status == 0 && whole_of(tried, racks) == Some(3) && files_on(racks) == 3
}

// How a run ended where a call fails: each file is then whole, a prefix, or not there.
fn end_by(
    tried: Tried<'_>,
    failing: Failing,
    lines: &[&str],
    status: u8,
    racks: &[MemRack],
) -> Option<End> {
    if is_done(tried, status, racks) {
        return Some(End::Done);
    }
    let line = line_of(lines, racks)?;
    let _whole = whole_of(tried, racks)?;
    if status == status_of(failing) {
        Some(End::Line(line))
    } else {
        None
    }
}

fn end_among(
    tried: Tried<'_>,
    failing: Failing,
    lines: &[&str],
    status: u8,
    racks: Vec<MemRack>,
) -> Option<End> {
    end_by(tried, failing, lines, status, racks.as_slice())
}

fn end_of(
    rt: &(impl Abort + Threads + Sync),
    alloc: Global,
    tried: Tried<'_>,
    failing: Failing,
    lines: &[&str],
    fault: Fault,
) -> Result<Option<End>, AllocError> {
    let (status, racks) = run(rt, alloc, case_with(tried, failing, fault))?;
    Ok(end_among(tried, failing, lines, status, racks))
}

// Whether an end may follow another one, by the next call: the same line, the next one, or done.
fn may_follow(lines: &[&str], before: usize, end: End) -> bool {
    match end {
        End::Line(line) => line == before || line == before.saturating_add(1),
        End::Done => before.saturating_add(1) >= lines.len(),
    }
}

fn line_or(end: End, before: usize) -> usize {
    match end {
        End::Line(line) => line,
        End::Done => before,
    }
}

// Fails each call of a device in turn, and looks at how the run ends.
fn try_each(
    rt: &(impl Abort + Threads + Sync),
    alloc: Global,
    tried: Tried<'_>,
    failing: Failing,
    device: usize,
    lines: &[&str],
) -> Result<(), Fail> {
    let mut line = 0;
    let mut done = false;
    for call in 0..CALLS {
        let end = end_of(rt, alloc, tried, failing, lines, Fault { device, call })?;
        let end = end.ok_or("another end")?;
        assert!(rt; line <= 16);
        assert!(rt; may_follow(lines, line, end), "{device} {call}");
        line = line_or(end, line);
        done = end == End::Done;
    }
    assert!(rt; done);
    Ok(())
}

#[test]
fn each_read_fails_in_turn(rt: HostRuntime) -> Result<(), Fail> {
    for tried in TRIED {
        for (device, lines) in READS.iter().enumerate() {
            try_each(&rt, rt.alloc(), *tried, Failing::Reads, device, lines)?;
        }
    }
    Ok(())
}

#[test]
fn each_write_fails_in_turn(rt: HostRuntime) -> Result<(), Fail> {
    for tried in TRIED {
        for (device, lines) in WRITES.iter().enumerate() {
            try_each(&rt, rt.alloc(), *tried, Failing::Writes, device, lines)?;
        }
    }
    Ok(())
}
