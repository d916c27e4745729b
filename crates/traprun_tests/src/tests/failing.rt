use super::{
    CYAN, Case, DISABLED, Look, MAGENTA, SHOW, UNTRAPPED_REPORT, USUAL, WRITTEN, ends, judge,
};
use outside::mem_rack::MemRack;
use std::alloc::Global;
use std::process::Abort;
use std::thread::Threads;

// Where a run of two pages stops at a failed read: the line, and how many files stand whole then. The files are read in their
// order, page after page, and looked at once more after the last one.
const READS: &[(&str, usize)] = &[
    ("read fault: job\n", 0),
    ("page 0: read fault: plate 0\n", 0),
    ("page 0: read fault: plate 1\n", 0),
    ("page 1: read fault: plate 0\n", 3),
    ("page 1: read fault: plate 1\n", 3),
    ("read fault: plate 0\n", 6),
    ("read fault: plate 1\n", 6),
];

// Where it stops at a failed write. Of the file after the whole ones there may be a prefix.
const WRITES: &[(&str, usize)] = &[
    ("page 0: write fault: plate 0\n", 0),
    ("page 0: write fault: plate 1\n", 1),
    ("page 0: write fault: report\n", 2),
    ("page 1: write fault: plate 0\n", 3),
    ("page 1: write fault: plate 1\n", 4),
    ("page 1: write fault: report\n", 5),
];

const FILES: &[&[u8]] = &[
    CYAN,
    MAGENTA,
    UNTRAPPED_REPORT,
    CYAN,
    MAGENTA,
    UNTRAPPED_REPORT,
];

// A run of two pages, and the call of the tray or of the rack that fails.
fn case_of(tray_fails: Option<u64>, rack_fails: Option<u64>) -> Case<'static> {
    Case {
        files: &[&[DISABLED, SHOW], &[CYAN, CYAN], &[MAGENTA, MAGENTA]],
        tray_fails,
        rack_fails,
        ..USUAL
    }
}

fn whole(count: usize) -> &'static [&'static [u8]] {
    FILES.get(..count).unwrap_or(FILES)
}

// Whether `count` files are whole, and of the next one there is a prefix or nothing, and no more.
pub(super) fn holds_prefix(rack: &MemRack, count: usize) -> bool {
    for (place, name) in WRITTEN.iter().enumerate() {
        let wanted = FILES.get(place).copied();
        let is_so = match rack.file(name) {
            Some(bytes) if place == count => wanted.unwrap_or(b"").starts_with(bytes),
            Some(bytes) => place < count && Some(bytes) == wanted,
            None => count <= place,
        };
        if !is_so {
            return false;
        }
    }
    true
}

// Whether a run in which that call of the tray fails comes to that stop; after the last one it is done.
fn stops_at_read(
    rt: &(impl Abort + Threads + Sync),
    alloc: Global,
    call: u64,
    error: usize,
) -> bool {
    let case = case_of(Some(call), None);
    match READS.get(error) {
        Some((line, count)) => ends(rt, alloc, case, 5, Look::Left(line, whole(*count))),
        None => ends(rt, alloc, case, 0, Look::Left("", FILES)),
    }
}

fn stops_at_write(
    rt: &(impl Abort + Threads + Sync),
    alloc: Global,
    call: u64,
    error: usize,
) -> bool {
    let case = case_of(None, Some(call));
    match WRITES.get(error) {
        Some((line, count)) => ends(rt, alloc, case, 6, Look::Broken(line, *count)),
        None => ends(rt, alloc, case, 0, Look::Left("", FILES)),
    }
}

// The stop that a run comes to: that of the call before, or the next one.
fn read_error(rt: &(impl Abort + Threads + Sync), alloc: Global, call: u64, last: usize) -> usize {
    if stops_at_read(rt, alloc, call, last) {
        return last;
    }
    let next = last.saturating_add(1);
    judge(rt, stops_at_read(rt, alloc, call, next), "call", call);
    next
}

fn write_error(rt: &(impl Abort + Threads + Sync), alloc: Global, call: u64, last: usize) -> usize {
    if stops_at_write(rt, alloc, call, last) {
        return last;
    }
    let next = last.saturating_add(1);
    judge(rt, stops_at_write(rt, alloc, call, next), "call", call);
    next
}

// A later call that fails stops the run at the same file or at the next one, and the last ones leave it done.
#[test]
fn each_read_fails_in_turn(rt: HostRuntime) {
    let mut last = 0;
    for call in 0..400 {
        last = read_error(&rt, rt.alloc(), call, last);
    }
    judge(&rt, last == READS.len(), "stops", last as u64);
}

#[test]
fn each_write_fails_in_turn(rt: HostRuntime) {
    let mut last = 0;
    for call in 0..100 {
        last = write_error(&rt, rt.alloc(), call, last);
    }
    judge(&rt, last == WRITES.len(), "stops", last as u64);
}
