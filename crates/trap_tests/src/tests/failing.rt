use super::{
    CYAN, Case, DISABLED, Look, MAGENTA, TRAPPED_CYAN, TRAPPED_MAGENTA, TRAPPED_REPORT, USUAL,
    ends, has, judge, run,
};
use outside::mem_rack::MemRack;
use std::alloc::Global;
use std::process::Abort;
use std::thread::Threads;

// what the usual case writes, in order
const NAMES: [&str; 3] = ["out0", "out1", "report"];

const TRAPPED: [&[u8]; 3] = [TRAPPED_CYAN, TRAPPED_MAGENTA, TRAPPED_REPORT];

const LINES: [&str; 3] = [
    "write fault: plate 0\n",
    "write fault: plate 1\n",
    "write fault: report\n",
];

// Whether a run whose reads of that file fail from that place on is refused with that line.
fn is_unread(
    rt: &(impl Abort + Threads + Sync),
    alloc: Global,
    job: &[&[u8]],
    failing: (usize, u64),
    line: &str,
) -> bool {
    let case = Case {
        job,
        failing: Some(failing),
        ..USUAL
    };
    ends(rt, alloc, case, 5, Look::Refused(line))
}

#[test]
fn a_job_that_fails_is_reported_of(rt: HostRuntime) {
    for place in 0..44 {
        let is = is_unread(
            &rt,
            rt.alloc(),
            &[DISABLED],
            (0, place),
            "read fault: job\n",
        );
        judge(&rt, is, "the job at", place);
    }
}

#[test]
fn a_plate_that_fails_is_reported_of(rt: HostRuntime) {
    for place in 0..18 {
        let is = is_unread(
            &rt,
            rt.alloc(),
            USUAL.job,
            (1, place),
            "read fault: plate 0\n",
        );
        judge(&rt, is, "the plate at", place);
    }
}

// What is printed where Cyan's file is cut.
fn cut_line(rt: &impl Abort, alloc: Global, count: usize) -> String {
    format!(in alloc; "plate 0: Truncated at {count}\n").expect(rt, "no memory")
}

fn is_cut(rt: &(impl Abort + Threads + Sync), alloc: Global, count: usize) -> bool {
    let prefix = CYAN.get(..count).unwrap_or(CYAN);
    let case = Case {
        plates: &[prefix, MAGENTA],
        ..USUAL
    };
    let line = cut_line(rt, alloc, count);
    ends(rt, alloc, case, 4, Look::Refused(line.as_str()))
}

#[test]
fn a_plate_that_is_cut_is_reported_of(rt: HostRuntime) {
    for count in 0..17 {
        judge(&rt, is_cut(&rt, rt.alloc(), count), "cut to", count as u64);
    }
}

// Whether the rack has all files before that one, the first bytes of it, and no later one.
pub(super) fn holds_up_to(rack: &MemRack, broken: usize, count: usize) -> bool {
    holds_file(rack, 0, broken, count)
        && holds_file(rack, 1, broken, count)
        && holds_file(rack, 2, broken, count)
}

fn holds_file(rack: &MemRack, number: usize, broken: usize, count: usize) -> bool {
    match (NAMES.get(number), TRAPPED.get(number)) {
        (Some(name), Some(bytes)) => has(rack, name, part_of(bytes, number, broken, count)),
        _ => false,
    }
}

// The bytes of that file that stand there where a file is broken off.
fn part_of(bytes: &[u8], number: usize, broken: usize, count: usize) -> Option<&[u8]> {
    if number < broken {
        Some(bytes)
    } else if number == broken {
        bytes.get(..count)
    } else {
        None
    }
}

// How a run with so much room ends: the status, the file that is broken, how many of its bytes stand, and the line.
fn end_with(workspace: usize) -> (u8, usize, usize, &'static str) {
    match workspace {
        0..=16 => (6, 0, workspace, "write fault: plate 0\n"),
        17..=33 => (6, 1, workspace.saturating_sub(17), "write fault: plate 1\n"),
        34..=151 => (6, 2, workspace.saturating_sub(34), "write fault: report\n"),
        _ => (0, 3, workspace.saturating_sub(34), ""),
    }
}

fn fits(rt: &(impl Abort + Threads + Sync), alloc: Global, workspace: usize) -> bool {
    let case = Case {
        workspace: workspace as u64,
        ..USUAL
    };
    let (status, broken, count, line) = end_with(workspace);
    ends(rt, alloc, case, status, Look::UpTo(broken, count, line))
}

#[test]
fn a_rack_without_workspace_holds_what_fits(rt: HostRuntime) {
    for workspace in 0..153 {
        judge(
            &rt,
            fits(&rt, rt.alloc(), workspace),
            "room",
            workspace as u64,
        );
    }
}

// Whether the rack tells of a file that broke: the earlier ones are whole, of it there is a prefix or nothing, and no
// later one was created.
pub(super) fn is_broken(rack: &MemRack) -> bool {
    let mut is_later = false;
    for ((name, bytes), line) in NAMES.iter().zip(TRAPPED.iter()).zip(LINES.iter()) {
        let is_broken = rack.reported() == line.as_bytes();
        let is_right = match rack.file(name) {
            Some(stored) => !is_later
                && (stored == *bytes || is_broken)
                && bytes.starts_with(stored),
            None => is_later || is_broken,
        };
        if !is_right {
            return false;
        }
        is_later = is_later || is_broken;
    }
    is_later
}

// Whether a run in which that call of the tray fails is refused so; `None` where it has no such call.
fn ends_at_read(rt: &(impl Abort + Threads + Sync), alloc: Global, call: u64) -> Option<bool> {
    let case = Case {
        tray_fails: Some(call),
        ..USUAL
    };
    match run(rt, alloc, case, Look::Empty) {
        (0, _) => None,
        end => Some(end == (5, true)),
    }
}

// Whether a run in which that call of the rack fails breaks a file so; `None` where it has no such call.
fn ends_at_write(rt: &(impl Abort + Threads + Sync), alloc: Global, call: u64) -> Option<bool> {
    let case = Case {
        rack_fails: Some(call),
        ..USUAL
    };
    match run(rt, alloc, case, Look::Broken) {
        (0, _) => None,
        end => Some(end == (6, true)),
    }
}

// Judges the end of a run in which that call fails, and gives how many calls there are so far: each before has failed.
fn judge_end(rt: &impl Abort, end: Option<bool>, call: u64, calls: u64) -> u64 {
    match end {
        Some(is_right) => {
            judge(rt, is_right && calls == call, "call", call);
            call.saturating_add(1)
        }
        None => calls,
    }
}

#[test]
fn each_read_fails_in_turn(rt: HostRuntime) {
    let mut calls = 0;
    for call in 0..100 {
        calls = judge_end(&rt, ends_at_read(&rt, rt.alloc(), call), call, calls);
    }
    assert!(rt; 0 < calls && calls < 100);
}

#[test]
fn each_write_fails_in_turn(rt: HostRuntime) {
    let mut calls = 0;
    for call in 0..100 {
        calls = judge_end(&rt, ends_at_write(&rt, rt.alloc(), call), call, calls);
    }
    assert!(rt; 0 < calls && calls < 100);
}
