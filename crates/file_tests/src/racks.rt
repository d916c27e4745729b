use crate::fixtures::{judge, only};
use outside::mem_rack::MemRack;
use outside::rack::Rack;
use outside::writing::write_file;
use std::alloc::Global;
use std::process::Abort;

// Whether the rack has these bytes under the name, or, where none are given, no such file.
fn holds(rack: &MemRack, name: &str, want: Option<&[u8]>) -> bool {
    match (rack.file(name), want) {
        (Some(bytes), Some(text)) => bytes == text,
        (None, None) => true,
        (_, _) => false,
    }
}

const WHOLE: &str = "P5 1 1 1\n.";

fn is_written(rack: &mut MemRack, name: &str, text: &[u8]) -> bool {
    match write_file(rack, name, text) {
        Ok(()) => true,
        Err(_) => false,
    }
}

fn rack_of(
    rt: &impl Abort,
    alloc: Global,
    grain: usize,
    workspace: u64,
    call: Option<u64>,
) -> MemRack {
    assert!(rt; grain > 0);
    MemRack::new(alloc, grain, workspace, only(rt, alloc, call))
}

// Writes `plate`, and says whether it was written and whether the file then holds that prefix.
fn writes(rack: &mut MemRack, prefix: Option<&[u8]>) -> (bool, bool) {
    let is_written = is_written(rack, "plate", WHOLE.as_bytes());
    (is_written, holds(rack, "plate", prefix))
}

// The same by such a rack.
fn write_on_rack(
    rt: &impl Abort,
    alloc: Global,
    (grain, workspace): (usize, u64),
    call: Option<u64>,
    prefix: Option<usize>,
) -> (bool, bool) {
    let mut rack = rack_of(rt, alloc, grain, workspace, call);
    writes(&mut rack, prefix_of(prefix))
}

fn prefix_of(count: Option<usize>) -> Option<&'static [u8]> {
    match count {
        Some(count) => Some(&WHOLE.as_bytes()[..count.min(WHOLE.len())]),
        None => None,
    }
}

fn judge_workspaces(rt: &impl Abort, alloc: Global, grain: usize) {
    for workspace in 0..12u64 {
        let is = write_on_rack(
            rt,
            alloc,
            (grain, workspace),
            None,
            Some(workspace as usize),
        );
        judge(rt, is == (workspace >= 10, true), "room", workspace);
    }
}

#[test]
fn a_rack_without_workspace_holds_a_prefix(rt: HostRuntime) {
    judge_workspaces(&rt, rt.alloc(), 1);
    judge_workspaces(&rt, rt.alloc(), 3);
    judge_workspaces(&rt, rt.alloc(), 4096);
}

// By pieces of 4 there are `create`, three writes and `finish`: the call that fails, what the file then holds, and whether
// it was written.
const FAILING: &[(u64, Option<usize>, bool)] = &[
    (0, None, false),
    (1, Some(0), false),
    (2, Some(4), false),
    (3, Some(8), false),
    (4, Some(10), false),
    (5, Some(10), true),
];

#[test]
fn each_write_fails_in_turn(rt: HostRuntime) {
    for (call, prefix, is_written) in FAILING {
        let is = write_on_rack(&rt, rt.alloc(), (4, 100), Some(*call), *prefix);
        judge(&rt, is == (*is_written, true), "call", *call);
    }
}

fn is_reported(rack: &mut MemRack, text: &[u8]) -> bool {
    match rack.tell(text) {
        Ok(()) => true,
        Err(_) => false,
    }
}

// Writes two files, the first of them twice, and tells one text of two, since the ninth call fails.
fn writes_twice(rack: &mut MemRack) -> bool {
    is_written(rack, "one", b"first")
        && is_written(rack, "two", b"")
        && is_reported(rack, b"told")
        && !is_reported(rack, b"lost")
        && is_written(rack, "one", b"second")
}

fn tells(rack: &MemRack, want: &[u8]) -> bool {
    rack.reported() == want
}

fn is_written_twice(rack: &MemRack) -> bool {
    holds(rack, "one", Some(b"second"))
        && holds(rack, "two", Some(b""))
        && holds(rack, "three", None)
        && tells(rack, b"told")
}

// Whether that is done, and whether the rack then holds it.
fn writes_and_holds_twice(rack: &mut MemRack) -> (bool, bool) {
    let is_done = writes_twice(rack);
    (is_done, is_written_twice(rack))
}

fn write_twice(rt: &impl Abort, alloc: Global) -> (bool, bool) {
    let mut rack = rack_of(rt, alloc, 2, 100, Some(8));
    writes_and_holds_twice(&mut rack)
}

#[test]
fn a_later_file_stands_in_place_of_an_earlier_one(rt: HostRuntime) {
    let (is_done, is_stored) = write_twice(&rt, rt.alloc());
    assert!(rt; is_done);
    assert!(rt; is_stored);
}

fn tells_both(rack: &mut MemRack) -> (bool, bool) {
    let is_empty_reported = is_reported(rack, b"");
    (is_empty_reported, is_reported(rack, b"text"))
}

// Tells an empty text and then a text, of which the call of that number fails.
fn tell_both(rt: &impl Abort, alloc: Global, call: u64) -> (bool, bool) {
    let mut rack = rack_of(rt, alloc, 1, 0, Some(call));
    tells_both(&mut rack)
}

#[test]
fn a_text_needs_no_workspace_and_fails_by_its_number(rt: HostRuntime) {
    for (call, want) in &[(0, (false, true)), (1, (true, false)), (2, (true, true))] {
        judge(
            &rt,
            tell_both(&rt, rt.alloc(), *call) == *want,
            "call",
            *call,
        );
    }
}
