ghost use Rattle.std.specs.Prelude.{◌≤◌, IsTrue};
ghost use Rattle.std.specs.List.{All};
ghost use Rattle.page_model.specs.Limits.{most_maxval};

use crate::fixtures::judge;
use lists::list::List;
use outside::mem_rack::MemRack;
use outside::tray::DeviceError;
use pgm_plates::rows::Header;
use pgm_plates::writing::{begin_image, end_image, write_rows};
use std::alloc::Global;
use std::process::Abort;

// Writes a plate of two by three samples in two parts.
fn write_parts(
    rack: &mut MemRack,
    maxval: u32,
    first: &[u16],
    second: &[u16],
) -> Result<(), DeviceError>
    requires maxval { maxval ≤ most_maxval }
    requires first { All (λ t. t ≤ maxval) first.now }
    requires second { All (λ t. t ≤ maxval) second.now }
{
    let header = Header {
        width: 2,
        height: 3,
        maxval,
    };
    let mut piece = [0u8; 4];
    begin_image(rack, "out", header)?;
    write_rows(rack, header, first, &mut piece)?;
    write_rows(rack, header, second, &mut piece)?;
    end_image(rack)
}

fn are_within(tints: &[u16], maxval: u32) -> bool
    ensures { IsTrue result → All (λ t. t ≤ maxval) tints.now }
{
    tints.iter().all(|tint| *tint as u32 <= maxval)
}

// Writes six tints, some of them at first, and returns whether that was done.
fn is_written(rack: &mut MemRack, maxval: u32, tints: &[u16; 6], first: usize) -> bool
    requires maxval { maxval ≤ most_maxval }
    requires first { first ≤ 6 }
{
    let (top, rest) = tints.split_at(first);
    if !are_within(top, maxval) || !are_within(rest, maxval) {
        return false;
    }
    match write_parts(rack, maxval, top, rest) {
        Ok(()) => true,
        Err(_) => false,
    }
}

// Whether six tints are written by the rack, and whether the file then holds these bytes.
fn writes_six(
    rack: &mut MemRack,
    maxval: u32,
    tints: &[u16; 6],
    first: usize,
    want: &[u8],
) -> (bool, bool)
    requires maxval { maxval ≤ most_maxval }
    requires first { first ≤ 6 }
{
    let is_written = is_written(rack, maxval, tints, first);
    (is_written, holds(rack, want))
}

fn holds(rack: &MemRack, want: &[u8]) -> bool {
    match rack.file("out") {
        Some(bytes) => bytes == want,
        None => false,
    }
}

fn rack_of(rt: &impl Abort, alloc: Global, grain: usize, workspace: u64) -> MemRack {
    assert!(rt; grain > 0);
    MemRack::new(alloc, grain, workspace, List::new(alloc))
}

// Six tints, their maxval, and the file that they are written as.
const WRITTEN: &[([u16; 6], u32, &str)] = &[
    (
        [9, 8, 7, 6, 0, 1],
        9,
        "P5\n2 3\n9\n\x00\x01\x02\x03\x09\x08",
    ),
    (
        [255, 254, 253, 128, 200, 155],
        255,
        "P5\n2 3\n255\n\x00\x01\x02\x7f7d",
    ),
    (
        [300, 299, 298, 0, 44, 43],
        300,
        "P5\n2 3\n300\n\x00\x00\x00\x01\x00\x02\x01\x2c\x01\x00\x01\x01",
    ),
];

// Does the same with a rack that takes a limited number of bytes.
fn writes_on(
    rt: &impl Abort,
    alloc: Global,
    (tints, maxval): (&[u16; 6], u32),
    (first, workspace): (usize, u64),
    want: &[u8],
) -> (bool, bool) {
    assert!(rt; first <= 6 && maxval <= 65_535);
    let mut rack = rack_of(rt, alloc, 3, workspace);
    writes_six(&mut rack, maxval, tints, first, want)
}

// Whether six tints are written as that file by a rack that takes a limited number of bytes.
fn writes(
    rt: &impl Abort,
    alloc: Global,
    (tints, maxval, want): &([u16; 6], u32, &str),
    first: usize,
    workspace: usize,
) -> (bool, bool) {
    let bytes = want.as_bytes();
    let stored = bytes.get(..workspace).unwrap_or(bytes);
    writes_on(
        rt,
        alloc,
        (tints, *maxval),
        (first, workspace as u64),
        stored,
    )
}

fn judge_parts(rt: &impl Abort, alloc: Global, row: &([u16; 6], u32, &str)) {
    for first in &[0usize, 1, 2, 4, 6] {
        let is = writes(rt, alloc, row, *first, 1000);
        judge(rt, is == (true, true), row.2, *first as u64);
    }
}

#[test]
fn a_plate_that_is_written_by_rows_is_the_same(rt: HostRuntime) {
    for row in WRITTEN {
        judge_parts(&rt, rt.alloc(), row);
    }
}

fn judge_workspaces(rt: &impl Abort, alloc: Global, row: &([u16; 6], u32, &str)) {
    let whole = row.2.len();
    for workspace in 0..whole + 1 {
        let is = writes(rt, alloc, row, 4, workspace);
        judge(
            rt,
            is == (workspace == whole, true),
            row.2,
            workspace as u64,
        );
    }
}

#[test]
fn a_rack_without_workspace_holds_a_prefix_of_the_rows(rt: HostRuntime) {
    for row in WRITTEN {
        judge_workspaces(&rt, rt.alloc(), row);
    }
}
