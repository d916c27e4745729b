ghost use Rattle.std.specs.Prelude.{◌≤◌, length};

use crate::fixtures::{by, judge, tray_of};
use outside::mem_tray::MemTray;
use pgm_plates::bounds::Bounds;
use pgm_plates::plate::{PlateError, PlateFault};
use pgm_plates::rows::{begin_plate, end_plate, judge_rows, read_rows};
use std::alloc::Global;
use std::process::Abort;

// Reads a plate in two parts, with a buffer of some bytes.
fn read_parts(
    tray: &mut MemTray,
    first: &mut [u16],
    second: &mut [u16],
    piece: &mut [u8],
) -> Result<(), PlateError>
    requires workspace { 2 ≤ length piece.old }
    requires first { length first.old ≤ 6 }
    requires second { length second.old ≤ 6 }
{
    let plate = begin_plate(tray, "one", Bounds::Sheet)?;
    read_rows(tray, plate, 0, first, piece)?;
    read_rows(tray, plate, first.len() as u64, second, piece)?;
    end_plate(tray, plate)
}

// Judges the six samples of a plate, some of them at first, and then the rest.
fn judge_six(tray: &mut MemTray, first: u64, piece: &mut [u8]) -> Result<(), PlateError>
    requires workspace { 2 ≤ length piece.old }
    requires first { first ≤ 6 }
{
    let plate = begin_plate(tray, "one", Bounds::Sheet)?;
    judge_rows(tray, plate, 0, first, piece)?;
    judge_rows(tray, plate, first, 6 - first, piece)?;
    end_plate(tray, plate)
}

// The six samples of a plate, some of them read at first, and then the rest.
fn read_six(tray: &mut MemTray, first: usize, piece: usize) -> Result<[u16; 6], PlateError>
    requires first { first ≤ 6 }
    requires some { 2 ≤ piece }
    requires workspace { piece ≤ 64 }
{
    let mut samples = [0u16; 6];
    let mut bytes = [0u8; 64];
    let (top, rest) = samples.split_at_mut(first);
    read_parts(tray, top, rest, &mut bytes[..piece])?;
    Ok(samples)
}

// Files of two by three samples: of a header of 9 bytes and one byte a sample, and of one of 11 and two.
const SIXES: &[(&str, Result<[u16; 6], PlateFault>)] = &[
    ("P5 2 3 9 \x01\x02\x03\x04\x05\x09", Ok([1, 2, 3, 4, 5, 9])),
    (
        "P5 2 3 9 \x0a\x02\x03\x04\x05\x0a",
        Err(PlateFault::SampleAboveMaxval(9)),
    ),
    (
        "P5 2 3 9 \x01\x02\x03\x0a\x05\x06",
        Err(PlateFault::SampleAboveMaxval(12)),
    ),
    (
        "P5 2 3 9 \x01\x02\x03\x04\x05\x0a",
        Err(PlateFault::SampleAboveMaxval(14)),
    ),
    ("P5 2 3 9 ", Err(PlateFault::Truncated(9))),
    (
        "P5 2 3 9 \x01\x02\x03\x04\x05",
        Err(PlateFault::Truncated(14)),
    ),
    (
        "P5 2 3 9 \x01\x02\x03\x04\x05\x06\x00",
        Err(PlateFault::TrailingBytes(15)),
    ),
    (
        "P5 2 3 300 \x00\x01\x00\x02\x00\x03\x01\x2c\x00\x05\x01\x00",
        Ok([1, 2, 3, 300, 5, 256]),
    ),
    (
        "P5 2 3 300 \x00\x01\x00\x02\x00\x03\x01\x2d\x00\x05\x00\x06",
        Err(PlateFault::SampleAboveMaxval(17)),
    ),
    (
        "P5 2 3 300 \x00\x01\x00\x02\x00\x03\x00\x04\x00\x05\x00",
        Err(PlateFault::Truncated(22)),
    ),
    (
        "P5 2 3 300 \x00\x01\x00\x02\x00\x03\x00\x04\x00\x05\x00\x06 ",
        Err(PlateFault::TrailingBytes(23)),
    ),
    (
        "P5 2 3 255 \x01\x02\x03\x04\x05\x7f",
        Ok([1, 2, 3, 4, 5, 127]),
    ),
    (
        "P5 2 3 65535 \x00\x01\x00\x02\x00\x03\x00\x04\x00\x05\x7f\x7f",
        Ok([1, 2, 3, 4, 5, 32_639]),
    ),
    ("P5 2 3 0 ", Err(PlateFault::MaxvalRange(7))),
];

fn is_same(one: Result<[u16; 6], PlateError>, other: Result<[u16; 6], PlateFault>) -> bool {
    match (one, other) {
        (Ok(samples), Ok(want)) => samples.as_slice() == want.as_slice(),
        (Err(PlateError::Fault(fault)), Err(want)) => fault == want,
        (_, _) => false,
    }
}

// The answer to a file that is read in two parts.
fn six_of(
    rt: &impl Abort,
    alloc: Global,
    text: &str,
    first: usize,
    piece: usize,
) -> Result<[u16; 6], PlateError>
    requires first { first ≤ 6 }
    requires some { 2 ≤ piece }
    requires workspace { piece ≤ 64 }
{
    let mut tray = tray_of(rt, alloc, text.as_bytes(), by(3));
    read_six(&mut tray, first, piece)
}

fn is_judged(one: Result<(), PlateError>, other: Result<[u16; 6], PlateFault>) -> bool {
    match (one, other) {
        (Ok(()), Ok(_)) => true,
        (Err(PlateError::Fault(fault)), Err(want)) => fault == want,
        (_, _) => false,
    }
}

// The answer to a file that is judged in two parts.
fn judge_in_parts(
    rt: &impl Abort,
    alloc: Global,
    text: &str,
    first: usize,
    piece: usize,
) -> Result<(), PlateError>
    requires first { first ≤ 6 }
    requires some { 2 ≤ piece }
    requires workspace { piece ≤ 64 }
{
    let mut tray = tray_of(rt, alloc, text.as_bytes(), by(3));
    let mut bytes = [0u8; 64];
    judge_six(&mut tray, first as u64, &mut bytes[..piece])
}

// Judges all files, with some samples at first, with a buffer of some bytes.
fn judge_sixes(rt: &impl Abort, alloc: Global, first: usize, piece: usize)
    requires first { first ≤ 6 }
    requires some { 2 ≤ piece }
    requires workspace { piece ≤ 64 }
{
    for (text, want) in SIXES {
        let is = is_same(six_of(rt, alloc, text, first, piece), *want);
        assert!(rt; is, "{text} by {first} and {piece}");
        let judged = judge_in_parts(rt, alloc, text, first, piece);
        judge(rt, is_judged(judged, *want), text, piece as u64);
    }
}

fn judge_pieces(rt: &impl Abort, alloc: Global, first: usize)
    requires { first ≤ 6 }
{
    judge_sixes(rt, alloc, first, 2);
    judge_sixes(rt, alloc, first, 3);
    judge_sixes(rt, alloc, first, 64);
}

#[test]
fn a_plate_that_is_read_by_rows_has_the_same_answer(rt: HostRuntime) {
    judge_pieces(&rt, rt.alloc(), 0);
    judge_pieces(&rt, rt.alloc(), 2);
    judge_pieces(&rt, rt.alloc(), 4);
    judge_pieces(&rt, rt.alloc(), 6);
}
