use crate::fixtures::{add, by, judge, tray_of};
use outside::mem_tray::MemTray;
use pgm_plates::bounds::Bounds;
use pgm_plates::plate::{PlateError, PlateFault};
use pgm_plates::reading::read_plate_within;
use pgm_plates::rows::begin_plate;
use std::alloc::Global;
use std::process::Abort;

// A header, and its fault where it is a page's, and where it is a sheet's.
const HEADERS: &[(&str, Option<PlateFault>, Option<PlateFault>)] = &[
    ("P5 16384 9765 1\n", None, None),
    ("P5 16385 1 1\n", Some(PlateFault::SideRange(3)), None),
    ("P5 1 16385 1\n", Some(PlateFault::SideRange(5)), None),
    (
        "P5 16384 16384 1\n",
        Some(PlateFault::TooManySamples(9)),
        None,
    ),
    (
        "P5 16000 10001 1\n",
        Some(PlateFault::TooManySamples(9)),
        None,
    ),
    (
        "P5 262144 262144 65535\n",
        Some(PlateFault::SideRange(3)),
        None,
    ),
    (
        "P5 262145 1 1\n",
        Some(PlateFault::SideRange(3)),
        Some(PlateFault::SideRange(3)),
    ),
    (
        "P5 1 262145 1\n",
        Some(PlateFault::SideRange(5)),
        Some(PlateFault::SideRange(5)),
    ),
    (
        "P5 1000000 1 1\n",
        Some(PlateFault::SideRange(3)),
        Some(PlateFault::SideRange(3)),
    ),
    (
        "P5 1 99999999999999999999 1\n",
        Some(PlateFault::SideRange(5)),
        Some(PlateFault::SideRange(5)),
    ),
    (
        "P5 1 0 1\n",
        Some(PlateFault::SideRange(5)),
        Some(PlateFault::SideRange(5)),
    ),
    (
        "P5 262144 1 0\n",
        Some(PlateFault::SideRange(3)),
        Some(PlateFault::MaxvalRange(12)),
    ),
    (
        "P5 262144 1 65536\n",
        Some(PlateFault::SideRange(3)),
        Some(PlateFault::MaxvalRange(12)),
    ),
    (
        "P5 262144 1",
        Some(PlateFault::SideRange(3)),
        Some(PlateFault::Truncated(11)),
    ),
];

fn begin_error(tray: &mut MemTray, bounds: Bounds) -> Option<PlateError> {
    match begin_plate(tray, "one", bounds) {
        Ok(_) => None,
        Err(error) => Some(error),
    }
}

fn error_of(rt: &impl Abort, alloc: Global, text: &str, bounds: Bounds) -> Option<PlateError> {
    let mut tray = tray_of(rt, alloc, text.as_bytes(), by(4096));
    begin_error(&mut tray, bounds)
}

// Whether it is that fault, or none.
fn is_fault(error: Option<PlateError>, want: Option<PlateFault>) -> bool {
    match (error, want) {
        (Some(PlateError::Fault(fault)), Some(want)) => fault == want,
        (None, None) => true,
        (_, _) => false,
    }
}

#[test]
fn a_sheet_has_larger_sides_than_a_page(rt: HostRuntime) {
    for (text, page, sheet) in HEADERS {
        let of_page = error_of(&rt, rt.alloc(), text, Bounds::Page);
        judge(&rt, is_fault(of_page, *page), text, 0);
        let of_sheet = error_of(&rt, rt.alloc(), text, Bounds::Sheet);
        judge(&rt, is_fault(of_sheet, *sheet), text, 1);
    }
}

// A header and a number of bytes 1 after it.
fn level(rt: &impl Abort, alloc: Global, header: &str, count: usize) -> Vec<u8> {
    let mut bytes = header.as_bytes().to_vec(alloc).expect(rt, "no memory");
    for _ in 0..count {
        add(rt, &mut bytes, 1);
    }
    bytes
}

// The samples of the plate of a sheet, or why it is refused.
fn sample_count(alloc: Global, tray: &mut MemTray) -> Result<usize, PlateError> {
    let plate = read_plate_within(alloc, tray, "one", Bounds::Sheet)?;
    Ok(plate.samples.len())
}

fn read_bytes(rt: &impl Abort, alloc: Global, bytes: &[u8]) -> Result<usize, PlateError> {
    let mut tray = tray_of(rt, alloc, bytes, by(5000));
    sample_count(alloc, &mut tray)
}

fn read_level(
    rt: &impl Abort,
    alloc: Global,
    header: &str,
    count: usize,
) -> Result<usize, PlateError> {
    let bytes = level(rt, alloc, header, count);
    read_bytes(rt, alloc, &bytes)
}

fn is_same(one: Result<usize, PlateError>, other: Result<usize, PlateFault>) -> bool {
    match (one, other) {
        (Ok(count), Ok(want)) => count == want,
        (Err(PlateError::Fault(fault)), Err(want)) => fault == want,
        (_, _) => false,
    }
}

// A header of 14 bytes, how many bytes stand after it, and how many samples that is.
const LONG: &[((&str, usize), Result<usize, PlateFault>)] = &[
    (("P5 262144 1 1\n", 262_144), Ok(262_144)),
    (("P5 1 262144 1\n", 262_144), Ok(262_144)),
    (
        ("P5 1 262144 1\n", 262_143),
        Err(PlateFault::Truncated(262_157)),
    ),
    (
        ("P5 262144 1 1\n", 262_145),
        Err(PlateFault::TrailingBytes(262_158)),
    ),
    (("P5 262145 1 1\n", 9), Err(PlateFault::SideRange(3))),
];

#[test]
fn a_sheet_may_be_262144_samples_long(rt: HostRuntime) {
    for ((header, count), want) in LONG {
        let is = read_level(&rt, rt.alloc(), header, *count);
        judge(&rt, is_same(is, *want), header, *count as u64);
    }
}
