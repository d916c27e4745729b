use crate::fixtures::{Way, by, judge, tray_of};
use outside::mem_tray::MemTray;
use pgm_plates::pages::read_page;
use pgm_plates::plate::{PlateError, PlateFault};
use std::alloc::Global;
use std::process::Abort;

// The width of the plate of that number, none where there is none, or why it is refused.
fn width_by(alloc: Global, tray: &mut MemTray, page: u32) -> Result<Option<u32>, PlateError> {
    match read_page(alloc, tray, "one", page)? {
        Some(plate) => Ok(Some(plate.width)),
        None => Ok(None),
    }
}

// The same of a file of these bytes, by such a tray.
fn width_of(
    rt: &impl Abort,
    alloc: Global,
    (text, page): (&str, u32),
    way: Way,
) -> Result<Option<u32>, PlateError> {
    let mut tray = tray_of(rt, alloc, text.as_bytes(), way);
    width_by(alloc, &mut tray, page)
}

fn is_same(one: Result<Option<u32>, PlateError>, other: Result<Option<u32>, PlateError>) -> bool {
    match (one, other) {
        (Ok(width), Ok(want)) => width == want,
        (Err(error), Err(want)) => error == want,
        (_, _) => false,
    }
}

// A plate of 10 bytes and one of 15, alone, together, and with more after them.
const FILES: &[((&str, u32), Result<Option<u32>, PlateFault>)] = &[
    (("", 0), Ok(None)),
    (("", 9), Ok(None)),
    (("P5 1 1 1 \x01", 0), Ok(Some(1))),
    (("P5 1 1 1 \x01", 1), Ok(None)),
    (("P5 1 1 1 \x01", 4_294_967_295), Ok(None)),
    (
        ("P5 1 1 1 \x01P5\n2 1\n300\n\x01\x2c\x00\x00", 0),
        Ok(Some(1)),
    ),
    (
        ("P5 1 1 1 \x01P5\n2 1\n300\n\x01\x2c\x00\x00", 1),
        Ok(Some(2)),
    ),
    (("P5 1 1 1 \x01P5\n2 1\n300\n\x01\x2c\x00\x00", 2), Ok(None)),
    (("P5 1 1 1 \x01P2", 0), Ok(Some(1))),
    (("P5 1 1 1 \x01P2", 1), Err(PlateFault::BadMagic(11))),
    (("P5 1 1 1 \x01P2", 7), Err(PlateFault::BadMagic(11))),
    (("P5 1 1 1 \x01\n", 1), Err(PlateFault::BadMagic(10))),
    (("P5 1 1 1 \x01P5 1 1", 1), Err(PlateFault::Truncated(16))),
    (
        ("P5 1 1 1 \x01P5 1 1 1 \x02", 1),
        Err(PlateFault::SampleAboveMaxval(19)),
    ),
    (
        ("P5 1 1 1 \x01P5\n2 1\n300\n\x01\x2c\x00\x00P5 0 ", 2),
        Err(PlateFault::SideRange(28)),
    ),
];

fn error_of(want: Result<Option<u32>, PlateFault>) -> Result<Option<u32>, PlateError> {
    match want {
        Ok(width) => Ok(width),
        Err(fault) => Err(PlateError::Fault(fault)),
    }
}

fn judge_files(rt: &impl Abort, alloc: Global, grain: usize) {
    for (file, want) in FILES {
        let width = width_of(rt, alloc, *file, by(grain));
        judge(
            rt,
            is_same(width, error_of(*want)),
            file.0,
            u64::from(file.1),
        );
    }
}

#[test]
fn the_plate_of_a_number_is_read(rt: HostRuntime) {
    judge_files(&rt, rt.alloc(), 1);
    judge_files(&rt, rt.alloc(), 4096);
}

// Two plates of 10 bytes each.
const TWO: &str = "P5 1 1 1 \x01P5 1 1 1 \x01";

const BROKEN: Result<Option<u32>, PlateError> = Err(PlateError::ReadFault);

// The answer for the second plate where reads fail from that place on.
fn second_at(place: u64) -> Result<Option<u32>, PlateError> {
    if place < 20 { BROKEN } else { Ok(Some(1)) }
}

fn judge_page(
    rt: &impl Abort,
    alloc: Global,
    place: u64,
    page: u32,
    want: Result<Option<u32>, PlateError>,
) {
    let way = Way {
        fails_at: Some(place),
        ..by(4096)
    };
    judge(
        rt,
        is_same(width_of(rt, alloc, (TWO, page), way), want),
        "a failing read at",
        place,
    );
}

#[test]
fn a_read_that_fails_after_a_plate_is_no_fault_of_it(rt: HostRuntime) {
    for place in 10..21 {
        judge_page(&rt, rt.alloc(), place, 0, Ok(Some(1)));
        judge_page(&rt, rt.alloc(), place, 1, second_at(place));
        judge_page(&rt, rt.alloc(), place, 2, BROKEN);
    }
}
