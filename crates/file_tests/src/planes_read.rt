use crate::fixtures::{by, judge, tray_of};
use outside::mem_tray::MemTray;
use page_model::parts::Plane;
use pgm_plates::pages::read_page_plane;
use pgm_plates::plate::{PlateError, PlateFault};
use pgm_plates::reading::read_plane;
use std::alloc::Global;
use std::process::Abort;

// The first tint of a plane, and the last.
fn ends_of(plane: &Plane) -> Option<(u16, u16)> {
    let tints = plane.tints.as_slice();
    match (tints.first(), tints.last()) {
        (Some(first), Some(last)) => Some((*first, *last)),
        (_, _) => None,
    }
}

// What a file reads as: its plane's ends, no plane, or its fault.
type Ends = Result<Option<(u16, u16)>, PlateFault>;

fn plane_by(alloc: Global, tray: &mut MemTray) -> Result<Option<(u16, u16)>, PlateError> {
    let plane = read_plane(alloc, tray, "one")?;
    Ok(ends_of(&plane))
}

fn page_by(alloc: Global, tray: &mut MemTray, page: u32) -> Result<Option<(u16, u16)>, PlateError> {
    match read_page_plane(alloc, tray, "one", page)? {
        Some(plane) => Ok(ends_of(&plane)),
        None => Ok(None),
    }
}

fn is_same(one: Result<Option<(u16, u16)>, PlateError>, other: Ends) -> bool {
    match (one, other) {
        (Ok(ends), Ok(want)) => ends == want,
        (Err(PlateError::Fault(fault)), Err(want)) => fault == want,
        (_, _) => false,
    }
}

const PLANES: &[(&str, Ends)] = &[
    ("P5 3 2 100 abcdaa", Ok(Some((3, 3)))),
    ("P5 3 2 100 aaaaab", Ok(Some((3, 2)))),
    ("P5 1 1 255 \x7f", Ok(Some((128, 128)))),
    ("P5 2 1 300 \x01\x2c\x00\x00", Ok(Some((0, 300)))),
    ("P5 2 1 65535 \x00\x00\x7f\x7f", Ok(Some((65_535, 32_896)))),
    ("P5 3 2 100 aaaaae", Err(PlateFault::SampleAboveMaxval(16))),
    ("P5 3 2 100 aaaaa", Err(PlateFault::Truncated(16))),
    ("P5 3 2 100 aaaaaaa", Err(PlateFault::TrailingBytes(17))),
];

fn judge_planes(rt: &impl Abort, alloc: Global, grain: usize) {
    for (text, want) in PLANES {
        let mut tray = tray_of(rt, alloc, text.as_bytes(), by(grain));
        judge(
            rt,
            is_same(plane_by(alloc, &mut tray), *want),
            text,
            grain as u64,
        );
    }
}

#[test]
fn a_plate_is_read_as_its_plane(rt: HostRuntime) {
    judge_planes(&rt, rt.alloc(), 1);
    judge_planes(&rt, rt.alloc(), 4096);
}

// A plate of one sample and one of two.
const TWO: &str = "P5 1 1 1 \x01P5\n2 1\n300\n\x01\x2c\x00\x00";

fn judge_page(rt: &impl Abort, alloc: Global, page: u32, want: Ends) {
    let mut tray = tray_of(rt, alloc, TWO.as_bytes(), by(3));
    judge(
        rt,
        is_same(page_by(alloc, &mut tray, page), want),
        "page",
        u64::from(page),
    );
}

#[test]
fn the_plane_of_a_number_is_read(rt: HostRuntime) {
    judge_page(&rt, rt.alloc(), 0, Ok(Some((0, 0))));
    judge_page(&rt, rt.alloc(), 1, Ok(Some((0, 300))));
    judge_page(&rt, rt.alloc(), 2, Ok(None));
}
