// Random pages, cut into windows of a few samples: whatever the cut, the files are those of the page in one window.

use super::{NARROW, Pieces, WIDE, case_of, run};
use outside::mem_rack::MemRack;
use sheet_geometry::budget::Budget;
use std::alloc::{AllocError, Global};
use std::process::Abort;
use std::test::Fail;
use std::thread::Threads;
use test_files::{INKS, WIDE as SPREAD};

// Two zones, one over the other, and a hole: traps of two samples and of one.
const ZONES: &[u8] =
    b"<< /TrapWidth 2 >> settrapparams 1 1 moveto 20 0 rlineto 0 24 rlineto -20 0 rlineto settrapzone << /TrapWidth 1 /SlidingTrapLimit 1 >> settrapparams 5 9 moveto 12 0 rlineto 0 15 rlineto -12 0 rlineto closepath 9 13 moveto 0 5 rlineto 5 0 rlineto 0 -5 rlineto settrapzone showpage";

// Seven samples are the step of these windows, since 350 pixels an inch do not divide the unit of coordinates.
const UNEVEN: &[u8] = b"<< /HWResolution [350 350] >> setpagedevice ";

// The same zones in samples of 350 an inch.
const UNEVEN_ZONES: &[u8] =
    b"<< /TrapWidth 0.4 >> settrapparams 0.2 0.3 moveto 4.1 0 rlineto 0 4.9 rlineto -4.1 0 rlineto settrapzone << /TrapWidth 0.6 >> settrapparams 1.1 1.9 moveto 2.5 0 rlineto 0 3.1 rlineto -2.5 0 rlineto settrapzone showpage";

const DEEP: &[u8] = b"P5\n23 31\n255\n";

const DEEPER: &[u8] = b"P5\n23 31\n65535\n";

// A job, the header of both plates, and how many bytes follow it.
const PAGES: &[(Pieces<'static>, &[u8], usize)] = &[
    (&[INKS, SPREAD], DEEP, 713),
    (&[INKS, ZONES], DEEP, 713),
    (&[INKS, UNEVEN, UNEVEN_ZONES], DEEP, 713),
    (&[INKS, UNEVEN, UNEVEN_ZONES], DEEPER, 1_426),
];

// Windows of few samples in both directions, of few columns, and of few rows.
const CUTS: &[Budget] = &[
    NARROW,
    Budget {
        rows: 20,
        samples: 1,
    },
    Budget {
        rows: 1,
        samples: 300,
    },
];

// The next random byte: one of four tints, or mostly the byte before.
fn next_byte(dice: &mut u64, last: u8) -> u8 {
    *dice = dice
        .wrapping_mul(6_364_136_223_846_793_005)
        .wrapping_add(1_442_695_040_888_963_407);
    match *dice >> 60 {
        0 => 0,
        1 => 60,
        2 => 150,
        3 => 255,
        _ => last,
    }
}

// A plate's file: this header, and `count` random bytes.
fn plate_of(
    alloc: Global,
    header: &[u8],
    count: usize,
    dice: &mut u64,
) -> Result<Vec<u8>, AllocError> {
    let mut bytes = header.to_vec(alloc)?;
    let mut last = 255;
    for _ in 0..count {
        last = next_byte(dice, last);
        bytes.push(last)?;
    }
    Ok(bytes)
}

// Whether the first two racks hold the same files.
fn hold_the_same(racks: &[MemRack], others: &[MemRack]) -> bool {
    for (rack, other) in racks.iter().zip(others.iter()) {
        for name in ["out0", "out1", "report"] {
            if rack.file(name) != other.file(name) {
                return false;
            }
        }
    }
    true
}

// Whether a plate's file was written, and is not what was read.
fn has_traps(racks: &[MemRack], plate: &[u8]) -> bool {
    match racks.first() {
        Some(rack) => match rack.file("out0") {
            Some(bytes) => bytes.len() == plate.len() && bytes != plate,
            None => false,
        },
        None => false,
    }
}

fn are_alike(cut: Vec<MemRack>, whole: Vec<MemRack>, plate: &[u8]) -> bool {
    has_traps(&whole, plate) && hold_the_same(&cut, &whole)
}

// Whether a page is trapped in windows as it is in one.
fn is_cut_well(
    rt: &(impl Abort + Threads + Sync),
    alloc: Global,
    job: Pieces<'_>,
    plates: [&[u8]; 2],
    windows: Budget,
) -> Result<bool, AllocError> {
    let [first, second] = plates;
    let files: &[Pieces<'_>] = &[&[first], &[second]];
    let (status, cut) = run(rt, alloc, case_of(job, files, windows))?;
    let (whole_status, whole) = run(rt, alloc, case_of(job, files, WIDE))?;
    Ok(are_alike(cut, whole, first) && status == 0 && whole_status == 0)
}

// The same of a random page.
fn some_page_is_cut_well(
    rt: &(impl Abort + Threads + Sync),
    alloc: Global,
    job: Pieces<'_>,
    header: &[u8],
    count: usize,
    windows: Budget,
    dice: &mut u64,
) -> Result<bool, AllocError> {
    let first = plate_of(alloc, header, count, dice)?;
    let second = plate_of(alloc, header, count, dice)?;
    is_cut_well(rt, alloc, job, [&first, &second], windows)
}

#[test]
fn no_cut_changes_a_byte(rt: HostRuntime) -> Result<(), Fail> {
    let mut dice = 26;
    for (job, header, count) in PAGES {
        for windows in CUTS {
            let well = some_page_is_cut_well(
                &rt,
                rt.alloc(),
                job,
                header,
                *count,
                *windows,
                &mut dice,
            )?;
            let Budget { rows, samples } = *windows;
            assert!(rt; well, "{rows} rows, {samples} samples");
        }
    }
    Ok(())
}
