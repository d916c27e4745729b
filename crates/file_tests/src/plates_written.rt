ghost use Rattle.std.specs.Prelude.{IfSome};
ghost use Rattle.pgm_plates.specs.Plates.{IsPlate};

use crate::fixtures::{add, by, judge, tray_of};
use lists::list::List;
use outside::mem_rack::MemRack;
use outside::mem_tray::MemTray;
use page_model::parts::Plane;
use pgm_plates::plate::Plate;
use pgm_plates::reading::read_plate;
use pgm_plates::writing::write_plate;
use std::alloc::Global;
use std::process::Abort;

fn plate_by(alloc: Global, tray: &mut MemTray) -> Option<Plate>
    ensures { IfSome result IsPlate }
{
    match read_plate(alloc, tray, "one") {
        Ok(plate) => Some(plate),
        Err(_) => None,
    }
}

// The plate that these bytes spell.
fn plate_of(rt: &impl Abort, alloc: Global, bytes: &[u8]) -> Option<Plate>
    ensures { IfSome result IsPlate }
{
    let mut tray = tray_of(rt, alloc, bytes, by(4096));
    plate_by(alloc, &mut tray)
}

fn holds(rack: &MemRack, want: &[u8]) -> bool {
    match rack.file("out") {
        Some(bytes) => bytes == want,
        None => false,
    }
}

fn is_written(plate: &Plate, rack: &mut MemRack) -> bool
    requires { IsPlate plate.now }
{
    match write_plate(rack, "out", plate) {
        Ok(()) => true,
        Err(_) => false,
    }
}

// Writes a plate by the rack, and says whether it was written and whether the file then holds these bytes.
fn write_by(plate: &Plate, rack: &mut MemRack, want: &[u8]) -> (bool, bool)
    requires { IsPlate plate.now }
{
    let is_written = is_written(plate, rack);
    (is_written, holds(rack, want))
}

fn rack_of(rt: &impl Abort, alloc: Global, grain: usize, workspace: u64) -> MemRack {
    assert!(rt; grain > 0);
    MemRack::new(alloc, grain, workspace, List::new(alloc))
}

// The same by a rack of that grain with that much room.
fn write_on(
    rt: &impl Abort,
    alloc: Global,
    plate: &Plate,
    grain: usize,
    workspace: u64,
    want: &[u8],
) -> (bool, bool)
    requires { IsPlate plate.now }
{
    let mut rack = rack_of(rt, alloc, grain, workspace);
    write_by(plate, &mut rack, want)
}

// The same of a plate that is read and written again.
fn write_again(
    rt: &impl Abort,
    alloc: Global,
    bytes: &[u8],
    (grain, workspace): (usize, u64),
    want: &[u8],
) -> (bool, bool) {
    match plate_of(rt, alloc, bytes) {
        Some(plate) => write_on(rt, alloc, &plate, grain, workspace, want),
        None => (false, false),
    }
}

const SPELLINGS: &[(&str, &str)] = &[
    ("P5\n6 1\n255\n......", "P5\n6 1\n255\n......"),
    ("P5#x\r006#y\n01\t0255 ......", "P5\n6 1\n255\n......"),
    ("P5 2 2 97 aa`\x00", "P5\n2 2\n97\naa`\x00"),
    (
        "P5 1 2 4660\t\x12\x34\x00\x01",
        "P5\n1 2\n4660\n\x12\x34\x00\x01",
    ),
];

fn judge_spellings(rt: &impl Abort, alloc: Global, grain: usize) {
    for (text, want) in SPELLINGS {
        let is = write_again(rt, alloc, text.as_bytes(), (grain, 1000), want.as_bytes());
        judge(rt, is == (true, true), text, grain as u64);
    }
}

#[test]
fn a_plate_is_written_in_its_canonical_spelling(rt: HostRuntime) {
    judge_spellings(&rt, rt.alloc(), 1);
    judge_spellings(&rt, rt.alloc(), 5);
    judge_spellings(&rt, rt.alloc(), 4096);
}

const SIX: &[u8] = b"P5\n6 1\n255\n\x00\x00\x00\xff\xff\xff";

#[test]
fn a_rack_without_workspace_holds_a_prefix_of_the_spelling(rt: HostRuntime) {
    for workspace in 0..18u64 {
        let prefix = SIX.get(..workspace as usize).unwrap_or(SIX);
        let is = write_again(&rt, rt.alloc(), SIX, (3, workspace), prefix);
        judge(&rt, is == (workspace == 17, true), "room", workspace);
    }
}

// A plate whose raster is longer than one piece of a write.
fn wide_plate(rt: &impl Abort, alloc: Global) -> Vec<u8> {
    let mut bytes = b"P5\n300 300\n65535\n"
        .to_vec(alloc)
        .expect(rt, "no memory");
    for number in 0..90_000u32 {
        add(rt, &mut bytes, (number / 256 % 256) as u8);
        add(rt, &mut bytes, (number % 256) as u8);
    }
    bytes
}

#[test]
fn a_raster_of_many_pieces_is_written_as_it_was_read(rt: HostRuntime) {
    let bytes = wide_plate(&rt, rt.alloc());
    let is = write_again(&rt, rt.alloc(), &bytes, (5000, 1_000_000), &bytes);
    assert!(rt; is == (true, true));
}

fn is_plane(plane: &Plane, maxval: u32, tints: &[u16]) -> bool {
    plane.maxval == maxval && plane.tints.as_slice() == tints
}

fn is_plate(plate: &Plate, maxval: u32, samples: &[u16]) -> bool {
    plate.maxval == maxval && plate.samples.as_slice() == samples
}

// Whether the plate has these tints, and the plane of these is the plate again.
fn turns(plate: Plate, tints: &[u16], samples: &[u16]) -> bool
    requires { IsPlate plate }
{
    let plane = plate.into_plane();
    is_plane(&plane, 200, tints) && is_plate(&Plate::of_plane(plane), 200, samples)
}

#[test]
fn samples_and_tints_are_turned_into_each_other(rt: HostRuntime) {
    let is = match plate_of(&rt, rt.alloc(), b"P5 2 2 200 \x00\x01\xc7\xc8") {
        Some(plate) => turns(plate, &[200, 199, 1, 0], &[0, 1, 199, 200]),
        None => false,
    };
    assert!(rt; is);
}
