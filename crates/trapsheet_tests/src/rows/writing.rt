ghost use Rattle.std.specs.Prelude.{◌≡◌, length};

use super::devices::{Fault, judge, racks_of};
use common_errors::common::CommonError;
use outside::mem_rack::MemRack;
use pgm_plates::rows::Header;
use plate_rows::images::{begin_images, end_images, write_next};
use plate_rows::laws::writing_goes_on;
use std::alloc::Global;
use std::process::Abort;

const OUTPUTS: [&str; 2] = ["out", "out"];

const HEADER: Header = Header {
    width: 2,
    height: 2,
    maxval: 300,
};

// The two rows of both plates, one plate after the other.
const ROWS: [[u16; 4]; 2] = [[300, 44, 0, 299], [1, 2, 295, 0]];

// The files that are written of them.
const FILES: [&[u8]; 2] = [
    b"P5\n2 2\n300\n\x00\x00\x01\x00\x01\x2b\x01\x2a",
    b"P5\n2 2\n300\n\x01\x2c\x00\x01\x00\x05\x01\x2c",
];

// Writes two plates, a row of both at a time.
fn write_both(racks: &mut [MemRack]) -> Result<(), CommonError>
    requires { length racks.old ≡ 2 }
{
    writing_goes_on();
    let mut bytes = [0u8; 3];
    begin_images(racks, &OUTPUTS, HEADER)?;
    write_next(racks, 2, HEADER, &ROWS[0], 2, &mut bytes)?;
    write_next(racks, 2, HEADER, &ROWS[1], 2, &mut bytes)?;
    end_images(racks, 2)
}

// How the writing ends: whether it was done or of which plate a call failed, and how many bytes of each file stand.
#[derive(Clone, Copy, PartialEq, Eq)]
struct End {
    error: Option<CommonError>,
    lengths: [Option<usize>; 2],
}

// How many bytes of a plate's file stand, where they are a prefix of it.
fn length_on(rack: &MemRack, whole: &[u8]) -> Option<usize> {
    match rack.file("out") {
        Some(bytes) if whole.starts_with(bytes) => Some(bytes.len()),
        _ => None,
    }
}

fn end_of_writing(rt: &impl Abort, racks: &mut [MemRack]) -> End {
    assert!(rt; racks.len() == 2);
    let error = write_both(racks).err();
    End {
        error,
        lengths: [
            length_on(&racks[0], FILES[0]),
            length_on(&racks[1], FILES[1]),
        ],
    }
}

fn end_of(rt: &impl Abort, alloc: Global, fault: Option<Fault>) -> End {
    let mut racks = racks_of(rt, alloc, fault);
    end_of_writing(rt, &mut racks)
}

#[test]
fn plates_are_written_by_rows(rt: HostRuntime) {
    let whole = End {
        error: None,
        lengths: [Some(FILES[0].len()), Some(FILES[1].len())],
    };
    judge(&rt, end_of(&rt, rt.alloc(), None) == whole, "plates", 2);
}

// Where a call of a rack fails: the call, and how many bytes of each file stand then.
const FAILS: [(u32, u64, [Option<usize>; 2]); 11] = [
    (0, 0, [None, None]),
    (0, 3, [Some(4), None]),
    (1, 0, [Some(11), None]),
    (1, 7, [Some(11), Some(10)]),
    (0, 8, [Some(11), Some(11)]),
    (0, 9, [Some(13), Some(11)]),
    (1, 8, [Some(15), Some(11)]),
    (0, 11, [Some(17), Some(15)]),
    (1, 11, [Some(19), Some(17)]),
    (0, 12, [Some(19), Some(19)]),
    (1, 12, [Some(19), Some(19)]),
];

// Whether it ends so where that call of the plate's rack fails.
fn is_reported_at(
    rt: &impl Abort,
    alloc: Global,
    plate: u32,
    call: u64,
    lengths: [Option<usize>; 2],
) -> bool {
    let fault = Fault {
        device: plate as usize,
        call,
    };
    let error = Some(CommonError::Write(Some(plate)));
    end_of(rt, alloc, Some(fault)) == End { error, lengths }
}

#[test]
fn each_write_that_fails_is_reported_of_its_plate(rt: HostRuntime) {
    for (plate, call, lengths) in FAILS {
        let is = is_reported_at(&rt, rt.alloc(), plate, call, lengths);
        judge(&rt, is, "call", call);
    }
}
