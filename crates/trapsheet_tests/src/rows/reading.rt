ghost use Rattle.std.specs.Prelude.{◌≡◌, ◌<◌, ℕ, length};
ghost use Rattle.page_model.specs.Planes.{plane_at};

use super::devices::{Fault, judge, trays_of};
use common_errors::common::CommonError;
use lists::list::List;
use outside::mem_tray::MemTray;
use outside::tray::Tray;
use page_model::parts::Plane;
use pgm_plates::plate::PlateFault;
use pgm_plates::rows::{Header, OpenPlate};
use plate_rows::error::RereadError;
use plate_rows::rereading::{NextRows, begin_plates, end_plates, read_next};
use plate_rows::sharing::judge_plates;
use std::alloc::Global;
use std::process::Abort;
use std::thread::Threads;

const INPUTS: [&str; 2] = ["in", "in"];

const HEADERS: [Header; 2] = [
    Header {
        width: 2,
        height: 3,
        maxval: 9,
    },
    Header {
        width: 2,
        height: 3,
        maxval: 300,
    },
];

const NONE: OpenPlate = OpenPlate {
    header: Header {
        width: 0,
        height: 0,
        maxval: 0,
    },
    size: 0,
};

// Two plates of two by three samples, one with a byte for each and one with two.
const NARROW: &str = "P5 2 3 9 \x01\x02\x03\x04\x05\x09";

const WIDE: &str = "P5 2 3 300 \x00\x01\x00\x02\x00\x03\x01\x2c\x00\x05\x01\x00";

// How two readings end.
#[derive(Clone, Copy, PartialEq, Eq)]
enum End {
    // The first refuses a plate.
    Refused(CommonError),
    // The second stops.
    Stopped(RereadError),
    // The last two rows of each plate, as tints.
    Read([[u16; 4]; 2]),
}

// Judges two plates side by side.
fn judge_two(rt: &(impl Threads + Sync), trays: &mut [MemTray]) -> Result<[Header; 2], CommonError>
    requires { length trays.old ≡ 2 }
{
    let mut headers = [NONE.header; 2];
    judge_plates(rt, 2, trays, &INPUTS, &mut headers)?;
    Ok(headers)
}

// Keeps the lower of a plane's two rows.
fn keep_last(plane: &mut Plane)
    requires { length plane.old.tints ≡ 4 }
    ensures { length plane.new.tints ≡ 4 }
{
    plane.tints.swap(0, 2);
    plane.tints.swap(1, 3);
}

fn keep_last_of_each(planes: &mut [Plane])
    requires planes { length planes.old ≡ 2 }
    requires full { (k : ℕ) → k < 2 → length (plane_at planes.old k).tints ≡ 4 }
    ensures { (k : ℕ) → k < 2 → length (plane_at planes.new k).tints ≡ 4 }
{
    keep_last(&mut planes[0]);
    keep_last(&mut planes[1]);
}

// Reads the plates once more: two rows, and then the third after the second.
fn read_again<T: Tray>(
    alloc: Global,
    trays: &mut [T],
    planes: &mut [Plane],
) -> Result<(), RereadError>
    requires trays { length trays.old ≡ 2 }
    requires planes { length planes.old ≡ 2 }
    requires full { (k : ℕ) → k < 2 → length (plane_at planes.old k).tints ≡ 4 }
{
    let mut plates = [NONE; 2];
    let mut bytes = [0u8; 3];
    begin_plates(trays, &INPUTS, &HEADERS, &mut plates)?;
    let top = NextRows { done: 0, kept: 0 };
    read_next(alloc, trays, &plates, top, planes, &mut bytes)?;
    keep_last_of_each(planes);
    let rest = NextRows { done: 4, kept: 2 };
    read_next(alloc, trays, &plates, rest, planes, &mut bytes)?;
    end_plates(trays, &plates)
}

// A plane of two rows.
fn plane_of(rt: &impl Abort, alloc: Global) -> Plane {
    let tints = vec![in alloc; 0u16; 4].expect(rt, "no memory");
    Plane {
        width: 2,
        height: 2,
        maxval: 9,
        tints: List::from_vec(tints),
    }
}

fn tints_of(plane: &Plane) -> [u16; 4] {
    let mut tints = [0u16; 4];
    for (at, tint) in plane.tints.as_slice().iter().enumerate() {
        if at < 4 {
            tints[at] = *tint;
        }
    }
    tints
}

// Judges two plates and reads them again, by the same trays.
fn read_both(
    rt: &(impl Abort + Threads + Sync),
    alloc: Global,
    trays: &mut [MemTray],
    planes: &mut [Plane],
) -> End {
    assert!(rt; trays.len() == 2);
    match judge_two(rt, trays) {
        Ok(headers) => {
            assert!(rt; headers == HEADERS);
            read_second(rt, alloc, trays, planes)
        }
        Err(common_error) => End::Refused(common_error),
    }
}

fn read_second(rt: &impl Abort, alloc: Global, trays: &mut [MemTray], planes: &mut [Plane]) -> End {
    assert!(rt; trays.len() == 2);
    assert!(rt; planes.len() == 2);
    assert!(rt; planes[0].tints.len() == 4);
    assert!(rt; planes[1].tints.len() == 4);
    match read_again(alloc, trays, planes) {
        Ok(()) => End::Read([tints_of(&planes[0]), tints_of(&planes[1])]),
        Err(error) => End::Stopped(error),
    }
}

fn end_of_both(rt: &(impl Abort + Threads + Sync), alloc: Global, trays: &mut [MemTray]) -> End {
    let mut planes = [plane_of(rt, alloc), plane_of(rt, alloc)];
    read_both(rt, alloc, trays, &mut planes)
}

// How both readings of two files end, of which a call may fail.
fn end_of(
    rt: &(impl Abort + Threads + Sync),
    alloc: Global,
    files: &[&str; 2],
    fault: Option<Fault>,
) -> End {
    let mut trays = trays_of(rt, alloc, files, fault);
    end_of_both(rt, alloc, &mut trays)
}

fn end_of_second(rt: &impl Abort, alloc: Global, trays: &mut [MemTray]) -> End {
    let mut planes = [plane_of(rt, alloc), plane_of(rt, alloc)];
    read_second(rt, alloc, trays, &mut planes)
}

// How the second reading alone ends, of files that may have changed.
fn end_again(rt: &impl Abort, alloc: Global, files: &[&str; 2]) -> End {
    let mut trays = trays_of(rt, alloc, files, None);
    end_of_second(rt, alloc, &mut trays)
}

// The second and the third row of each plate, turned into tints.
const LAST_ROWS: [[u16; 4]; 2] = [[6, 5, 4, 0], [297, 0, 295, 44]];

#[test]
fn plates_are_read_twice(rt: HostRuntime) {
    let end = end_of(&rt, rt.alloc(), &[NARROW, WIDE], None);
    judge(&rt, end == End::Read(LAST_ROWS), "plates", 2);
}

// Files of which one is refused: the first of them, in their order.
const REFUSED: &[([&str; 2], CommonError)] = &[
    (
        ["P5 2 3 9 \x0a\x02\x03\x04\x05\x09", WIDE],
        CommonError::Plate(0, PlateFault::SampleAboveMaxval(9)),
    ),
    (
        [
            NARROW,
            "P5 2 3 300 \x00\x01\x00\x02\x00\x03\x01\x2c\x00\x05\x01",
        ],
        CommonError::Plate(1, PlateFault::Truncated(22)),
    ),
    (
        ["P5 2 3 9 \x01\x02\x03\x04\x05\x06\x07", "P5 2 3 300 !"],
        CommonError::Plate(0, PlateFault::TrailingBytes(15)),
    ),
    (
        [NARROW, "P5 2 262145 9 "],
        CommonError::Plate(1, PlateFault::SideRange(5)),
    ),
    (["P6", "P6"], CommonError::Plate(0, PlateFault::BadMagic(1))),
];

#[test]
fn the_first_fault_of_a_plate_is_reported(rt: HostRuntime) {
    for (place, (files, common_error)) in REFUSED.iter().enumerate() {
        let end = end_of(&rt, rt.alloc(), files, None);
        judge(
            &rt,
            end == End::Refused(*common_error),
            "plates",
            place as u64,
        );
    }
}

// What the second reading comes to, where the first one read the two plates above.
const CHANGED: &[([&str; 2], End)] = &[
    ([NARROW, WIDE], End::Read(LAST_ROWS)),
    (
        ["P5\n2\n3\n9\n\x09\x09\x03\x04\x05\x09", WIDE],
        End::Read(LAST_ROWS),
    ),
    (
        [
            NARROW,
            "P5 2 3 301 \x00\x01\x00\x02\x00\x03\x01\x2c\x00\x05\x01\x00",
        ],
        End::Stopped(RereadError::Changed(1)),
    ),
    (
        ["P5 3 2 9 \x01\x02\x03\x04\x05\x06", "P5 "],
        End::Stopped(RereadError::Changed(0)),
    ),
    ([NARROW, "P5 2 "], End::Stopped(RereadError::Changed(1))),
    (
        ["P5 2 3 9 \x01\x02\x03\x0a\x05\x09", WIDE],
        End::Stopped(RereadError::Changed(0)),
    ),
    (
        ["P5 2 3 9 \x01\x02\x03\x04\x05", WIDE],
        End::Stopped(RereadError::Changed(0)),
    ),
    (
        [
            NARROW,
            "P5 2 3 300 \x00\x01\x00\x02\x00\x03\x01\x2c\x00\x05\x01\x00 ",
        ],
        End::Stopped(RereadError::Changed(1)),
    ),
];

#[test]
fn a_plate_that_has_changed_is_reported(rt: HostRuntime) {
    for (place, (files, want)) in CHANGED.iter().enumerate() {
        let end = end_again(&rt, rt.alloc(), files);
        judge(&rt, end == *want, "plates", place as u64);
    }
}

// More calls than a tray gets.
const CALLS: u64 = 60;

// Whether a call of that tray fails so: in the first reading, or in the second.
fn is_reported(end: End, tray: u32) -> bool {
    match end {
        End::Refused(common_error) => common_error == CommonError::Read(Some(tray)),
        End::Stopped(error) => error == RereadError::Unread(tray),
        End::Read(rows) => rows == LAST_ROWS,
    }
}

// Whether it does where that call fails, and both readings end well from call `last` on.
fn is_reported_at(
    rt: &(impl Abort + Threads + Sync),
    alloc: Global,
    tray: u32,
    call: u64,
    last: u64,
) -> bool {
    let fault = Fault {
        device: tray as usize,
        call,
    };
    let end = end_of(rt, alloc, &[NARROW, WIDE], Some(fault));
    let is_read = matches!(end, End::Read(_));
    is_reported(end, tray) && is_read == (call >= last)
}

#[test]
fn each_read_that_fails_is_reported_of_its_plate(rt: HostRuntime) {
    for call in 0..CALLS {
        judge(
            &rt,
            is_reported_at(&rt, rt.alloc(), 0, call, 27),
            "tray 0",
            call,
        );
        judge(
            &rt,
            is_reported_at(&rt, rt.alloc(), 1, call, 36),
            "tray 1",
            call,
        );
    }
}
