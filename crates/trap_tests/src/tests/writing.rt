ghost use Rattle.std.specs.Prelude.{◌≡◌, ◌<◌, ◌≤◌, ◌*◌, ◌++◌, ◌∷◌, [], length};
ghost use Rattle.std.specs.List.{All};
ghost use Rattle.page_model.specs.Conditions.{IsPlane};
ghost use Rattle.page_model.specs.Limits.{most_samples};

use super::{has, judge, rack_of};
use common_errors::common::CommonError;
use lists::list::List;
use lists::memory::push;
use outside::mem_rack::MemRack;
use page_files::writing::write_page;
use page_model::parts::{OutOfMemory, Plane, PlaneList};
use std::alloc::Global;
use std::process::Abort;

// A plane of two samples.
fn plane(rt: &impl Abort, alloc: Global, maxval: u32, row: &[u16]) -> Plane
    requires some { 0 < maxval }
    requires most { maxval ≤ 65535 }
    requires two { length row.now ≡ 2 }
    requires deep { All (λ t. t ≤ maxval) row.now }
    ensures plane { IsPlane result }
    ensures samples { result.width * result.height ≤ most_samples }
{
    match Vec::from_slice(alloc, row) {
        Ok(tints) => Plane {
            width: 2,
            height: 1,
            maxval,
            tints: List::from_vec(tints),
        },
        Err(_) => panic!(rt; "no memory"),
    }
}

fn put_plane(rt: &impl Abort, planes: &mut PlaneList, plane: Plane)
    ensures { planes.new ≡ planes.old ++ plane ∷ [] }
{
    match push(planes, plane) {
        Ok(()) => {}
        Err(OutOfMemory) => panic!(rt; "no memory"),
    }
}

fn both(rt: &impl Abort, alloc: Global, one: Plane, two: Plane) -> PlaneList
    ensures { result ≡ one ∷ two ∷ [] }
{
    let mut planes = List::new(alloc);
    put_plane(rt, &mut planes, one);
    put_plane(rt, &mut planes, two);
    planes
}

// Two planes, the samples of the first with one byte each and of the second with two.
fn two_planes(rt: &impl Abort, alloc: Global) -> PlaneList
    ensures count { length result ≡ 2 }
    ensures planes { All IsPlane result }
    ensures samples { All (λ p. p.width * p.height ≤ most_samples) result }
{
    let cyan = plane(rt, alloc, 255, &[209, 220]);
    let black = plane(rt, alloc, 300, &[11, 265]);
    both(rt, alloc, cyan, black)
}

const NAMES: [&str; 2] = ["cyan.pgm", "black.pgm"];

// Each file, and what stands in it when all is written.
const FILES: [(&str, &str); 3] = [
    ("cyan.pgm", "P5\n2 1\n255\n.#"),
    ("black.pgm", "P5\n2 1\n300\n\x01!\x00#"),
    ("page.txt", "end\n"),
];

const AT_CYAN: Option<CommonError> = Some(CommonError::Write(Some(0)));

const AT_BLACK: Option<CommonError> = Some(CommonError::Write(Some(1)));

const AT_REPORT: Option<CommonError> = Some(CommonError::Write(None));

// The room of the rack, the answer, and how many bytes each file has.
const ROOMS: [(u64, Option<CommonError>, [Option<usize>; 3]); 8] = [
    (0, AT_CYAN, [Some(0), None, None]),
    (12, AT_CYAN, [Some(12), None, None]),
    (13, AT_BLACK, [Some(13), Some(0), None]),
    (27, AT_BLACK, [Some(13), Some(14), None]),
    (28, AT_REPORT, [Some(13), Some(15), Some(0)]),
    (31, AT_REPORT, [Some(13), Some(15), Some(3)]),
    (32, None, [Some(13), Some(15), Some(4)]),
    (1000, None, [Some(13), Some(15), Some(4)]),
];

// The call that fails, the answer, and how many bytes each file has. A plate is created, written by `P5` and its LF,
// each number and the byte after it, and the samples, and finished; the report is created, written and finished.
const CALLS: [(u64, Option<CommonError>, [Option<usize>; 3]); 24] = [
    (0, AT_CYAN, [None, None, None]),
    (1, AT_CYAN, [Some(0), None, None]),
    (2, AT_CYAN, [Some(3), None, None]),
    (3, AT_CYAN, [Some(4), None, None]),
    (4, AT_CYAN, [Some(5), None, None]),
    (5, AT_CYAN, [Some(6), None, None]),
    (6, AT_CYAN, [Some(7), None, None]),
    (7, AT_CYAN, [Some(10), None, None]),
    (8, AT_CYAN, [Some(11), None, None]),
    (9, AT_CYAN, [Some(13), None, None]),
    (10, AT_BLACK, [Some(13), None, None]),
    (11, AT_BLACK, [Some(13), Some(0), None]),
    (12, AT_BLACK, [Some(13), Some(3), None]),
    (13, AT_BLACK, [Some(13), Some(4), None]),
    (14, AT_BLACK, [Some(13), Some(5), None]),
    (15, AT_BLACK, [Some(13), Some(6), None]),
    (16, AT_BLACK, [Some(13), Some(7), None]),
    (17, AT_BLACK, [Some(13), Some(10), None]),
    (18, AT_BLACK, [Some(13), Some(11), None]),
    (19, AT_BLACK, [Some(13), Some(15), None]),
    (20, AT_REPORT, [Some(13), Some(15), None]),
    (21, AT_REPORT, [Some(13), Some(15), Some(0)]),
    (22, AT_REPORT, [Some(13), Some(15), Some(4)]),
    (23, None, [Some(13), Some(15), Some(4)]),
];

// The first `count` bytes of a file.
fn part_of(whole: &str, count: Option<usize>) -> Option<&[u8]> {
    match count {
        Some(count) => whole.as_bytes().get(..count),
        None => None,
    }
}

// Whether the rack has these numbers of bytes of the files, and has printed nothing.
fn holds_prefixes(rack: &MemRack, counts: &[Option<usize>; 3]) -> bool {
    for ((name, whole), count) in FILES.iter().zip(counts) {
        if !has(rack, name, part_of(whole, *count)) {
            return false;
        }
    }
    rack.reported().is_empty()
}

// Why the planes and the report are not written.
fn error_of(rack: &mut MemRack, planes: PlaneList) -> Option<CommonError>
    requires count { length planes ≡ 2 }
    requires planes { All IsPlane planes }
    requires samples { All (λ p. p.width * p.height ≤ most_samples) planes }
{
    match write_page(rack, &NAMES, planes, "page.txt", b"end\n") {
        Ok(_) => None,
        Err(error) => Some(error),
    }
}

// Writes the planes and the report, and looks at the answer and the files.
fn ends(
    rack: &mut MemRack,
    planes: PlaneList,
    wanted: Option<CommonError>,
    counts: &[Option<usize>; 3],
) -> bool
    requires count { length planes ≡ 2 }
    requires planes { All IsPlane planes }
    requires samples { All (λ p. p.width * p.height ≤ most_samples) planes }
{
    error_of(rack, planes) == wanted && holds_prefixes(rack, counts)
}

// Whether such a rack gives the answer and the files.
fn is_written(
    rt: &impl Abort,
    alloc: Global,
    (workspace, call): (u64, u64),
    wanted: Option<CommonError>,
    counts: &[Option<usize>; 3],
) -> bool {
    let planes = two_planes(rt, alloc);
    let mut rack = rack_of(alloc, 4096, workspace, Some(call)).expect(rt, "no memory");
    ends(&mut rack, planes, wanted, counts)
}

#[test]
fn a_page_is_written_as_far_as_there_is_workspace(rt: HostRuntime) {
    for (workspace, wanted, counts) in ROOMS {
        let is = is_written(&rt, rt.alloc(), (workspace, 1000), wanted, &counts);
        judge(&rt, is, "room", workspace);
    }
}

#[test]
fn a_page_is_written_up_to_the_first_fault(rt: HostRuntime) {
    for (call, wanted, counts) in CALLS {
        let is = is_written(&rt, rt.alloc(), (1000, call), wanted, &counts);
        judge(&rt, is, "call", call);
    }
}
