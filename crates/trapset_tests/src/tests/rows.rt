use super::{APPLY, Case, DISABLED, INKS, Look, TRAPS, USUAL, WIDE, case_of, ends, judge};
use std::alloc::Global;
use std::process::Abort;

// Two plates of two rows: Cyan alone above, and Magenta below.
const ABOVE: &[u8] = b"P5\n3 2\n255\n\0\0\0\xFF\xFF\xFF";

const BELOW: &[u8] = b"P5\n3 2\n255\n\xFF\xFF\xFF\0\0\0";

// Sets for them, and both plates with their runs: across the rows' border, over a whole row, and in the same column of both rows.
const APPLIED: &[(&[u8], &[u8], &[u8])] = &[
    (
        b"trap set\npage 3 2 255 plates 2\nrun 0 2 1 0 255\nrun 1 0 1 255 0\nend\n",
        b"P5\n3 2\n255\n\0\0\xFF\0\xFF\xFF",
        b"P5\n3 2\n255\n\xFF\xFF\0\xFF\0\0",
    ),
    (
        b"trap set\npage 3 2 255 plates 2\nrun 1 0 3 255 0\nend\n",
        b"P5\n3 2\n255\n\0\0\0\0\0\0",
        b"P5\n3 2\n255\n\xFF\xFF\xFF\xFF\xFF\xFF",
    ),
    (
        b"trap set\npage 3 2 255 plates 2\nrun 0 1 1 0 0\nrun 1 1 1 7 8\nend\n",
        b"P5\n3 2\n255\n\0\xFF\0\xFF\xF8\xFF",
        b"P5\n3 2\n255\n\xFF\xFF\xFF\0\xF7\0",
    ),
];

// Sets whose runs go back a row, back in one, over a row's end, or below the last row, and the line that is bad.
const BAD: &[(&[u8], &str)] = &[
    (
        b"trap set\npage 3 2 255 plates 2\nrun 1 0 1 1 1\nrun 0 2 1 1 1\nend\n",
        "set: BadLine 4\n",
    ),
    (
        b"trap set\npage 3 2 255 plates 2\nrun 1 1 1 1 1\nrun 1 0 1 1 1\nend\n",
        "set: BadLine 4\n",
    ),
    (
        b"trap set\npage 3 2 255 plates 2\nrun 0 2 2 1 1\nend\n",
        "set: BadLine 3\n",
    ),
    (
        b"trap set\npage 3 2 255 plates 2\nrun 2 0 1 1 1\nend\n",
        "set: BadLine 3\n",
    ),
];

// A page of two rows with two edges in each: what changes above has the same tints in one run; below there are others at the
// second edge, so that two runs touch.
const STRIPED_CYAN: &[u8] = b"P5\n6 2\n255\n\0\0\xFF\xFF\0\0\0\0\xFF\xFF\x28\x28";

const STRIPED_MAGENTA: &[u8] = b"P5\n6 2\n255\n\xFF\xFF\0\0\xFF\xFF\xFF\xFF\0\0\xFF\xFF";

const STRIPED_SET: &[u8] =
    b"trap set\npage 6 2 255 plates 2\nrun 0 1 4 255 255\nrun 1 1 2 255 255\nrun 1 3 1 215 255\nend\n";

// Whether the set, put onto the plates of two rows, ends so.
fn rows_end(rt: &impl Abort, alloc: Global, set: &[u8], status: u8, look: Look<'_>) -> bool {
    ends(
        rt,
        alloc,
        case_of(APPLY, &[DISABLED], &[ABOVE, BELOW], &[set]),
        status,
        look,
    )
}

fn gives<'a>(
    rt: &impl Abort,
    alloc: Global,
    set: &[u8],
    cyan: &'a [u8],
    magenta: &'a [u8],
) -> bool {
    let files = [None, Some(cyan), Some(magenta)];
    rows_end(rt, alloc, set, 0, Look::Written(&files))
}

#[test]
fn runs_stand_in_the_rows_that_they_name(rt: HostRuntime) {
    for (place, (set, cyan, magenta)) in APPLIED.iter().enumerate() {
        let is = gives(&rt, rt.alloc(), set, cyan, magenta);
        judge(&rt, is, "set", place as u64);
    }
}

#[test]
fn runs_go_on_row_by_row(rt: HostRuntime) {
    for (place, (set, reported)) in BAD.iter().enumerate() {
        let is = rows_end(&rt, rt.alloc(), set, 8, Look::Refused(reported));
        judge(&rt, is, reported, place as u64);
    }
}

const STRIPED: Case<'static> = Case {
    words: TRAPS,
    job: &[INKS, WIDE],
    plates: &[STRIPED_CYAN, STRIPED_MAGENTA],
    ..USUAL
};

#[test]
fn runs_are_joined_over_the_same_tints_alone(rt: HostRuntime) {
    let look = Look::Written(&[Some(STRIPED_SET), None, None]);
    let is = ends(&rt, rt.alloc(), STRIPED, 0, look);
    judge(&rt, is, "striped", 0);
}
