use super::{
    CYAN, Case, DISABLED, INKS, Look, MAGENTA, Pieces, SET, TRAPS, USUAL, case_of, ends, judge,
    set_ends,
};
use std::alloc::Global;
use std::process::Abort;

// The parameters of a job, and the set of what it changes.
const MADE: &[(&[u8], &[u8])] = &[
    (b"/TrapWidth 2", SET),
    (
        b"/TrapWidth 2 /SlidingTrapLimit 1",
        b"trap set\npage 6 1 255 plates 2\nrun 0 3 2 255 255\nend\n",
    ),
    (
        b"/TrapWidth 2 /SlidingTrapLimit 1 /TrapColorScaling 0",
        b"trap set\npage 6 1 255 plates 2\nrun 0 3 2 141 141\nend\n",
    ),
    (
        b"/TrapWidth 0.25",
        b"trap set\npage 6 1 255 plates 2\nend\n",
    ),
    (b"/Enabled false", b"trap set\npage 6 1 255 plates 2\nend\n"),
];

// Whether a run of `traps` with these files ends so.
fn traps_end<'a>(
    rt: &impl Abort,
    alloc: Global,
    job: Pieces<'a>,
    magenta: &'a [u8],
    status: u8,
    look: Look<'_>,
) -> bool {
    ends(
        rt,
        alloc,
        case_of(TRAPS, job, &[CYAN, magenta], &[SET]),
        status,
        look,
    )
}

fn gives(rt: &impl Abort, alloc: Global, params: &[u8], set: &[u8]) -> bool {
    let job = [INKS, b"<< ", params, b" >> settrapparams showpage"];
    let files = [Some(set), None, None];
    traps_end(rt, alloc, &job, MAGENTA, 0, Look::Written(&files))
}

#[test]
fn a_set_has_the_longest_runs_of_what_changes(rt: HostRuntime) {
    for (place, (params, set)) in MADE.iter().enumerate() {
        judge(
            &rt,
            gives(&rt, rt.alloc(), params, set),
            "job",
            place as u64,
        );
    }
}

// The runs of a set, and both plates with them.
const APPLIED: &[(&[u8], &[u8], &[u8])] = &[
    (
        b"",
        b"P5\n6 1\n255\n\0\0\0\xFF\xFF\xFF",
        b"P5\n6 1\n255\n\xFF\xFF\xFF\0\0\0",
    ),
    (
        b"run 0 2 2 255 255\n",
        b"P5\n6 1\n255\n\0\0\0\0\xFF\xFF",
        b"P5\n6 1\n255\n\xFF\xFF\0\0\0\0",
    ),
    (
        b"run 0 3 2 141 141\n",
        b"P5\n6 1\n255\n\0\0\0\x72\x72\xFF",
        b"P5\n6 1\n255\n\xFF\xFF\xFF\x72\x72\0",
    ),
    // the whole row
    (
        b"run 0 0 6 255 0\n",
        b"P5\n6 1\n255\n\0\0\0\0\0\0",
        b"P5\n6 1\n255\n\xFF\xFF\xFF\xFF\xFF\xFF",
    ),
    // its first sample, and its last
    (
        b"run 0 0 1 0 9\nrun 0 5 1 1 2\n",
        b"P5\n6 1\n255\n\xFF\0\0\xFF\xFF\xFE",
        b"P5\n6 1\n255\n\xF6\xFF\xFF\0\0\xFD",
    ),
    // runs that touch, of other tints and of the same
    (
        b"run 0 0 2 1 2\nrun 0 2 2 3 4\n",
        b"P5\n6 1\n255\n\xFE\xFE\xFC\xFC\xFF\xFF",
        b"P5\n6 1\n255\n\xFD\xFD\xFB\xFB\0\0",
    ),
    (
        b"run 0 0 1 1 2\nrun 0 1 1 1 2\n",
        b"P5\n6 1\n255\n\xFE\xFE\0\xFF\xFF\xFF",
        b"P5\n6 1\n255\n\xFD\xFD\xFF\0\0\0",
    ),
    // a run over samples that have its tints already
    (
        b"run 0 0 3 255 0\n",
        b"P5\n6 1\n255\n\0\0\0\xFF\xFF\xFF",
        b"P5\n6 1\n255\n\xFF\xFF\xFF\0\0\0",
    ),
];

// Whether the runs give the plates these files.
fn puts_on<'a>(
    rt: &impl Abort,
    alloc: Global,
    runs: &[u8],
    cyan: &'a [u8],
    magenta: &'a [u8],
) -> bool {
    let set = [
        b"trap set\npage 6 1 255 plates 2\n".as_slice(),
        runs,
        b"end\n",
    ];
    let files = [None, Some(cyan), Some(magenta)];
    set_ends(rt, alloc, &set, 0, Look::Written(&files))
}

#[test]
fn plates_get_the_tints_of_the_runs(rt: HostRuntime) {
    for (place, (runs, cyan, magenta)) in APPLIED.iter().enumerate() {
        let is = puts_on(&rt, rt.alloc(), runs, cyan, magenta);
        judge(&rt, is, "runs", place as u64);
    }
}

// Other files of a run of `traps`, and what it is refused for.
const REFUSED: &[(&[u8], &[u8], u8, &str)] = &[
    (b"showpage", MAGENTA, 3, "job: NoPageDevice at 0\n"),
    (DISABLED, b"P6", 4, "plate 1: BadMagic at 1\n"),
    (
        DISABLED,
        b"P5\n5 1\n255\n\0\0\0\0\0",
        4,
        "page: SizeDiffers plate 1\n",
    ),
];

#[test]
fn a_page_that_is_refused_gives_no_set(rt: HostRuntime) {
    for (job, magenta, status, reported) in REFUSED {
        let is = traps_end(
            &rt,
            rt.alloc(),
            &[*job],
            magenta,
            *status,
            Look::Refused(reported),
        );
        judge(&rt, is, reported, u64::from(*status));
    }
}
