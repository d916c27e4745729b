use super::{CYAN, DISABLED, Look, MAGENTA, Pieces, SHOW, UNTRAPPED_REPORT, files_end, judge};
use std::alloc::Global;
use std::process::Abort;
use std::thread::Threads;

// Three images of each plate.
const ALL_CYAN: Pieces<'static> = &[CYAN, CYAN, CYAN];

const ALL_MAGENTA: Pieces<'static> = &[MAGENTA, MAGENTA, MAGENTA];

// A job of three pages.
const THREE: Pieces<'static> = &[DISABLED, SHOW, SHOW];

// Jobs that are refused over these images, what is printed, and how many pages were written whole before.
const JOBS: &[(Pieces<'static>, &str, usize)] = &[
    (
        &[b"5 showpage", SHOW],
        "page 0: job: WrongOperands at 2\n",
        0,
    ),
    (
        &[DISABLED, SHOW, b" 5 showpage"],
        "page 2: job: WrongOperands at 55\n",
        2,
    ),
    (
        &[
            DISABLED,
            SHOW,
            b" << /TrapWidth 0 >> settrapparams showpage",
        ],
        "page 2: job: OutOfRange TrapWidth at 67\n",
        2,
    ),
    (
        &[DISABLED, b" 0 0 moveto showpage 5 0 rlineto showpage"],
        "page 2: job: NoCurrentPoint at 68\n",
        2,
    ),
    (
        &[
            DISABLED,
            b" 0 0 moveto showpage settrapzone showpage 5 showpage",
        ],
        "page 2: job: NoPageDevice at 76\n",
        2,
    ),
    (
        &[DISABLED, b" << /Enabled true >> settrapparams showpage"],
        "page 1: job: NoPageDevice at 78\n",
        1,
    ),
    (
        &[
            DISABLED,
            b" << /TrappingDetails << /Type 1001 /ColorantDetails << /Cyan << /NeutralDensity 1 >> >> >> /HWResolution [72 72] >> setpagedevice << /Enabled true >> settrapparams showpage",
        ],
        "page 1: job: NoDetails for plate 1\n",
        1,
    ),
    (&[DISABLED, SHOW, SHOW, b" )"], "job: BadToken at 62\n", 0),
    (&[b"newpath"], "job: NoShowpage at 7\n", 0),
    (
        &[DISABLED, SHOW, SHOW, b" newpath 5"],
        "job: AfterShowpage at 62\n",
        0,
    ),
    (
        &[DISABLED, SHOW, SHOW, b" [ showpage ]"],
        "job: NameInside at 64\n",
        0,
    ),
];

// Plates' files that are refused under the job of three pages, by the images of both.
const PLATES: &[(Pieces<'static>, Pieces<'static>, &str, usize)] = &[
    (
        &[b"P6\n6 1\n255\n......", CYAN, CYAN],
        ALL_MAGENTA,
        "page 0: plate 0: BadMagic at 1\n",
        0,
    ),
    (
        ALL_CYAN,
        &[b"P5\n6 1\n255\n..."],
        "page 0: plate 1: Truncated at 14\n",
        0,
    ),
    (
        &[CYAN, b"P6\n6 1\n255\n......", CYAN],
        ALL_MAGENTA,
        "page 1: plate 0: BadMagic at 18\n",
        1,
    ),
    (
        ALL_CYAN,
        &[MAGENTA, b"P5\n6 1\n255\n..."],
        "page 1: plate 1: Truncated at 31\n",
        1,
    ),
    (
        &[CYAN, CYAN, b"P6\n6 1\n255\n......"],
        ALL_MAGENTA,
        "page 2: plate 0: BadMagic at 35\n",
        2,
    ),
    (
        ALL_CYAN,
        &[MAGENTA, MAGENTA, b"P5\n6 1\n255\n..."],
        "page 2: plate 1: Truncated at 48\n",
        2,
    ),
    (
        &[CYAN, b"P5\n2 1\n255\n..", CYAN],
        ALL_MAGENTA,
        "page 1: page: SizeDiffers plate 1\n",
        1,
    ),
    (
        ALL_CYAN,
        &[MAGENTA, b"P5\n6 1\n254\n......", MAGENTA],
        "page 1: page: MaxvalDiffers plate 1\n",
        1,
    ),
    (&[], ALL_MAGENTA, "page 0: plate 0: Ends\n", 0),
    (ALL_CYAN, &[], "page 0: plate 1: Ends\n", 0),
    (&[CYAN, CYAN], ALL_MAGENTA, "page 2: plate 0: Ends\n", 2),
    (ALL_CYAN, &[MAGENTA], "page 1: plate 1: Ends\n", 1),
    (
        &[CYAN, CYAN, CYAN, CYAN],
        ALL_MAGENTA,
        "run: plate 0: Extra\n",
        3,
    ),
    (
        ALL_CYAN,
        &[MAGENTA, MAGENTA, MAGENTA, MAGENTA],
        "run: plate 1: Extra\n",
        3,
    ),
    (
        &[CYAN, CYAN, CYAN, b"P"],
        &[MAGENTA, MAGENTA, MAGENTA, MAGENTA],
        "plate 0: Truncated at 52\n",
        3,
    ),
    (
        ALL_CYAN,
        &[MAGENTA, MAGENTA, MAGENTA, b"\n"],
        "plate 1: BadMagic at 51\n",
        3,
    ),
];

// Runs with two faults, and the one that comes first: a page's job before its images, and a plate before the next one.
const TWO_FAULTS: &[(&[Pieces<'static>], u8, &str)] = &[
    (
        &[&[DISABLED, b" 5 showpage"], &[CYAN], ALL_MAGENTA],
        3,
        "page 1: job: WrongOperands at 46\n",
    ),
    (
        &[&[DISABLED, SHOW], &[CYAN], &[MAGENTA, b"P6"]],
        4,
        "page 1: plate 0: Ends\n",
    ),
];

// The files of three pages on which no zone is enabled.
const FILES: &[&[u8]] = &[
    CYAN,
    MAGENTA,
    UNTRAPPED_REPORT,
    CYAN,
    MAGENTA,
    UNTRAPPED_REPORT,
    CYAN,
    MAGENTA,
    UNTRAPPED_REPORT,
];

// The files of the first `pages` pages.
fn whole(pages: usize) -> &'static [&'static [u8]] {
    FILES.get(..pages.saturating_mul(3)).unwrap_or(FILES)
}

// The tables stand in functions of their own: a function that names one is proved with all its rows.
fn jobs() -> &'static [(Pieces<'static>, &'static str, usize)] {
    JOBS
}

fn plates() -> &'static [(Pieces<'static>, Pieces<'static>, &'static str, usize)] {
    PLATES
}

// Whether the run is refused so, and the pages before are whole.
fn is_refused(
    rt: &(impl Abort + Threads + Sync),
    alloc: Global,
    files: &[Pieces<'_>],
    status: u8,
    (reported, pages): (&str, usize),
) -> bool {
    files_end(rt, alloc, files, status, Look::Left(reported, whole(pages)))
}

#[test]
fn a_job_that_is_refused_leaves_the_pages_before_whole(rt: HostRuntime) {
    for (job, reported, pages) in jobs() {
        let files = [*job, ALL_CYAN, ALL_MAGENTA];
        let is = is_refused(&rt, rt.alloc(), &files, 3, (reported, *pages));
        judge(&rt, is, reported, *pages as u64);
    }
}

#[test]
fn a_plate_that_is_refused_leaves_the_pages_before_whole(rt: HostRuntime) {
    for (cyan, magenta, reported, pages) in plates() {
        let files = [THREE, *cyan, *magenta];
        let is = is_refused(&rt, rt.alloc(), &files, 4, (reported, *pages));
        judge(&rt, is, reported, *pages as u64);
    }
}

#[test]
fn the_first_of_two_faults_is_reported(rt: HostRuntime) {
    for (files, status, reported) in TWO_FAULTS {
        let is = is_refused(&rt, rt.alloc(), files, *status, (reported, 1));
        judge(&rt, is, reported, 1);
    }
}
