use super::{Case, DISABLED, Look, SHOW, USUAL, ends, judge};
use std::alloc::Global;
use std::process::Abort;
use std::thread::Threads;

const ONE_PLATE: &str = "2 64 job report Cyan:in0:out0";

const REPORT: &[u8] =
    b"trap report\npage 1 1 255 plates 1\nzone 0 samples 1 changed 0\nedges 0\nplate Cyan changed 0\nend\n";

// Files of some pages, of which each has one sample, which is the page's number; and one that is not there.
const PAGES: &[(&str, Option<&[u8]>)] = &[
    ("out0.0", Some(b"P5\n1 1\n255\n\x00")),
    ("out0.1", Some(b"P5\n1 1\n255\n\x01")),
    ("out0.9", Some(b"P5\n1 1\n255\n\x09")),
    ("out0.10", Some(b"P5\n1 1\n255\n\x0A")),
    ("out0.99", Some(b"P5\n1 1\n255\n\x63")),
    ("out0.100", Some(b"P5\n1 1\n255\n\x64")),
    ("out0.199", Some(b"P5\n1 1\n255\n\xC7")),
    ("out0.255", Some(b"P5\n1 1\n255\n\xFF")),
    ("report.255", Some(REPORT)),
    ("out0.256", None),
];

const NO_PAGES: &[(&str, Option<&[u8]>)] = &[("out0.0", None), ("report.0", None)];

// A job's piece, how often it stands after the first page, the status, what is printed, and files.
type Job = (
    &'static [u8],
    usize,
    u8,
    &'static str,
    &'static [(&'static str, Option<&'static [u8]>)],
);

// How a job ends that repeats one of these pieces after its first page, and which files stand there then. The last ones
// are as long as a job may be, and a byte longer.
const JOBS: &[Job] = &[
    (SHOW, 255, 0, "", PAGES),
    (SHOW, 256, 3, "run: TooManyPages at 2339\n", NO_PAGES),
    (
        b"\n",
        1_048_533,
        4,
        "run: plate 0: Extra\n",
        &[("out0.0", Some(b"P5\n1 1\n255\n\x00")), ("out0.1", None)],
    ),
    (
        b"\n",
        1_048_534,
        3,
        "job: JobTooLong at 1048576\n",
        NO_PAGES,
    ),
];

fn add_image(rt: &impl Abort, bytes: &mut Vec<u8>, page: u8) {
    let image = [
        b'P', b'5', b'\n', b'1', b' ', b'1', b'\n', b'2', b'5', b'5', b'\n', page,
    ];
    assert!(rt; bytes.extend_from_slice(&image).is_ok(), "no memory");
}

// Images for 256 pages.
fn images(rt: &impl Abort, alloc: Global) -> Vec<u8> {
    let mut bytes = Vec::new(alloc);
    for page in 0..=255u8 {
        add_image(rt, &mut bytes, page);
    }
    bytes
}

// Whether a run of one plate over these files ends so.
fn plate_ends(
    rt: &(impl Abort + Threads + Sync),
    alloc: Global,
    files: &[&[&[u8]]],
    status: u8,
    look: Look<'_>,
) -> bool {
    let case = Case {
        words: ONE_PLATE,
        files,
        ..USUAL
    };
    ends(rt, alloc, case, status, look)
}

fn job_ends(
    rt: &(impl Abort + Threads + Sync),
    alloc: Global,
    (piece, count, status, reported, files): Job,
) -> bool {
    let more = piece.repeat(alloc, count).expect(rt, "no memory");
    let images = images(rt, alloc);
    let found: [&[&[u8]]; 2] = [&[DISABLED, &more], &[&images]];
    plate_ends(rt, alloc, &found, status, Look::Some(reported, files))
}

#[test]
fn jobs_may_have_256_pages_and_so_many_bytes(rt: HostRuntime) {
    for job in JOBS {
        judge(&rt, job_ends(&rt, rt.alloc(), *job), job.3, job.1 as u64);
    }
}
