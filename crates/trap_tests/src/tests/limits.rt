use super::{Look, TWO_PLATES, file_of, looks, put, rack_of, tray_of, words_of};
use band_claims::OpenGate;
use lists::list::List;
use outside::endless_tray::EndlessTray;
use outside::mem_file::FileList;
use outside::mem_rack::MemRack;
use outside::tray::Tray;
use std::alloc::Global;
use std::process::Abort;
use std::thread::Threads;
use trap_cli::top::trap_main;

// A job's beginning, the piece that it then repeats, how often, and the line printed.
const LONG_JOBS: &[(&str, &str, usize, &str)] = &[
    ("", " ", 1_048_576, "job: NoShowpage at 1048576\n"),
    ("", " ", 1_048_577, "job: JobTooLong at 1048576\n"),
    (
        "0 0 moveto",
        " 1 1 lineto",
        4096,
        "job: TooManyVertices at 45060\n",
    ),
    ("", "settrapzone ", 251, "job: TooManyZones at 3000\n"),
];

const TOO_LONG: &str = "job: JobTooLong at 1048576\n";

fn add(rt: &impl Abort, bytes: &mut Vec<u8>, more: &[u8]) {
    assert!(rt; bytes.extend_from_slice(more).is_ok(), "no memory");
}

fn repeat_piece(rt: &impl Abort, alloc: Global, head: &str, piece: &str, count: usize) -> Vec<u8> {
    let mut job = head.as_bytes().to_vec(alloc).expect(rt, "no memory");
    for _ in 0..count {
        add(rt, &mut job, piece.as_bytes());
    }
    job
}

// The job alone.
fn files_of(rt: &impl Abort, alloc: Global, job: &[u8]) -> FileList {
    let mut files = List::new(alloc);
    put(rt, &mut files, file_of(rt, alloc, "job", &[job], None));
    files
}

// Whether the job of the tray is refused with that line, and nothing is created.
fn is_refused_with<H: Threads + Sync, T: Tray>(
    rt: &H,
    alloc: Global,
    words: &[String],
    tray: &mut T,
    rack: &mut MemRack,
    line: &str,
) -> bool {
    let ended = trap_main(rt, alloc, words, tray, rack, &OpenGate);
    ended.status == 3 && looks(rack, Look::Refused(line))
}

fn is_judged<H: Abort + Threads + Sync, T: Tray>(
    rt: &H,
    alloc: Global,
    tray: &mut T,
    line: &str,
) -> bool {
    let words = words_of(alloc, TWO_PLATES).expect(rt, "no memory");
    let mut rack = rack_of(alloc, 50, 1000, None).expect(rt, "no memory");
    is_refused_with(rt, alloc, &words, tray, &mut rack, line)
}

fn is_refused(rt: &(impl Abort + Threads + Sync), alloc: Global, job: &[u8], line: &str) -> bool {
    let files = files_of(rt, alloc, job);
    let mut tray = tray_of(alloc, files, 4096, None).expect(rt, "no tray");
    is_judged(rt, alloc, &mut tray, line)
}

fn is_too_long(
    rt: &(impl Abort + Threads + Sync),
    alloc: Global,
    (head, piece, count, line): (&str, &str, usize, &str),
) -> bool {
    let job = repeat_piece(rt, alloc, head, piece, count);
    is_refused(rt, alloc, &job, line)
}

#[test]
fn jobs_beyond_a_limit_are_refused(rt: HostRuntime) {
    for job in LONG_JOBS {
        assert!(rt; is_too_long(&rt, rt.alloc(), *job), "{}", job.3);
    }
}

#[test]
fn a_job_without_end_is_too_long(rt: HostRuntime) {
    let mut endless = EndlessTray::new(List::new(rt.alloc()), b' ');
    assert!(rt; is_judged(&rt, rt.alloc(), &mut endless, TOO_LONG));
}
