use super::{DISABLED, file_of, put, tray_of};
use common_errors::common::CommonError;
use lists::list::List;
use lists::memory::push;
use lists::names::{Name, NameList, copy_name};
use outside::mem_file::FileList;
use outside::mem_tray::MemTray;
use page_files::gather::gather;
use page_model::page::PageFault;
use pgm_plates::plate::PlateFault;
use ps_tokens::faults::{FaultKind, JobFault};
use std::alloc::Global;
use std::process::Abort;

const CYAN: &[u8] = b"P5 1 1 255 .";

const BLACK: &[u8] = b"P5 1 1 255 \x03";

// The job, two plates, the file that cannot be read to its end (0 being the job), and the error.
const CASES: &[([&[u8]; 3], Option<usize>, Option<CommonError>)] = &[
    ([DISABLED, CYAN, BLACK], None, None),
    (
        [b"", CYAN, BLACK],
        None,
        Some(CommonError::Job(JobFault {
            kind: FaultKind::NoShowpage,
            at: 0,
        })),
    ),
    (
        [DISABLED, CYAN, BLACK],
        Some(0),
        Some(CommonError::Read(None)),
    ),
    (
        [DISABLED, b"P5 1 1 255 ", BLACK],
        None,
        Some(CommonError::Plate(0, PlateFault::Truncated(11))),
    ),
    (
        [DISABLED, b"P5 1 1 255 ", BLACK],
        Some(1),
        Some(CommonError::Read(Some(0))),
    ),
    (
        [DISABLED, CYAN, b"P6 1 1 9 \x03"],
        None,
        Some(CommonError::Plate(1, PlateFault::BadMagic(1))),
    ),
    (
        [DISABLED, b"P4", b"P6"],
        None,
        Some(CommonError::Plate(0, PlateFault::BadMagic(1))),
    ),
    (
        [DISABLED, CYAN, b"P5 1 1 9 "],
        Some(2),
        Some(CommonError::Read(Some(1))),
    ),
    (
        [DISABLED, CYAN, b"P5 1 2 255 \x03\x03"],
        None,
        Some(CommonError::Page(PageFault::SizeDiffers(1))),
    ),
];

// The names of the three files.
const NAMES: [&str; 3] = ["job", "c", "k"];

// Where a file of this text breaks off, if it is the broken one.
fn end_of(text: &[u8], is_broken: bool) -> Option<u64> {
    if is_broken {
        Some(text.len() as u64)
    } else {
        None
    }
}

fn files_of(rt: &impl Abort, alloc: Global, texts: &[&[u8]; 3], broken: Option<usize>) -> FileList {
    let mut files = List::new(alloc);
    for place in 0..3usize {
        let text = texts[place];
        let fails_at = end_of(text, broken == Some(place));
        put(
            rt,
            &mut files,
            file_of(rt, alloc, NAMES[place], &[text], fails_at),
        );
    }
    files
}

fn bytes_of(rt: &impl Abort, alloc: Global, text: &[u8]) -> Name {
    copy_name(alloc, text).expect(rt, "no memory")
}

fn names_of(rt: &impl Abort, alloc: Global) -> NameList {
    let mut names = List::new(alloc);
    put_name(rt, &mut names, bytes_of(rt, alloc, b"Cyan"));
    put_name(rt, &mut names, bytes_of(rt, alloc, b"Black"));
    names
}

fn put_name(rt: &impl Abort, names: &mut NameList, name: Name) {
    assert!(rt; push(names, name).is_ok(), "no memory");
}

fn error_by(alloc: Global, tray: &mut MemTray, names: &NameList) -> Option<CommonError> {
    if names.len() != 2 {
        return None;
    }
    match gather(alloc, tray, "job", names, &["c", "k"]) {
        Ok(_) => None,
        Err(error) => Some(error),
    }
}

fn error_on(
    rt: &impl Abort,
    alloc: Global,
    files: FileList,
    names: &NameList,
) -> Option<CommonError> {
    let mut tray = tray_of(alloc, files, 4096, None).expect(rt, "no tray");
    error_by(alloc, &mut tray, names)
}

fn error_of(
    rt: &impl Abort,
    alloc: Global,
    texts: &[&[u8]; 3],
    broken: Option<usize>,
) -> Option<CommonError> {
    let names = names_of(rt, alloc);
    error_on(rt, alloc, files_of(rt, alloc, texts, broken), &names)
}

#[test]
fn a_page_is_gathered_up_to_the_first_error(rt: HostRuntime) {
    for (texts, broken, wanted) in CASES {
        let found = error_of(&rt, rt.alloc(), texts, *broken);
        assert!(rt; found == *wanted, "{texts:?}, {broken:?} breaks off");
    }
}
