use lists::list::List;
use lists::memory::push;
use lists::names::{CallList, Name, copy_name};
use outside::distinct_names::have_distinct_names;
use outside::mem_file::{FileList, MemFile};
use outside::mem_tray::MemTray;
use std::alloc::Global;
use std::process::Abort;

/// Stops the test where an answer is wrong, and names the row that it is of.
pub fn judge(rt: &impl Abort, is_right: bool, row: &str, number: u64) {
    assert!(rt; is_right, "{row}, {number}");
}

/// A list of the bytes of a text.
pub fn bytes_of(rt: &impl Abort, alloc: Global, text: &[u8]) -> Name {
    copy_name(alloc, text).expect(rt, "no memory")
}

/// Adds the byte at the end.
pub fn add(rt: &impl Abort, bytes: &mut Vec<u8>, byte: u8) {
    assert!(rt; bytes.push(byte).is_ok(), "no memory");
}

/// Adds the word at the end.
pub fn write(rt: &impl Abort, text: &mut String, word: &str) {
    assert!(rt; text.push_str(word).is_ok(), "no memory");
}

/// The numbers of the calls that fail: this one, or none.
pub fn only(rt: &impl Abort, alloc: Global, call: Option<u64>) -> CallList {
    match call {
        Some(number) => one_call(rt, alloc, number),
        None => List::new(alloc),
    }
}

fn one_call(rt: &impl Abort, alloc: Global, number: u64) -> CallList {
    List::from_vec(Vec::from_slice(alloc, &[number]).expect(rt, "no memory"))
}

/// How a tray in memory gives its bytes, and where it fails.
#[derive(Clone, Copy, Drop)]
pub struct Way {
    pub grain: usize,
    pub fails_at: Option<u64>,
    pub call: Option<u64>,
}

/// A tray of that grain which never fails.
pub fn by(grain: usize) -> Way {
    Way {
        grain,
        fails_at: None,
        call: None,
    }
}

/// A file of that name and these bytes.
pub fn file_of(
    rt: &impl Abort,
    alloc: Global,
    name: &[u8],
    bytes: &[u8],
    fails_at: Option<u64>,
) -> MemFile {
    MemFile {
        name: bytes_of(rt, alloc, name),
        bytes: bytes_of(rt, alloc, bytes),
        fails_at,
    }
}

/// Adds the file at the end.
pub fn put(rt: &impl Abort, files: &mut FileList, file: MemFile) {
    assert!(rt; push(files, file).is_ok(), "no memory");
}

fn files_of(rt: &impl Abort, alloc: Global, bytes: &[u8], fails_at: Option<u64>) -> FileList {
    let mut files = List::new(alloc);
    put(rt, &mut files, file_of(rt, alloc, b"empty", b"", None));
    put(rt, &mut files, file_of(rt, alloc, b"one", bytes, fails_at));
    files
}

fn tray_with(
    rt: &impl Abort,
    alloc: Global,
    files: FileList,
    grain: usize,
    fails: CallList,
) -> MemTray {
    assert!(rt; grain > 0 && have_distinct_names(files.as_slice()));
    MemTray::new(alloc, files, grain, fails)
}

/// A tray with these bytes under `one`, and with an empty file.
pub fn tray_of(rt: &impl Abort, alloc: Global, bytes: &[u8], way: Way) -> MemTray {
    let files = files_of(rt, alloc, bytes, way.fails_at);
    tray_with(rt, alloc, files, way.grain, only(rt, alloc, way.call))
}
