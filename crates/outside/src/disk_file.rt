ghost use Rattle.std.specs.Prelude.{◌<◌, ◌≤◌, IfOk, length};

use crate::tray::DeviceError;
use arrayvec::ArrayString;
use std::alloc::Allocator;
use std::fmt::InlineText;
use std::fs::{Metadata, OpenFile, OpenOptions, Permissions};
use std::io::{ErrorKind, Write};
use std::os::unix::fs::{MetadataExt, PermissionsExt, lchown};
use std::path::Path;
use std::rt::Files;
use std::{fs, io};

// How often an interrupted call is tried again, how many links are followed, and how many names are tried.
const TRIES: u32 = 1_000_000;

const MOST_LINKS: u32 = 40;

const MOST_NAMES: u32 = 10_000;

// The longest path that the system takes.
const LONGEST: usize = 4096;

// A longer name is not repeated in the name beside it: that one might be too long for the file system.
const LONG_NAME: usize = 200;

// The rights to read, to write and to run, without set-user-ID, set-group-ID and the sticky bit.
const PLAIN_RIGHTS: u32 = 0o777;

// A path in a buffer of fixed size, so that it allocates nothing.
type PathText = ArrayString<LONGEST>;

// Where a name leads, after its links are followed.
enum Place {
    Disk(PathText),
    // A file that this process has open: standard output, or another one, as /dev/fd/3.
    StandardOutput,
    Open,
}

// A file that is written. Until it is whole it stands beside its place, under a name of its own, and is removed if it
// is dropped before it is finished. What is no regular file is written in place, as standard output is.
pub(crate) struct DiskFile<'a, R: Files> {
    files: &'a R,
    file: R::File,
    is_output: bool,
    beside: Option<Beside>,
    is_broken: bool,
}

// The temporary file that is written, and the name that it takes when it is whole.
#[derive(Clone, Copy)]
struct Beside {
    written: PathText,
    name: PathText,
}

impl<R: Files> Drop for DiskFile<'_, R> {
    fn drop(self) {
        if let Some(beside) = &self.beside {
            let _gone = fs::remove_file(self.files, beside.written.as_str());
        }
        let DiskFile {
            files: _,
            file: _file,
            is_output: _,
            beside: _,
            is_broken: _,
        } = self;
    }
}

impl<'a, R: Files> DiskFile<'a, R> {
    // Begins an empty file for that name. A file that stands there is left as it is, and has to be writable; a link is
    // followed.
    pub(crate) fn create(files: &'a R, name: &str) -> Result<DiskFile<'a, R>, DeviceError>
    where
        R: Alloc,
    {
        match place_of(files, name)? {
            Place::Disk(place) => create_at(files, place),
            Place::StandardOutput => open_at_end(files, name, true),
            Place::Open => open_at_end(files, name, false),
        }
    }

    // Writes a prefix of the piece, and returns its length, which is 0 only for an empty piece.
    pub(crate) fn write(&mut self, piece: &[u8]) -> Result<usize, DeviceError>
    where
        R: Print,
        ensures within { IfOk result (λ n. n ≤ length piece.now) }
        ensures some { IfOk result (λ n. 0 < length piece.now → 0 < n) }
    {
        for _ in 0..TRIES {
            let written = if self.is_output {
                io::writer(self.files).write(piece)
            } else {
                self.file.write(piece)
            };
            match written {
                Ok(count) if count > 0 || piece.is_empty() => return Ok(count),
                Err(error) if error.kind() == ErrorKind::Interrupted => {}
                _ => break,
            }
        }
        self.is_broken = true;
        Err(DeviceError)
    }

    // Writes the file through to the disk, and renames it to its place. It fails if any call of this file failed.
    pub(crate) fn finish(&mut self) -> Result<(), DeviceError> {
        if self.is_broken {
            return Err(DeviceError);
        }
        self.is_broken = true;
        write_through(&self.file)?;
        if let Some(beside) = &self.beside {
            plain(fs::rename(self.files, beside.written.as_str(), beside.name.as_str()))?;
        }
        self.beside = None;
        Ok(())
    }
}

// What a call of the system gave, without the reason of a failure.
fn plain<T>(answer: io::Result<T>) -> Result<T, DeviceError> {
    match answer {
        Ok(value) => Ok(value),
        Err(_) => Err(DeviceError),
    }
}

// The same, with `None` where it failed for that reason.
fn unless<T>(answer: io::Result<T>, reason: ErrorKind) -> Result<Option<T>, DeviceError> {
    match answer {
        Ok(value) => Ok(Some(value)),
        Err(error) if error.kind() == reason => Ok(None),
        Err(_) => Err(DeviceError),
    }
}

// A file that is written in place.
fn in_place<R: Files>(files: &R, file: R::File, is_output: bool) -> DiskFile<'_, R> {
    DiskFile {
        files,
        file,
        is_output,
        beside: None,
        is_broken: false,
    }
}

// A file that is open already may have something in it, which stays: bytes are appended.
fn open_at_end<'a, R: Files>(
    files: &'a R,
    name: &str,
    is_output: bool,
) -> Result<DiskFile<'a, R>, DeviceError> {
    match OpenOptions::new().append(true).open(files, name) {
        Ok(file) => Ok(in_place(files, file, is_output)),
        Err(_) => Err(DeviceError),
    }
}

// Begins a file at its place, if what stands there may be written.
fn create_at<R: Files>(files: &R, place: PathText) -> Result<DiskFile<'_, R>, DeviceError> {
    let old = OpenOptions::new().write(true).open(files, place.as_str());
    match unless(old, ErrorKind::NotFound)? {
        Some(old) => create_over(files, place, old),
        None => begin_beside(files, place, None),
    }
}

// Begins a file at the place of one that is open: what is no regular file is written in place.
fn create_over<R: Files>(
    files: &R,
    place: PathText,
    old: R::File,
) -> Result<DiskFile<'_, R>, DeviceError> {
    match old.metadata() {
        Ok(metadata) if metadata.is_file() => begin_beside(files, place, Some(metadata)),
        Ok(_) => Ok(in_place(files, old, false)),
        Err(_) => Err(DeviceError),
    }
}

// Finds where the name leads. It allocates only for a link.
fn place_of<R: Files + Alloc>(files: &R, name: &str) -> Result<Place, DeviceError> {
    let mut place = path_text(name)?;
    for _ in 0..MOST_LINKS {
        if is_output(place.as_str()) {
            return Ok(Place::StandardOutput);
        }
        if is_open(place.as_str()) {
            return Ok(Place::Open);
        }
        if !is_link(files, place.as_str())? {
            return Ok(Place::Disk(place));
        }
        place = link_of(files, place.as_str())?;
    }
    Err(DeviceError)
}

fn is_output(place: &str) -> bool {
    place == "/proc/self/fd/1" || place == "/dev/fd/1"
}

fn is_open(place: &str) -> bool {
    place.starts_with("/proc/") || place.starts_with("/dev/fd/")
}

// Whether a link stands at that place, and not a file or nothing.
fn is_link<R: Files>(files: &R, place: &str) -> Result<bool, DeviceError> {
    match fs::symlink_metadata(files, place) {
        Ok(metadata) => Ok(metadata.is_symlink()),
        Err(error) if error.kind() == ErrorKind::NotFound => Ok(false),
        Err(_) => Err(DeviceError),
    }
}

// Where the link at that place leads.
fn link_of<R: Files + Alloc>(files: &R, place: &str) -> Result<PathText, DeviceError> {
    match fs::read_link(files, place) {
        Ok(link) => match Path::new(place).parent() {
            Some(folder) => within(files.alloc(), folder, link.as_str()),
            None => path_text(link.as_str()),
        },
        Err(_) => Err(DeviceError),
    }
}

// A path that is seen from that folder.
fn within<A: Allocator>(alloc: A, folder: Path, path: &str) -> Result<PathText, DeviceError> {
    match folder.join(alloc, path) {
        Ok(whole) => path_text(whole.as_str()),
        Err(_) => Err(DeviceError),
    }
}

fn path_text(text: &str) -> Result<PathText, DeviceError> {
    match PathText::from(text) {
        Ok(path) => Ok(path),
        Err(_) => Err(DeviceError),
    }
}

// Begins a file beside its place, under the first name that is free.
fn begin_beside<R: Files>(
    files: &R,
    name: PathText,
    old: Option<Metadata>,
) -> Result<DiskFile<'_, R>, DeviceError> {
    for number in 0..MOST_NAMES {
        let written = name_beside(name.as_str(), number)?;
        let file = OpenOptions::new()
            .write(true)
            .create_new(true)
            .open(files, written.as_str());
        if let Some(file) = unless(file, ErrorKind::AlreadyExists)? {
            return in_place_of(files, file, Beside { written, name }, old);
        }
    }
    Err(DeviceError)
}

// A temporary file that was just created, with the rights of the file that it replaces.
fn in_place_of<R: Files>(
    files: &R,
    file: R::File,
    beside: Beside,
    old: Option<Metadata>,
) -> Result<DiskFile<'_, R>, DeviceError> {
    let begun = DiskFile {
        files,
        file,
        is_output: false,
        beside: Some(beside),
        is_broken: false,
    };
    if let Some(old) = old {
        keep_rights(files, &begun.file, beside.written.as_str(), &old)?;
    }
    Ok(begun)
}

// Gives the temporary file the owner, the group and the rights of the file that it replaces. Where the owner may not be
// set, the group is, if that may be, and only plain rights.
fn keep_rights<R: Files>(
    files: &R,
    file: &R::File,
    written: &str,
    old: &Metadata,
) -> Result<(), DeviceError> {
    let new = plain(file.metadata())?;
    let mut mode = old.permissions().mode();
    let is_other = new.uid() != old.uid() || new.gid() != old.gid();
    if is_other && lchown(files, written, Some(old.uid()), Some(old.gid())).is_err() {
        let _group = lchown(files, written, None, Some(old.gid()));
        mode &= PLAIN_RIGHTS;
    }
    plain(file.set_permissions(Permissions::from_mode(mode)))
}

// The name of the temporary file of that number, in the same folder.
fn name_beside(name: &str, number: u32) -> Result<PathText, DeviceError> {
    let path = Path::new(name);
    let Some(last) = path.file_name() else {
        return Err(DeviceError);
    };
    let mut text = match path.parent() {
        Some(folder) => folder_text(folder.as_str())?,
        None => PathText::new(),
    };
    push_name(&mut text, last, number)?;
    Ok(text)
}

// A folder, with a slash at its end unless it is empty.
fn folder_text(folder: &str) -> Result<PathText, DeviceError> {
    let mut text = path_text(folder)?;
    if !folder.is_empty() && !folder.ends_with("/") {
        push(&mut text, "/")?;
    }
    Ok(text)
}

// Appends the name of the temporary file of that number, beside a file of that name.
fn push_name(text: &mut PathText, name: &str, number: u32) -> Result<(), DeviceError> {
    push(text, ".")?;
    push(text, if name.len() <= LONG_NAME { name } else { "" })?;
    push(text, ".trap-")?;
    push(text, InlineText::<10>::of(number).as_str())
}

fn push(text: &mut PathText, part: &str) -> Result<(), DeviceError> {
    match text.try_push_str(part) {
        Ok(()) => Ok(()),
        Err(_) => Err(DeviceError),
    }
}

// A file that cannot be synced, as a pipe, is no error.
fn write_through<F: OpenFile>(file: &F) -> Result<(), DeviceError> {
    for _ in 0..TRIES {
        match file.sync_data() {
            Ok(()) => return Ok(()),
            Err(error) => match error.kind() {
                ErrorKind::InvalidInput | ErrorKind::Unsupported => return Ok(()),
                ErrorKind::Interrupted => {}
                _ => return Err(DeviceError),
            },
        }
    }
    Err(DeviceError)
}
