use lists::list::List;
use lists::names::Name;

/// A file of a tray in memory. With `fails_at`, no read passes that offset, and a read that would begin there fails.
#[derive(Drop)]
pub struct MemFile {
    pub name: Name,
    pub bytes: Name,
    pub fails_at: Option<u64>,
}

/// The files of a tray in memory.
pub type FileList = List<MemFile>;
