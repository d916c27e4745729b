ghost use Rattle.trappool_cli.specs.Reading.{Judges, ReadsLines};

use job_list::line::LineList;
use job_list::reading::{ListError, MOST_BYTES, read_list};
use outside::reading::{ReadError, read_file};
use outside::tray::Tray;
use std::alloc::Global;

// One byte more than a list may have.
const MOST_LIST: u32 = MOST_BYTES as u32 + 1;

// Why nothing was written.
#[derive(Clone, Copy, Debug, Drop, PartialEq, Eq)]
pub(crate) enum TrappoolError {
    // The first bad line of the list.
    BadLine(u32),
    // The list could not be read.
    NotRead,
    Memory,
}

// Reads the list of that name: all its bytes, but at most one more than a list may have.
pub(crate) fn read_lines<T: Tray>(
    alloc: Global,
    tray: &mut T,
    name: &str,
) -> Result<LineList, TrappoolError>
    ensures { ReadsLines name.now (T.state tray.old) (T.state tray.new) result }
{
    match read_file(alloc, tray, name, MOST_LIST) {
        Ok(bytes) => lines_or_fault(read_list(alloc, bytes.as_slice())),
        Err(ReadError::ReadFault) => Err(TrappoolError::NotRead),
        Err(ReadError::OutOfMemory) => Err(TrappoolError::Memory),
    }
}

fn lines_or_fault(read: Result<LineList, ListError>) -> Result<LineList, TrappoolError>
    ensures { Judges read result }
{
    match read {
        Ok(lines) => Ok(lines),
        Err(ListError::BadLine(line)) => Err(TrappoolError::BadLine(line)),
        Err(ListError::OutOfMemory) => Err(TrappoolError::Memory),
    }
}
