//! What the tests of the programs need: words, files and devices in memory, a small job with two plates, and its
//! results.
#![tactic(auto)]

ghost use Rattle.std.specs.Prelude.{◌<◌};

use lists::list::List;
use lists::memory::push;
use lists::names::{CallList, OutOfMemory};
use outside::distinct_names::have_distinct_names;
use outside::mem_file::{FileList, MemFile};
use outside::mem_rack::MemRack;
use outside::mem_tray::MemTray;
use std::alloc::{AllocError, Global};

/// A plate of one row: on the left full ink, and on the right none.
pub const CYAN: &[u8] = b"P5\n6 1\n255\n\0\0\0\xFF\xFF\xFF";

/// A plate of one row: on the left no ink, and on the right full ink.
pub const MAGENTA: &[u8] = b"P5\n6 1\n255\n\xFF\xFF\xFF\0\0\0";

/// The pieces of a job: it begins with its inks, and a page may set parameters and be shown.
pub const INKS: &[u8] =
    b"<< /HWResolution [72 72] /TrappingDetails << /Type 1001 /ColorantDetails << /Cyan << /NeutralDensity 0.61 >> /Magenta << /NeutralDensity 0.76 >> /Yellow << /NeutralDensity 0.16 >> /Black << /NeutralDensity 1.70 >> >> >> >> setpagedevice ";

/// A page whose traps are as wide as two samples.
pub const WIDE: &[u8] = b"<< /TrapWidth 2 >> settrapparams showpage";

/// A page without traps.
pub const DISABLED: &[u8] = b"<< /Enabled false >> settrapparams showpage";

/// The Cyan plate after the wide traps, which lie on both sides of the edge.
pub const TRAPPED_CYAN: &[u8] = b"P5\n6 1\n255\n\0\0\0\0\xFF\xFF";

/// The Magenta plate after the wide traps.
pub const TRAPPED_MAGENTA: &[u8] = b"P5\n6 1\n255\n\xFF\xFF\0\0\0\0";

/// The report of the wide traps.
pub const TRAPPED_REPORT: &[u8] =
    b"trap report\npage 6 1 255 plates 2\nzone 0 samples 6 changed 2\nedges 1\nplate Cyan changed 1\nplate Magenta changed 1\nend\n";

/// The Cyan plate after the wide traps where the sliding limit is 1: both samples of the trap lie on the darker side,
/// and Magenta is unchanged.
pub const UNSLID_CYAN: &[u8] = b"P5\n6 1\n255\n\0\0\0\0\0\xFF";

/// The report of the wide traps where the sliding limit is 1.
pub const UNSLID_REPORT: &[u8] =
    b"trap report\npage 6 1 255 plates 2\nzone 0 samples 6 changed 2\nedges 1\nplate Cyan changed 2\nplate Magenta changed 0\nend\n";

/// The report of the two plates if nothing is trapped.
pub const UNTRAPPED_REPORT: &[u8] =
    b"trap report\npage 6 1 255 plates 2\nzone 0 samples 6 changed 0\nedges 0\nplate Cyan changed 0\nplate Magenta changed 0\nend\n";

/// The words of a text, with single spaces between them; no words if it is empty.
pub fn words_of(alloc: Global, text: &str) -> Result<Vec<String>, AllocError> {
    let mut words = Vec::new(alloc);
    if text.is_empty() {
        return Ok(words);
    }
    for word in text.split(' ') {
        words.push(String::from_str(alloc, word)?)?;
    }
    Ok(words)
}

/// The numbers of the calls that fail: this one, or none.
pub fn calls(alloc: Global, call: Option<u64>) -> Result<CallList, AllocError> {
    let mut numbers = Vec::new(alloc);
    if let Some(number) = call {
        numbers.push(number)?;
    }
    Ok(List::from_vec(numbers))
}

/// The file of that name, of these pieces one after the other.
pub fn file_of(alloc: Global, name: &str, pieces: &[&[u8]]) -> Result<MemFile, AllocError> {
    let bytes = pieces.concat(alloc)?;
    Ok(MemFile {
        name: List::from_vec(name.as_bytes().to_vec(alloc)?),
        bytes: List::from_vec(bytes),
        fails_at: None,
    })
}

/// Adds the file of that name, of these pieces one after the other.
pub fn put_file(
    alloc: Global,
    files: &mut FileList,
    name: &str,
    pieces: &[&[u8]],
) -> Result<(), OutOfMemory> {
    match file_of(alloc, name, pieces) {
        Ok(file) => push(files, file),
        Err(_) => Err(OutOfMemory),
    }
}

/// A tray of these files, of which each read gives at most `grain` bytes and that call fails. `None` where two files have one
/// name, or out of memory.
pub fn tray_of(alloc: Global, files: FileList, grain: usize, call: Option<u64>) -> Option<MemTray>
    requires { 0 < grain }
{
    if !have_distinct_names(files.as_slice()) {
        return None;
    }
    let fails = calls(alloc, call).ok()?;
    Some(MemTray::new(alloc, files, grain, fails))
}

/// An empty rack, of which each write takes at most `grain` bytes and all together at most `workspace`, and that call fails.
pub fn rack_of(
    alloc: Global,
    grain: usize,
    workspace: u64,
    call: Option<u64>,
) -> Result<MemRack, AllocError>
    requires { 0 < grain }
{
    Ok(MemRack::new(alloc, grain, workspace, calls(alloc, call)?))
}
