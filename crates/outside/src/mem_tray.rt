ghost use Rattle.std.specs.Prelude.{◌≡◌, ◌<◌, ◌≤◌, ◌+◌, ◌-◌, ◌^◌, ◌++◌, ◌==◌, min, IsTrue, is_some, is_none, Some, None, cond, length, take, drop};
ghost use Rattle.std.specs.Option.{ForSome};
ghost use Rattle.std.specs.Str.{bytes_eq};
ghost use Rattle.outside.specs.MemFiles.{HaveDistinctNames, place_of, is_at, end_before};

use crate::mem_calls::{fault, is_failing, note};
use crate::mem_file::{FileList, MemFile};
use crate::tray::{DeviceError, Tray};
use lists::list::List;
use lists::names::{CallList, Name};
use std::alloc::Global;
use std::marker::Model;

/// A tray in memory, for tests. Each read gives at most `grain` bytes, and chosen calls fail.
#[derive(Drop)]
pub struct MemTray {
    alloc: Global,
    files: FileList,
    grain: usize,
    fails: CallList,
    calls: u64,
    faults: u64,
    place: Option<usize>,
    taken: usize,
    asked: List<Name>,
    is_asked_reported: bool,
}

impl Model for MemTray {
    ghost use Rattle.outside.specs.MemTrays.{MemTrayState};
    ghost use Rattle.std.specs.Prelude.{Some, None, cond};

    ghost Value = { MemTrayState };

    ghost view = { λ m. record {
      files = m.files;
      grain = m.grain;
      fails = m.fails;
      calls = m.calls;
      place = m.place;
      taken = m.taken;
      asked = cond m.is_asked_reported (Some m.asked) None;
      faults = m.faults;
    } };

    ghost use Rattle.outside.specs.MemTrays.{IsTrayInside};

    ghost invariant = { λ m. IsTrayInside m.files m.grain m.place m.taken };
}

impl MemTray {
    ghost use Rattle.outside.specs.MemTrays.{fresh_tray};

    /// A tray of these files, whose names are distinct. A call fails exactly where its number, from 0 over `begin` and
    /// `read`, is in `fails`, where there is no file of the name, or where a read would begin at the file's `fails_at`.
    pub fn new(alloc: Global, files: FileList, grain: usize, fails: CallList) -> MemTray
        requires grain { 0 < grain }
        requires distinct { HaveDistinctNames files }
        ensures { result ≡ fresh_tray files grain fails }
    {
        MemTray {
            alloc,
            files,
            grain,
            fails,
            calls: 0,
            faults: 0,
            place: None,
            taken: 0,
            asked: List::new(alloc),
            is_asked_reported: true,
        }
    }
}

fn place_in(files: &[MemFile], name: &str) -> Option<usize>
    ensures { result ≡ place_of files.now name.now }
{
    files.iter().position(|file| is_named(file, name))
}

fn is_named(file: &MemFile, name: &str) -> bool
    ensures { result ≡ bytes_eq file.now.name name.now }
{
    file.name.as_slice() == name.as_bytes()
}

// Copies bytes from that place on into the buffer, at most `most`, and returns how many.
fn give(bytes: &[u8], at: usize, most: usize, buf: &mut [u8]) -> usize
    ensures count { result ≡ min (min most (length buf.old)) (length bytes.now - at) }
    ensures given { take result buf.new ≡ take result (drop at bytes.now) }
{
    let count = most.min(buf.len()).min(bytes.len().saturating_sub(at));
    if count > 0 {
        buf[..count].copy_from_slice(&bytes[at..at + count]);
    }
    count
}

fn is_error(fails_at: Option<u64>, taken: usize) -> bool
    ensures { result ≡ is_at fails_at taken }
{
    match fails_at {
        Some(error) => error == taken as u64,
        None => false,
    }
}

// The offset up to which a read may go, in a file of which `taken` bytes were read.
fn end_of_read(fails_at: Option<u64>, len: usize, taken: usize) -> usize
    ensures { result ≡ end_before fails_at len taken }
{
    match fails_at {
        Some(error) => {
            if (taken as u64) < error && error < len as u64 {
                error as usize
            } else {
                len
            }
        }
        None => len,
    }
}

// Reads on in a file of which `taken` bytes were read.
fn read_on(file: &MemFile, taken: usize, grain: usize, buf: &mut [u8]) -> usize
    requires { taken ≤ length file.now.bytes }
    ensures count { let end = end_before file.now.fails_at (length file.now.bytes) taken in
        result ≡ min (min grain (length buf.old)) (end - taken) }
    ensures within { taken + result ≤ length file.now.bytes }
    ensures fits { taken + result < 2 ^ 64 }
    ensures given { drop taken file.now.bytes
        ≡ take result buf.new ++ drop (taken + result) file.now.bytes }
{
    let end = end_of_read(file.fails_at, file.bytes.len(), taken);
    give(&file.bytes.as_slice()[..end], taken, grain, buf)
}

impl Tray for MemTray {
    ghost use Rattle.outside.specs.MemTrays.{tray_of, BeginsMem, ReadsMem};
    ghost use Rattle.outside.specs.Tray.{Begins, Reads};

    ghost state = { tray_of };

    fn begin(&mut self, name: &str) -> Result<(), DeviceError>
        ensures tray { Begins name.now (tray_of self.old) (tray_of self.new) result }
        ensures exact { BeginsMem name.now self.old self.new result }
    {
        self.is_asked_reported = note(
            self.alloc,
            &mut self.asked,
            self.is_asked_reported,
            name.as_bytes(),
        );
        self.place = None;
        self.taken = 0;
        if is_failing(&mut self.calls, self.fails.as_slice()) {
            return Err(fault(&mut self.faults));
        }
        self.place = place_in(self.files.as_slice(), name);
        match self.place {
            Some(_) => Ok(()),
            None => Err(fault(&mut self.faults)),
        }
    }

    fn read(&mut self, buf: &mut [u8]) -> Result<usize, DeviceError>
        requires { IsTrue (is_some self.old.place) }
        ensures tray { Reads (tray_of self.old) (tray_of self.new) result buf.new }
        ensures exact { ReadsMem self.old self.new result buf.new }
    {
        let is_failing = is_failing(&mut self.calls, self.fails.as_slice());
        let Some(place) = self.place else {
            unreachable!()
        };
        let file = &self.files.as_slice()[place];
        if is_failing || is_error(file.fails_at, self.taken) {
            return Err(fault(&mut self.faults));
        }
        let count = read_on(file, self.taken, self.grain, buf);
        self.taken += count;
        Ok(count)
    }
}
