ghost use Rattle.std.specs.Prelude.{◌≡◌, ◌<◌, IsTrue, min, option_copied};
ghost use Rattle.outside.specs.Rack.{RackState, Creates, Writes, Finishes, Tells};
ghost use Rattle.outside.specs.MemRacks.{rack_of};

use crate::mem_calls::{fault, is_failing, note};
use crate::rack::Rack;
use crate::shelf::{RackFile, append, begin_file, file_named, grow};
use crate::tray::DeviceError;
use lists::list::List;
use lists::names::{CallList, Name};
use std::alloc::Global;
use std::marker::Model;

/// A rack in memory, for tests. Each write takes at most `grain` bytes, all writes together at most `workspace` bytes, and
/// chosen calls fail.
#[derive(Drop)]
pub struct MemRack {
    alloc: Global,
    done: Vec<RackFile>,
    current: Option<RackFile>,
    is_open: bool,
    text: Name,
    grain: usize,
    workspace: u64,
    fails: CallList,
    calls: u64,
    faults: u64,
    asked: List<Name>,
    is_asked_reported: bool,
    finished: List<Name>,
    is_finished_reported: bool,
}

impl Model for MemRack {
    ghost use Rattle.outside.specs.MemRacks.{MemRackState};
    ghost use Rattle.std.specs.Prelude.{Some, None, cond};

    ghost Value = { MemRackState };

    ghost view = { λ m. record {
      done = m.done.items;
      current = m.current;
      reported = m.text;
      is_open = m.is_open;
      grain = m.grain;
      workspace = m.workspace;
      fails = m.fails;
      calls = m.calls;
      asked = cond m.is_asked_reported (Some m.asked) None;
      finished = cond m.is_finished_reported (Some m.finished) None;
      faults = m.faults;
    } };

    ghost use Rattle.outside.specs.MemRacks.{IsRackInside};

    ghost invariant = { λ m. IsRackInside m.grain m.is_open m.current };
}

impl MemRack {
    ghost use Rattle.outside.specs.MemRacks.{fresh_rack, rack_of};

    /// A rack with no file, and nothing printed. A call fails where its number, from 0 over `create`, `write`, `finish`
    /// and `tell`, is in `fails`, where a piece that is not empty meets no room, or where memory runs out.
    pub fn new(alloc: Global, grain: usize, workspace: u64, fails: CallList) -> MemRack
        requires { 0 < grain }
        ensures { result ≡ fresh_rack grain workspace fails }
    {
        MemRack {
            alloc,
            done: Vec::new(alloc),
            current: None,
            is_open: false,
            text: List::new(alloc),
            grain,
            workspace,
            fails,
            calls: 0,
            faults: 0,
            asked: List::new(alloc),
            is_asked_reported: true,
            finished: List::new(alloc),
            is_finished_reported: true,
        }
    }

    /// The text that was printed.
    pub fn reported(&self) -> &[u8]
        ensures { result.now ≡ self.now.reported }
    {
        self.text.as_slice()
    }

    /// The bytes of the file of that name, finished or not, or `None` exactly where there is no such file.
    pub fn file(&self, name: &str) -> Option<&[u8]>
        ensures { option_copied result ≡ (rack_of self.now).file name.now }
    {
        match &self.current {
            Some(file) => {
                if file.name.as_slice() == name.as_bytes() {
                    Some(file.bytes.as_slice())
                } else {
                    file_named(&self.done, name)
                }
            }
            None => file_named(&self.done, name),
        }
    }
}

impl Rack for MemRack {
    ghost use Rattle.outside.specs.MemRacks.{CreatesMem, WritesMem, FinishesMem, TellsMem, rack_of};

    ghost state = { rack_of };

    fn create(&mut self, name: &str) -> Result<(), DeviceError>
        ensures rack { Creates name.now (rack_of self.old) (rack_of self.new) result }
        ensures exact { CreatesMem self.old self.new result }
    {
        self.is_asked_reported = note(
            self.alloc,
            &mut self.asked,
            self.is_asked_reported,
            name.as_bytes(),
        );
        self.is_open = false;
        if is_failing(&mut self.calls, self.fails.as_slice()) {
            return Err(fault(&mut self.faults));
        }
        if !begin_file(self.alloc, &mut self.done, &mut self.current, name) {
            return Err(fault(&mut self.faults));
        }
        self.is_open = true;
        Ok(())
    }

    fn write(&mut self, piece: &[u8]) -> Result<usize, DeviceError>
        requires { IsTrue self.old.is_open }
        ensures rack { Writes piece.now (rack_of self.old) (rack_of self.new) result }
        ensures exact { WritesMem piece.now self.old self.new result }
    {
        let is_failing = is_failing(&mut self.calls, self.fails.as_slice());
        if is_failing || (self.workspace == 0 && !piece.is_empty()) {
            return Err(fault(&mut self.faults));
        }
        let count = most_of(piece.len(), self.grain, self.workspace);
        if !grow(self.alloc, &mut self.current, &piece[..count]) {
            return Err(fault(&mut self.faults));
        }
        self.workspace -= count as u64;
        Ok(count)
    }

    fn finish(&mut self) -> Result<(), DeviceError>
        requires { IsTrue self.old.is_open }
        ensures rack { Finishes (rack_of self.old) (rack_of self.new) result }
        ensures exact { FinishesMem self.old self.new result }
    {
        if is_failing(&mut self.calls, self.fails.as_slice()) {
            return Err(fault(&mut self.faults));
        }
        self.is_open = false;
        if let Some(file) = &self.current {
            let name = file.name.as_slice();
            self.is_finished_reported = note(
                self.alloc,
                &mut self.finished,
                self.is_finished_reported,
                name,
            );
        }
        Ok(())
    }

    fn tell(&mut self, text: &[u8]) -> Result<(), DeviceError>
        ensures rack { Tells text.now (rack_of self.old) (rack_of self.new) result }
        ensures exact { TellsMem text.now self.old self.new result }
    {
        if is_failing(&mut self.calls, self.fails.as_slice()) {
            return Err(fault(&mut self.faults));
        }
        if !append(self.alloc, &mut self.text, text) {
            return Err(fault(&mut self.faults));
        }
        Ok(())
    }
}

fn most_of(len: usize, grain: usize, workspace: u64) -> usize
    ensures { result ≡ min (min len grain) workspace }
{
    let most = len.min(grain);
    if workspace < most as u64 {
        workspace as usize
    } else {
        most
    }
}
