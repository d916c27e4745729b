ghost use Rattle.std.specs.Prelude.{◌≡◌, ◌+◌, IsTrue, OnErr, Ok, length, min, true, false};
ghost use Rattle.outside.specs.Tray.{Begins, Reads};

use crate::tray::{DeviceError, Tray};
use lists::names::Name;
use std::marker::Model;

/// A tray for tests: each file is the bytes of `head`, and then the byte `tail` without end. No call fails, and
/// contracts know nothing of the bytes.
#[derive(Drop)]
pub struct EndlessTray {
    head: Name,
    tail: u8,
    is_begun: bool,
    taken: usize,
}

impl Model for EndlessTray {
    ghost use Rattle.std.specs.Prelude.{◌≤◌, length};
    ghost use Rattle.outside.specs.Endless.{EndlessState};

    ghost Value = { EndlessState };

    ghost view = { λ e. record {
      head = e.head;
      tail = e.tail;
      begun = e.is_begun;
      taken = e.taken;
    } };

    ghost invariant = { λ e. e.taken ≤ length e.head };
}

impl EndlessTray {
    /// A tray whose files all begin with the head.
    pub fn new(head: Name, tail: u8) -> EndlessTray
        ensures { result ≡ record { head = head; tail = tail; begun = false; taken = 0 } }
    {
        EndlessTray {
            head,
            tail,
            is_begun: false,
            taken: 0,
        }
    }
}

impl Tray for EndlessTray {
    ghost use Rattle.outside.specs.Endless.{endless_tray_of, next_bytes};

    ghost state = { endless_tray_of };

    fn begin(&mut self, name: &str) -> Result<(), DeviceError>
        ensures tray { let before = endless_tray_of self.old in
            Begins name.now before (endless_tray_of self.new) result }
        ensures begun { self.new ≡ record self.old { begun = true; taken = 0 } }
        ensures never_fails { OnErr result ⊥ }
    {
        self.is_begun = true;
        self.taken = 0;
        Ok(())
    }

    fn read(&mut self, buf: &mut [u8]) -> Result<usize, DeviceError>
        requires { IsTrue self.old.begun }
        ensures tray { Reads (endless_tray_of self.old) (endless_tray_of self.new) result buf.new }
        ensures filled { result ≡ Ok (length buf.new) }
        ensures given { buf.new ≡ next_bytes self.old (length buf.new) }
        ensures taken { let taken = min (self.old.taken + length buf.new) (length self.old.head) in
            self.new ≡ record self.old { taken = taken } }
    {
        let count = (self.head.len() - self.taken).min(buf.len());
        let (prefix, rest) = buf.split_at_mut(count);
        prefix.copy_from_slice(&self.head.as_slice()[self.taken..self.taken + count]);
        rest.fill(self.tail);
        self.taken += count;
        Ok(buf.len())
    }
}
