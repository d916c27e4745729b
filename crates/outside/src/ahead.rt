ghost use Rattle.std.specs.Prelude.{◌≡◌, ◌<◌, ◌≤◌, IfOk, length};

use crate::tray::DeviceError;
use std::io::{ErrorKind, Read};

// How often an interrupted read is tried again.
const TRIES: u32 = 1_000_000;

// The number of bytes that are read at once where fewer are asked for.
const PIECE: usize = 4096;

// A read-ahead buffer: the bytes from `start` to `end` were read of a file and not given yet.
#[derive(Drop)]
pub(crate) struct Ahead {
    bytes: [u8; PIECE],
    start: usize,
    end: usize,
    ghost within: { (start ≤ end) × (end ≤ 4096) },
}

impl Ahead {
    pub(crate) fn empty() -> Ahead {
        Ahead {
            bytes: [0; PIECE],
            start: 0,
            end: 0,
        }
    }

    // Drops the bytes that were not given.
    pub(crate) fn forget(&mut self)
        ensures start { self.new.start ≡ 0 }
        ensures end { self.new.end ≡ 0 }
    {
        self.start = 0;
        self.end = 0;
    }

    // Reads on in the file, a whole piece where less is asked for.
    pub(crate) fn read<F: Read>(
        &mut self,
        file: &mut F,
        buf: &mut [u8],
    ) -> Result<usize, DeviceError>
        ensures within { IfOk result (λ n. n ≤ length buf.new) }
    {
        if self.start == self.end {
            if buf.len() >= PIECE {
                return read_once(file, buf);
            }
            self.forget();
            self.end = read_once(file, &mut self.bytes)?;
        }
        Ok(self.give(buf))
    }

    // Gives bytes that were read, and returns how many.
    fn give(&mut self, buf: &mut [u8]) -> usize
        ensures { result ≤ length buf.new }
    {
        let count = buf.len().min(self.end - self.start);
        buf[..count].copy_from_slice(&self.bytes[self.start..self.start + count]);
        self.start += count;
        count
    }
}

// Reads, and tries again where the read is interrupted.
pub(crate) fn read_once<F: Read>(file: &mut F, buf: &mut [u8]) -> Result<usize, DeviceError>
    ensures within { IfOk result (λ n. n ≤ length buf.new) }
    ensures same { length buf.new ≡ length buf.old }
{
    for _ in 0..TRIES {
        match file.read(buf) {
            Ok(count) => return Ok(count),
            Err(error) if error.kind() == ErrorKind::Interrupted => {}
            Err(_) => return Err(DeviceError),
        }
    }
    Err(DeviceError)
}
