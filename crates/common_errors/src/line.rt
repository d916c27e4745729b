ghost use Rattle.std.specs.Prelude.{◌≡◌, ◌≤◌, ◌+◌, ◌++◌, [], length, decimal};
ghost use Rattle.common_errors.specs.Lines.{line as line_of};

use itoa::Buffer;
use std::marker::Model;

/// A line of at most 160 bytes, in a buffer of fixed size. Contracts see it as its bytes.
#[derive(Drop)]
pub struct Line {
    bytes: [u8; 160],
    len: usize,
}

impl Model for Line {
    ghost use Rattle.std.specs.Prelude.{List, ℕ, take, ◌≤◌};

    ghost Value = { List ℕ };

    ghost view = { λ l. take l.len l.bytes };

    ghost invariant = { λ l. l.len ≤ 160 };
}

impl Line {
    /// The line's bytes, its LF among them.
    pub fn as_slice(&self) -> &[u8]
        ensures { result.now ≡ self.now }
    {
        &self.bytes[..self.len]
    }

    /// The empty line.
    pub fn new() -> Line
        ensures { result ≡ [] }
    {
        Line {
            bytes: [0; 160],
            len: 0,
        }
    }

    /// The line of this text.
    pub fn of_text(text: &[u8]) -> Line
        requires { length text.now ≤ 159 }
        ensures value { result ≡ line_of text.now }
        ensures short { length result ≤ length text.now + 1 }
    {
        let mut line = Line::new();
        line.push(text);
        line.push(b"\n");
        line
    }

    /// The line of this text with a number in decimal after it.
    pub fn of_number(text: &[u8], number: u32) -> Line
        requires { length text.now ≤ 50 }
        ensures value { result ≡ line_of (text.now ++ decimal number) }
        ensures short { length result ≤ 113 }
    {
        let mut line = Line::new();
        line.push(text);
        line.push_number(number as u64);
        line.push(b"\n");
        line
    }

    /// Adds bytes at the end. The caller shows that they fit.
    pub fn push(&mut self, bytes: &[u8])
        requires { length self.old + length bytes.now ≤ 160 }
        ensures { self.new ≡ self.old ++ bytes.now }
    {
        self.bytes[self.len..self.len + bytes.len()].copy_from_slice(bytes);
        self.len += bytes.len();
    }

    /// Adds a number in decimal at the end, of at most twenty digits.
    pub fn push_number(&mut self, number: u64)
        requires { length self.old ≤ 100 }
        ensures added { self.new ≡ self.old ++ decimal number }
        ensures short { length self.new ≤ length self.old + 40 }
    {
        let mut buffer = Buffer::new();
        self.push(buffer.format(number).as_bytes());
    }
}
