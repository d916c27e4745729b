ghost use Rattle.std.specs.Prelude.{◌≡◌, ◌≢◌, [], ◌+◌, ◌<◌, ◌^◌, false, if◌then◌else◌, IfOk, IfSome, MatchOption, Some, None, length};
ghost use Rattle.std.specs.Bool.{MatchBool};
ghost use Rattle.std.specs.List.{list_any, position};
ghost use Rattle.job_list.specs.Apart.{IsCut, NextLine, is_new, next_in};
ghost use Rattle.job_list.specs.Lines.{is_lf};
ghost use Rattle.job_list.specs.Lists.{ReadsList};

use crate::line::{LineList, ListLine};
use crate::outputs::writes_only_new;
use crate::words::read_line;
use lists::list::List;
use lists::names::OutOfMemory;
use std::alloc::Global;

/// Why bytes could not be read as a list.
#[derive(Clone, Copy, Debug, Drop, PartialEq, Eq)]
pub enum ListError {
    /// The first line that breaks the form, counted from 0.
    BadLine(u32),
    OutOfMemory,
}

pub const MOST_BYTES: usize = 1_048_576;

const MOST_LINES: usize = 256;

/// Reads a list: 1 to 256 lines, of 1,048,576 bytes in all at most, each ended by LF. A line is UTF-8 and has the words
/// `JOB REPORT NAME:IN:OUT ...` with single spaces between them, none of them empty, for one to sixteen plates with
/// different names. All files that are written are different, in the whole list. The form is this project's own.
///
/// Otherwise the first line that breaks the form is refused: a text without its LF is one, and so are the 257th line,
/// the line with byte 1,048,576, counted from 0, and line 0 of an empty list. Out of memory can come at any place.
pub fn read_list(alloc: Global, bytes: &[u8]) -> Result<LineList, ListError>
    ensures { ReadsList bytes.now result }
{
    let mut lines = List::new(alloc);
    let mut rest = bytes;
    for number in 0..257u32 {
        if is_end(number, rest) {
            return Ok(lines);
        }
        match next_line(alloc, &lines, bytes.len() - rest.len(), rest) {
            Ok(Some((line, suffix))) => match lines.push(line) {
                Ok(()) => rest = suffix,
                Err(_) => return Err(ListError::OutOfMemory),
            },
            Ok(None) => return Err(ListError::BadLine(number)),
            Err(OutOfMemory) => return Err(ListError::OutOfMemory),
        }
    }
    unreachable!()
}

// Whether the list ends here: after at least one line, with nothing left.
fn is_end(number: u32, rest: &[u8]) -> bool
    ensures { MatchBool result ((0 < number) × (rest.now ≡ [])) (0 < number → rest.now ≢ []) }
{
    number > 0 && rest.is_empty()
}

// The next line and the rest after it; `None` where it is a bad line.
fn next_line<'a>(
    alloc: Global,
    lines: &LineList,
    seen: usize,
    rest: &'a [u8],
) -> Result<Option<(ListLine, &'a [u8])>, OutOfMemory>
    requires { seen + length rest.now < 2 ^ 64 }
    ensures { IfOk result (λ next. NextLine seen lines.now rest.now
        (next_in next)) }
{
    let Some((text, suffix)) = cut(rest) else {
        return Ok(None);
    };
    if lines.len() >= MOST_LINES {
        return Ok(None);
    }
    if seen + text.len() >= MOST_BYTES {
        return Ok(None);
    }
    match read_line(alloc, text)? {
        Some(line) => Ok(if_new(lines, line, suffix)),
        None => Ok(None),
    }
}

fn if_new<'a>(lines: &LineList, line: ListLine, suffix: &'a [u8]) -> Option<(ListLine, &'a [u8])>
    ensures { next_in result ≡ (if is_new line lines.now then Some (line, suffix.now) else None) }
{
    if writes_only_new(lines.as_slice(), &line) {
        Some((line, suffix))
    } else {
        None
    }
}

// The bytes before the first LF, and those after it; `None` where there is no LF.
fn cut(bytes: &[u8]) -> Option<(&[u8], &[u8])>
    ensures { MatchOption result (list_any is_lf bytes.now ≡ false)
        (λ parts. IsCut bytes.now parts.0.now parts.1.now) }
{
    match first_lf(bytes) {
        Some(place) => Some((&bytes[..place], &bytes[place + 1..])),
        None => None,
    }
}

fn first_lf(bytes: &[u8]) -> Option<usize>
    ensures value { result ≡ position is_lf bytes.now }
    ensures range { IfSome result (λ place. place < length bytes.now) }
{
    bytes.iter().position(|byte| *byte == b'\n')
}
