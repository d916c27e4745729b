ghost use Rattle.std.specs.Prelude.{◌≡◌, ◌≤◌, ◌<◌, ◌+◌, length, drop, IfOk, IfErr, Ok};
ghost use Rattle.ps_tokens.specs.Tokens.{Gives, Fails, tokens_then, tokens_from, tokens_of};
ghost use Rattle.ps_tokens.specs.Limits.{longest_job};

use crate::faults::{JobError, JobFault};
use crate::pieces::{Piece, piece_at};
use crate::token::{Token, TokenList};
use lists::list::List;
use std::alloc::Global;

/// The greatest number of bytes of a job.
pub const LONGEST_JOB: usize = 1_048_576;

/// Splits a job's bytes into tokens, each the longest that stands at its place, with whitespace and comments between
/// them (after PLRM3, section 3.2, in this project's profile).
///
/// The fault is the first from the left: `BadToken` at the first byte where no token stands, or `NumberTooLarge`. A job
/// has at most `LONGEST_JOB` bytes.
pub fn tokens(alloc: Global, bytes: &[u8]) -> Result<TokenList, JobError>
    requires { length bytes.now ≤ longest_job }
    ensures { Gives result (tokens_of bytes.now) }
{
    let mut found = Vec::new(alloc);
    let mut rest = bytes;
    let mut at = 0u32;
    while !rest.is_empty() {
        let len = take_piece(&mut found, rest, at)?;
        rest = &rest[len..];
        at += len as u32;
    }
    Ok(List::from_vec(found))
}

// Adds the token that stands at the beginning of the rest, if it is one, and returns how many bytes were taken.
fn take_piece(found: &mut Vec<Token>, rest: &[u8], at: u32) -> Result<usize, JobError>
    requires some { 0 < length rest.now }
    requires size { at + length rest.now ≤ longest_job }
    ensures within { IfOk result (λ len. (1 ≤ len) × (len ≤ length rest.now)) }
    ensures taken { IfOk result (λ len. tokens_then (Ok found.old.items) (tokens_from at 0 rest.now)
        ≡ tokens_then (Ok found.new.items) (tokens_from (at + len) 0 (drop len rest.now))) }
    ensures refused { let meant = tokens_then (Ok found.old.items) (tokens_from at 0 rest.now) in
        IfErr result (λ error. Fails error meant) }
{
    match piece_at(rest) {
        Piece::Blank(len) => Ok(len),
        Piece::Spelled(kind, len) => {
            let token = Token {
                at,
                len: len as u32,
                kind,
            };
            match found.push(token) {
                Ok(()) => Ok(len),
                Err(_) => Err(JobError::OutOfMemory),
            }
        }
        Piece::Broken(kind) => Err(JobError::Fault(JobFault { kind, at })),
    }
}
