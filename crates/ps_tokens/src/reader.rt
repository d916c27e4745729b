ghost use Rattle.std.specs.Prelude.{◌≡◌, ◌≤◌, ◌+◌, ◌++◌, ◌∷◌, [], length, reverse, drop, slice_index, Ok, IfOk, OnOk};
ghost use Rattle.ps_tokens.specs.Tokens.{Gives, tokens_of};
ghost use Rattle.ps_tokens.specs.Words.{spelling};
ghost use Rattle.ps_tokens.specs.Dictionaries.{AreObjects};
ghost use Rattle.ps_tokens.specs.Objects.{AreEnds, is_opening, is_closing, body_as, word_body, objects_in, objects_of};
ghost use Rattle.ps_tokens.specs.Limits.{longest_job};

use crate::faults::JobError;
use crate::judging::judge;
use crate::object::{Body, Object, ObjectList};
use crate::token::{Token, TokenKind, TokenList};
use crate::words::spelling;
use lists::list::List;
use lists::names::{OutOfMemory, copy_name};
use std::alloc::Global;

/// Builds the objects of a job from its tokens: each array and dictionary with all that stands in it (after PLRM3,
/// section 3.2, in this project's profile).
///
/// The fault is at the first token that no further tokens could mend: `Unmatched`, `OddDictionary`, `KeyNotName`,
/// `NameInside` and `TooDeep` at that token, in this order; `Unclosed` at the innermost bracket that is left open.
/// The tokens are those that `tokens` gives for the bytes.
pub fn objects(alloc: Global, bytes: &[u8], tokens: &TokenList) -> Result<ObjectList, JobError>
    requires size { length bytes.now ≤ longest_job }
    requires of_bytes { tokens_of bytes.now ≡ Ok tokens.now }
    ensures given { Gives result (objects_of bytes.now tokens.now) }
    ensures are { IfOk result (λ objects. AreObjects objects) }
{
    let tokens = tokens.as_slice();
    match judge(bytes, tokens) {
        Ok(()) => match objects_in(alloc, bytes, tokens) {
            Ok(objects) => Ok(List::from_vec(objects)),
            Err(OutOfMemory) => Err(JobError::OutOfMemory),
        },
        Err(fault) => Err(JobError::Fault(fault)),
    }
}

// The objects that tokens begin. They are found from the last to the first.
fn objects_in(alloc: Global, bytes: &[u8], tokens: &[Token]) -> Result<Vec<Object>, OutOfMemory>
    requires { length tokens.now ≤ longest_job }
    ensures { IfOk result (λ objects. objects.items ≡ objects_in bytes.now tokens.now) }
{
    let mut objects = Vec::new(alloc);
    let mut ends = Vec::new(alloc);
    let mut left = tokens.len();
    while left > 0 {
        let suffix = &tokens[left..];
        left -= 1;
        put_token(alloc, bytes, &tokens[left], suffix, &mut objects, &mut ends)?;
    }
    objects.as_mut_slice().reverse();
    Ok(objects)
}

// Puts the object that a token begins after those of the tokens after it. For each bracket that these leave to be
// closed, `ends` keeps how many objects there were at its closing token, the innermost bracket last.
fn put_token(
    alloc: Global,
    bytes: &[u8],
    token: &Token,
    suffix: &[Token],
    objects: &mut Vec<Object>,
    ends: &mut Vec<u32>,
) -> Result<(), OutOfMemory>
    requires size { length objects.old.items ≤ longest_job }
    requires so_far { objects.old.items ≡ reverse (objects_in bytes.now suffix.now) }
    requires ends_so_far { AreEnds (reverse ends.old.items) (length objects.old.items) suffix.now }
    ensures grows { length objects.new.items ≤ length objects.old.items + 1 }
    ensures put { OnOk result
        (objects.new.items ≡ reverse (objects_in bytes.now (token.now ∷ suffix.now))) }
    ensures ends_put { OnOk result
        (AreEnds (reverse ends.new.items) (length objects.new.items) (token.now ∷ suffix.now)) }
{
    let count = objects.len() as u32;
    if is_closing(token.kind) {
        end_bracket(ends, count)
    } else if is_opening(token.kind) {
        let end = begin_bracket(ends);
        put_object(alloc, bytes, token, count - end, objects)
    } else {
        put_object(alloc, bytes, token, 0, objects)
    }
}

// Whether a token opens a bracket.
fn is_opening(kind: TokenKind) -> bool
    ensures { result ≡ is_opening kind }
{
    match kind {
        TokenKind::OpenDict | TokenKind::OpenArray => true,
        _ => false,
    }
}

// Whether a token closes a bracket.
fn is_closing(kind: TokenKind) -> bool
    ensures { result ≡ is_closing kind }
{
    match kind {
        TokenKind::CloseDict | TokenKind::CloseArray => true,
        _ => false,
    }
}

// Keeps how many objects there are at a closing token.
fn end_bracket(ends: &mut Vec<u32>, count: u32) -> Result<(), OutOfMemory>
    ensures { OnOk result (reverse ends.new.items ≡ count ∷ reverse ends.old.items) }
{
    match ends.push(count) {
        Ok(()) => Ok(()),
        Err(_) => Err(OutOfMemory),
    }
}

// Takes how many objects there were at the matching closing token, 0 where there is none.
fn begin_bracket(ends: &mut Vec<u32>) -> u32
    ensures end { result ≡ slice_index (reverse ends.old.items) 0 }
    ensures taken { reverse ends.new.items ≡ drop 1 (reverse ends.old.items) }
{
    match ends.pop() {
        Some(end) => end,
        None => 0,
    }
}

// Puts the object that a token begins at the end.
fn put_object(
    alloc: Global,
    bytes: &[u8],
    token: &Token,
    inside: u32,
    objects: &mut Vec<Object>,
) -> Result<(), OutOfMemory>
    ensures grows { length objects.new.items ≤ length objects.old.items + 1 }
    ensures put { let body = body_as token.now.kind (spelling bytes.now token.now) in
        OnOk result (objects.new.items
        ≡ objects.old.items ++ record { at = token.now.at; inside = inside; body = body } ∷ []) }
{
    let body = body_of(alloc, token.kind, spelling(bytes, token))?;
    let object = Object {
        at: token.at,
        inside,
        body,
    };
    match objects.push(object) {
        Ok(()) => Ok(()),
        Err(_) => Err(OutOfMemory),
    }
}

// What a token of this kind and spelling begins.
fn body_of(alloc: Global, kind: TokenKind, spelled: &[u8]) -> Result<Body, OutOfMemory>
    ensures { IfOk result (λ body. body ≡ body_as kind spelled.now) }
{
    match kind {
        TokenKind::OpenDict => Ok(Body::Dict),
        TokenKind::OpenArray => Ok(Body::Array),
        TokenKind::CloseDict => Ok(Body::Null),
        TokenKind::CloseArray => Ok(Body::Null),
        TokenKind::Literal => {
            let name = copy_name(alloc, after_slash(spelled))?;
            Ok(Body::Literal(name))
        }
        TokenKind::Word => word_body(alloc, spelled),
        TokenKind::Number(number) => Ok(Body::Number(number)),
        TokenKind::Text => Ok(Body::Text),
    }
}

// What a word is.
#[tactic(auto, unfolding(crate::specs::Objects::word_body))]
fn word_body(alloc: Global, word: &[u8]) -> Result<Body, OutOfMemory>
    ensures { IfOk result (λ body. body ≡ word_body word.now) }
{
    if word == b"true".as_slice() {
        Ok(Body::Truth(true))
    } else if word == b"false".as_slice() {
        Ok(Body::Truth(false))
    } else if word == b"null".as_slice() {
        Ok(Body::Null)
    } else {
        let name = copy_name(alloc, word)?;
        Ok(Body::Operator(name))
    }
}

// A literal's name.
fn after_slash(spelled: &[u8]) -> &[u8]
    ensures { result.now ≡ drop 1 spelled.now }
{
    match spelled {
        [_, name @ ..] => name,
        [] => spelled,
    }
}
