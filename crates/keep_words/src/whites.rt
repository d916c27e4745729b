// The words NAME=WIDTH of underprints.

ghost use Rattle.std.specs.Prelude.{◌≡◌, ◌≤◌, ◌<◌, ◌++◌, IfOk, IfSome, OnOk, codes, length, map, string_bytes};
ghost use Rattle.std.specs.List.{list_any};
ghost use Rattle.std.specs.Str.{bytes_eq};
ghost use Rattle.plain_words.specs.Parts.{parts_of};
ghost use Rattle.page_model.specs.Limits.{most_trap_width};
ghost use Rattle.keep_words.specs.Stored.{white_words};
ghost use Rattle.keep_words.specs.Words.{after_equals as after_spec, are_whites as whites_spec, is_white as white_spec, before_equals as before_spec, is_number, last_equals as equals_spec, number_or, options_of, values_after, white_of, white_width as width_spec, wider as wider_spec, widest_in, widest_of};

use crate::numbers::read_points;
use crate::options::{is_key, is_plate_name};
use lists::list::List;
use lists::memory::push;
use lists::names::{OutOfMemory, copy_name, same_name};
use std::alloc::Global;
use underprint::{White, WhiteList};

// Where the last equals sign stands.
fn last_equals(bytes: &[u8]) -> Option<usize>
    ensures value { result ≡ equals_spec bytes.now }
    ensures inside { IfSome result (λ k. k < length bytes.now) }
{
    match bytes {
        [first, rest @ ..] => match last_equals(rest) {
            Some(k) => Some(k + 1),
            None => if *first == b'=' { Some(0) } else { None },
        },
        [] => None,
    }
}

// What stands before the last equals sign.
fn before_equals(bytes: &[u8]) -> &[u8]
    ensures { result.now ≡ before_spec bytes.now }
{
    match last_equals(bytes) {
        Some(k) => &bytes[..k],
        None => bytes,
    }
}

// What stands after it.
fn after_equals(bytes: &[u8]) -> &[u8]
    ensures { result.now ≡ after_spec bytes.now }
{
    match last_equals(bytes) {
        Some(k) => &bytes[k + 1..],
        None => &[],
    }
}

// The width of an underprint's word.
fn white_width(word: &str) -> Option<u32>
    ensures value { result ≡ width_spec word.now }
    ensures narrow { IfSome result (λ n. n ≤ most_trap_width) }
{
    read_points(after_equals(word.as_bytes()), 1_000_000)
}

// Whether the word has a width.
fn has_width(word: &str) -> bool
    ensures { result ≡ is_number (width_spec word.now) }
{
    match white_width(word) {
        Some(_) => true,
        None => false,
    }
}

// The width, or 0 where there is none.
fn width_or_none(word: &str) -> u32
    ensures value { result ≡ number_or (width_spec word.now) }
    ensures narrow { result ≤ most_trap_width }
{
    match white_width(word) {
        Some(width) => width,
        None => 0,
    }
}

// Whether one of the words names this ink.
fn names_ink(words: &[String], name: &[u8]) -> bool
    ensures { result ≡ list_any (λ w. bytes_eq name.now (before_spec w))
        (values_after (codes "--underprint") (options_of (map string_bytes words.now))) }
{
    match words {
        [key, value, rest @ ..] if is_key(key.as_str()) => {
            if key.as_str() == "--underprint" {
                same_name(name, before_equals(value.as_str().as_bytes())) || names_ink(rest, name)
            } else {
                names_ink(rest, name)
            }
        }
        _ => false,
    }
}

// Whether an underprint is that of a plate, with a width, and none of the words after it names it again.
fn is_white(word: &str, rest: &[String], plates: &[String]) -> bool
    ensures { result ≡ white_spec word.now
        (values_after (codes "--underprint") (options_of (map string_bytes rest.now)))
        (map parts_of (map string_bytes plates.now)) }
{
    let name = before_equals(word.as_bytes());
    if !has_width(word) {
        return false;
    }
    if !is_plate_name(name, plates) {
        return false;
    }
    !names_ink(rest, name)
}

/// Whether each underprint is that of a plate, with a width, and none stands twice.
pub(crate) fn are_whites(words: &[String], plates: &[String]) -> bool
    ensures { result ≡ whites_spec
        (values_after (codes "--underprint") (options_of (map string_bytes words.now)))
        (map parts_of (map string_bytes plates.now)) }
{
    match words {
        [key, value, rest @ ..] if is_key(key.as_str()) => {
            if key.as_str() == "--underprint" {
                is_white(value.as_str(), rest, plates) && are_whites(rest, plates)
            } else {
                are_whites(rest, plates)
            }
        }
        _ => true,
    }
}

// The greater of an underprint's width and that of others.
#[tactic(auto, unfolding(crate::specs::Words::wider))]
fn wider(word: &str, others: u32) -> u32
    requires { others ≤ most_trap_width }
    ensures value { result ≡ wider_spec word.now others }
    ensures narrow { result ≤ most_trap_width }
{
    width_or_none(word).max(others)
}

/// The greatest width of the underprints.
pub fn widest_white(words: &[String]) -> u32
    ensures value { result ≡ widest_of (map white_of
        (values_after (codes "--underprint") (options_of (map string_bytes words.now)))) }
    ensures narrow { result ≤ most_trap_width }
{
    widest_among(words)
}

// The greatest width of the words of underprints.
fn widest_among(words: &[String]) -> u32
    ensures value { result ≡ widest_in
        (values_after (codes "--underprint") (options_of (map string_bytes words.now))) }
    ensures narrow { result ≤ most_trap_width }
{
    match words {
        [key, value, rest @ ..] if is_key(key.as_str()) => {
            if key.as_str() == "--underprint" {
                wider(value.as_str(), widest_among(rest))
            } else {
                widest_among(rest)
            }
        }
        _ => 0,
    }
}

// The underprint of a word.
fn white_in(alloc: Global, word: &str) -> Result<White, OutOfMemory>
    ensures { IfOk result (λ white. white_words white ≡ white_of word.now) }
{
    let name = copy_name(alloc, before_equals(word.as_bytes()))?;
    let width = width_or_none(word);
    Ok(White { name, width })
}

// Adds the underprints.
fn push_whites(alloc: Global, words: &[String], whites: &mut WhiteList) -> Result<(), OutOfMemory>
    ensures { OnOk result (map white_words whites.new ≡ map white_words whites.old ++ map white_of
        (values_after (codes "--underprint") (options_of (map string_bytes words.now)))) }
{
    match words {
        [key, value, rest @ ..] if is_key(key.as_str()) => {
            if key.as_str() == "--underprint" {
                push(whites, white_in(alloc, value.as_str())?)?;
            }
            push_whites(alloc, rest, whites)
        }
        _ => Ok(()),
    }
}

/// The underprints of these options.
pub fn whites_in(alloc: Global, words: &[String]) -> Result<WhiteList, OutOfMemory>
    ensures { IfOk result (λ whites. map white_words whites ≡ map white_of
        (values_after (codes "--underprint") (options_of (map string_bytes words.now)))) }
{
    let mut whites = List::new(alloc);
    push_whites(alloc, words, &mut whites)?;
    Ok(whites)
}
