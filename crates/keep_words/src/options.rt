// The options that the words begin with.

ghost use Rattle.std.specs.Prelude.{◌≡◌, ◌≤◌, ◌++◌, IfOk, OnOk, codes, length, map, option_map, string_bytes};
ghost use Rattle.std.specs.Borrow.{Bor};
ghost use Rattle.std.specs.List.{list_all, list_any};
ghost use Rattle.std.specs.Str.{bytes_eq};
ghost use Rattle.plain_words.specs.Parts.{parts_of};
ghost use Rattle.plain_words.specs.Plates.{names_of};
ghost use Rattle.keep_words.specs.Words.{are_named as named_spec, are_options as options_spec, ask_for_black as black_spec, ask_for_colour as colour_spec, count_of as count_spec, is_key as key_spec, is_known as known_spec, options_of, rest_of as rest_spec, after_dashes as dashes_spec, value_after as value_spec, values_after};

use lists::list::List;
use lists::memory::push;
use lists::names::{NameList, OutOfMemory, copy_name, same_name};
use plain_words::parts::plate_parts;
use std::alloc::Global;

/// Two hyphens and more.
pub(crate) fn is_key(word: &str) -> bool
    ensures { result ≡ key_spec word.now }
{
    match word.as_bytes() {
        [first, second, _, ..] => *first == b'-' && *second == b'-',
        _ => false,
    }
}

// An option of the program.
fn is_known(key: &str) -> bool
    ensures { result ≡ known_spec key.now }
{
    key == "--rich-black" || key == "--black-limit" || key == "--except" || key == "--underprint"
}

// The words without the `--` that may end the options.
fn after_dashes(words: &[String]) -> &[String]
    ensures { map string_bytes result.now ≡ dashes_spec (map string_bytes words.now) }
{
    match words {
        [first, rest @ ..] if first.as_str() == "--" => rest,
        _ => words,
    }
}

/// The words after the options.
pub(crate) fn rest_of(words: &[String]) -> &[String]
    ensures { map string_bytes result.now ≡ rest_spec (map string_bytes words.now) }
{
    match words {
        [key, _value, rest @ ..] if is_key(key.as_str()) => rest_of(rest),
        _ => after_dashes(words),
    }
}

fn are_known(words: &[String]) -> bool
    ensures { result ≡ list_all (λ o. known_spec o.key) (options_of (map string_bytes words.now)) }
{
    match words {
        [key, _value, rest @ ..] if is_key(key.as_str()) => is_known(key.as_str())
            && are_known(rest),
        _ => true,
    }
}

// How often an option stands there.
fn count_of(words: &[String], wanted: &str) -> usize
    ensures value { result ≡ count_spec wanted.now (options_of (map string_bytes words.now)) }
    ensures few { result ≤ length words.now }
{
    match words {
        [key, _value, rest @ ..] if is_key(key.as_str()) => {
            usize::from(key.as_str() == wanted) + count_of(rest, wanted)
        }
        _ => 0,
    }
}

/// Whether the options ask for rich black: by one width and at most one limit.
pub(crate) fn ask_for_black(words: &[String]) -> bool
    ensures { result ≡ black_spec (options_of (map string_bytes words.now)) }
{
    count_of(words, "--rich-black") == 1
        && count_of(words, "--black-limit") <= 1
        && count_of(words, "--underprint") == 0
}

// Whether the options ask for underprints alone.
fn ask_for_colour(words: &[String]) -> bool
    ensures { result ≡ colour_spec (options_of (map string_bytes words.now)) }
{
    count_of(words, "--rich-black") == 0
        && count_of(words, "--black-limit") == 0
        && count_of(words, "--except") == 0
        && 1 <= count_of(words, "--underprint")
}

/// Whether the options are those of the program, for one of its uses.
pub(crate) fn are_options(words: &[String]) -> bool
    ensures { result ≡ options_spec (options_of (map string_bytes words.now)) }
{
    are_known(words) && (ask_for_black(words) || ask_for_colour(words))
}

/// The word after an option, where it first stands.
pub(crate) fn value_after<'a>(words: &'a [String], wanted: &str) -> Option<&'a str>
    ensures { option_map (λ v. v.now) result
        ≡ value_spec wanted.now (options_of (map string_bytes words.now)) }
{
    match words {
        [key, value, rest @ ..] if is_key(key.as_str()) => {
            if key.as_str() == wanted {
                Some(value.as_str())
            } else {
                value_after(rest, wanted)
            }
        }
        _ => None,
    }
}

/// Whether the name is that of a plate.
pub(crate) fn is_plate_name(name: &[u8], plates: &[String]) -> bool
    ensures { result ≡ list_any (bytes_eq name.now)
        (names_of (map parts_of (map string_bytes plates.now))) }
{
    match plates {
        [first, rest @ ..] => {
            same_name(name, plate_parts(first.as_str()).name.as_bytes())
                || is_plate_name(name, rest)
        }
        [] => false,
    }
}

/// Whether each ink that is left alone is that of a plate.
pub(crate) fn are_named(words: &[String], plates: &[String]) -> bool
    ensures { result ≡ named_spec
        (values_after (codes "--except") (options_of (map string_bytes words.now)))
        (map parts_of (map string_bytes plates.now)) }
{
    match words {
        [key, value, rest @ ..] if is_key(key.as_str()) => {
            if key.as_str() == "--except" {
                is_plate_name(value.as_str().as_bytes(), plates) && are_named(rest, plates)
            } else {
                are_named(rest, plates)
            }
        }
        _ => true,
    }
}

// Adds the inks that are left alone.
fn push_spared(alloc: Global, words: &[String], names: &mut NameList) -> Result<(), OutOfMemory>
    ensures { OnOk result (names.new ≡ names.old
        ++ values_after (codes "--except") (options_of (map string_bytes words.now))) }
{
    match words {
        [key, value, rest @ ..] if is_key(key.as_str()) => {
            if key.as_str() == "--except" {
                push(names, copy_name(alloc, value.as_str().as_bytes())?)?;
            }
            push_spared(alloc, rest, names)
        }
        _ => Ok(()),
    }
}

/// The inks that are left alone.
pub(crate) fn spared_in(alloc: Global, words: &[String]) -> Result<NameList, OutOfMemory>
    ensures { IfOk result (λ names. names
        ≡ values_after (codes "--except") (options_of (map string_bytes words.now))) }
{
    let mut names = List::new(alloc);
    push_spared(alloc, words, &mut names)?;
    Ok(names)
}
