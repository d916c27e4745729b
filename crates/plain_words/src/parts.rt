ghost use Rattle.std.specs.Prelude.{◌≡◌};
ghost use Rattle.std.specs.List.{list_any};
ghost use Rattle.plain_words.specs.Stored.{copy_in, input_in, names_in};
ghost use Rattle.plain_words.specs.Parts.{before_colon, after_colon, copy_of, input_of, is_colon, is_copy, is_input, is_last_part as last_part_spec, is_plate as plate_spec, parts_of as parts_spec};

use crate::names::is_name;

/// A word NAME:IN:OUT: the name of a plate's colorant, the file that is read and the one that is written.
#[derive(Clone, Copy, Debug, PartialEq, Eq)]
pub struct PlateWord<'a> {
    pub name: &'a str,
    pub input: &'a str,
    pub output: &'a str,
}

/// A word NAME:IN: the name of a plate's colorant, and the file that is read.
#[derive(Clone, Copy, Debug, PartialEq, Eq)]
pub struct InputWord<'a> {
    pub name: &'a str,
    pub input: &'a str,
}

/// A word IN:OUT: the file that is read and the one that is written.
#[derive(Clone, Copy, Debug, PartialEq, Eq)]
pub struct CopyWord<'a> {
    pub input: &'a str,
    pub output: &'a str,
}

/// Splits a word at its first two colons. What is missing is empty.
pub fn plate_parts(word: &str) -> PlateWord<'_>
    ensures { names_in result ≡ parts_spec word.now }
{
    let (name, rest) = cut(word);
    let (input, output) = cut(rest);
    PlateWord {
        name,
        input,
        output,
    }
}

/// Whether the parts are a colorant's name, a file to read and one to write, none of them empty, without a third colon.
pub fn is_plate(plate: PlateWord<'_>) -> bool
    ensures { result ≡ plate_spec (names_in plate.entry) }
{
    is_name(plate.name.as_bytes())
        && !plate.input.is_empty()
        && !plate.output.is_empty()
        && !has_colon(plate.output.as_bytes())
}

/// Splits a word at its first colon. What is missing is empty.
pub fn input_parts(word: &str) -> InputWord<'_>
    ensures { input_in result ≡ input_of word.now }
{
    let (name, input) = cut(word);
    InputWord { name, input }
}

/// Whether the parts are a colorant's name and a file to read, without a second colon.
pub fn is_input_word(plate: InputWord<'_>) -> bool
    ensures { result ≡ is_input (input_in plate.entry) }
{
    is_name(plate.name.as_bytes()) && is_last_part(plate.input)
}

/// Splits a word at its first colon. What is missing is empty.
pub fn copy_parts(word: &str) -> CopyWord<'_>
    ensures { copy_in result ≡ copy_of word.now }
{
    let (input, output) = cut(word);
    CopyWord { input, output }
}

/// Whether the parts are a file to read and one to write, without a second colon.
pub fn is_copy_word(plate: CopyWord<'_>) -> bool
    ensures { result ≡ is_copy (copy_in plate.entry) }
{
    !plate.input.is_empty() && is_last_part(plate.output)
}

fn is_last_part(text: &str) -> bool
    ensures { result ≡ last_part_spec text.now }
{
    !text.is_empty() && !has_colon(text.as_bytes())
}

// The text before the first colon, and the text after it, empty where there is no colon.
fn cut(word: &str) -> (&str, &str)
    ensures before { result.0.now ≡ before_colon word.now }
    ensures suffix { result.1.now ≡ after_colon word.now }
{
    match word.split_once(':') {
        Some((before, suffix)) => (before, suffix),
        None => (word, ""),
    }
}

fn has_colon(word: &[u8]) -> bool
    ensures { result ≡ list_any is_colon word.now }
{
    word.iter().any(|byte| *byte == b':')
}
