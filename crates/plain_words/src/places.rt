// What stands at one place of each of some words, and whether it stands there twice.

ghost use Rattle.std.specs.Prelude.{◌≡◌, map};
ghost use Rattle.std.specs.List.{list_any};
ghost use Rattle.std.specs.Str.{bytes_eq};
ghost use Rattle.plain_words.specs.Distinct.{are_distinct};
ghost use Rattle.plain_words.specs.Places.{part_at as part_spec};

use crate::parts::{copy_parts, plate_parts};
use std::convert::AsStr;

/// Where a part stands in a word.
#[derive(Clone, Copy, Drop)]
pub enum Place {
    /// The whole word.
    Whole,
    /// Before the first colon.
    First,
    /// Between the first two colons.
    Second,
    /// After the first colon.
    AfterFirst,
    /// After the second colon.
    AfterSecond,
}

/// What stands there.
pub(crate) fn part_at(word: &str, place: Place) -> &str
    ensures { result.now ≡ part_spec place word.now }
{
    match place {
        Place::Whole => word,
        Place::First => copy_parts(word).input,
        Place::AfterFirst => copy_parts(word).output,
        Place::Second => plate_parts(word).input,
        Place::AfterSecond => plate_parts(word).output,
    }
}

/// Whether nothing stands twice at that place of the words.
pub fn have_distinct_parts<S: AsStr>(words: &[S], place: Place) -> bool
    ensures { result ≡ are_distinct (map (part_spec place) (map S.text words.now)) }
{
    match words {
        [first, rest @ ..] => {
            !has_part(rest, place, part_at(first.as_str(), place))
                && have_distinct_parts(rest, place)
        }
        [] => true,
    }
}

/// Whether this text stands at that place of one of the words.
pub(crate) fn has_part<S: AsStr>(words: &[S], place: Place, text: &str) -> bool
    ensures { result ≡ list_any (bytes_eq text.now) (map (part_spec place) (map S.text words.now)) }
{
    match words {
        [first, rest @ ..] => {
            text == part_at(first.as_str(), place) || has_part(rest, place, text)
        }
        [] => false,
    }
}
