ghost use Rattle.std.specs.Prelude.{◌≡◌, map};
ghost use Rattle.std.specs.List.{list_any};
ghost use Rattle.std.specs.Str.{bytes_eq};
ghost use Rattle.plain_words.specs.Distinct.{are_distinct as distinct_spec};

use crate::places::{Place, has_part, have_distinct_parts};
use std::convert::AsStr;

/// Whether all texts are different.
pub fn are_distinct<S: AsStr>(texts: &[S]) -> bool
    ensures { result ≡ distinct_spec (map S.text texts.now) }
{
    have_distinct_parts(texts, Place::Whole)
}

/// Whether the text is equal to one of these.
pub fn is_among<S: AsStr>(text: &str, texts: &[S]) -> bool
    ensures { result ≡ list_any (bytes_eq text.now) (map S.text texts.now) }
{
    has_part(texts, Place::Whole, text)
}
