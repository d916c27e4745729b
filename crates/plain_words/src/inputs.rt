// The words NAME:IN of plates.

ghost use Rattle.std.specs.Prelude.{◌≡◌, ◌&&◌, IsTrue, length, map, string_bytes};
ghost use Rattle.std.specs.List.{list_all};
ghost use Rattle.plain_words.specs.Distinct.{are_distinct};
ghost use Rattle.plain_words.specs.Inputs.{AreFew, are_few as few_spec, are_inputs, names_of};
ghost use Rattle.plain_words.specs.Parts.{input_of, is_input};

use crate::parts::{input_parts, is_input_word};
use crate::places::{Place, have_distinct_parts};
use page_model::bounds::MOST_PLATES;

/// Whether there are one to sixteen words, each of them NAME:IN, with different names.
pub fn are_named(words: &[String]) -> bool
    ensures value { let texts = map string_bytes words.now in
        result ≡ (are_inputs texts && are_distinct (names_of (map input_of texts))) }
    ensures count { IsTrue result → AreFew (length words.now) }
{
    are_few(words) && are_all_inputs(words) && have_distinct_names(words)
}

/// Whether the number of words is one to sixteen, as many as a page has plates.
pub fn are_few(words: &[String]) -> bool
    ensures value { result ≡ few_spec (map string_bytes words.now) }
    ensures count { IsTrue result → AreFew (length words.now) }
{
    1 <= words.len() && words.len() <= MOST_PLATES
}

fn are_all_inputs(words: &[String]) -> bool
    ensures { result ≡ list_all (λ w. is_input (input_of w)) (map string_bytes words.now) }
{
    match words {
        [first, rest @ ..] => is_input_word(input_parts(first.as_str())) && are_all_inputs(rest),
        [] => true,
    }
}

// Whether all plates' names are different.
fn have_distinct_names(words: &[String]) -> bool
    ensures { result ≡ are_distinct (names_of (map input_of (map string_bytes words.now))) }
{
    have_distinct_parts(words, Place::First)
}
