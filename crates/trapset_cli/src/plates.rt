// The words IN:OUT of plates.

ghost use Rattle.std.specs.Prelude.{◌≡◌, ◌&&◌, IsTrue, length, map, string_bytes};
ghost use Rattle.std.specs.List.{list_all};
ghost use Rattle.plain_words.specs.Distinct.{are_distinct};
ghost use Rattle.plain_words.specs.Inputs.{AreFew};
ghost use Rattle.plain_words.specs.Parts.{copy_of, is_copy};
ghost use Rattle.trapset_cli.specs.Words.{are_copies, outputs_of};

use plain_words::inputs::are_few;
use plain_words::parts::{copy_parts, is_copy_word};
use plain_words::places::{Place, have_distinct_parts};

/// Whether each word is IN:OUT, and all files that are written are different.
pub(crate) fn are_copied(words: &[String]) -> bool
    ensures value { let texts = map string_bytes words.now in
        result ≡ (are_copies texts && are_distinct (outputs_of (map copy_of texts))) }
    ensures count { IsTrue result → AreFew (length words.now) }
{
    are_few(words) && are_all_copies(words) && have_distinct_outputs(words)
}

fn are_all_copies(words: &[String]) -> bool
    ensures { result ≡ list_all (λ w. is_copy (copy_of w)) (map string_bytes words.now) }
{
    match words {
        [first, rest @ ..] => is_copy_word(copy_parts(first.as_str())) && are_all_copies(rest),
        [] => true,
    }
}

// Whether all files that are written are different.
fn have_distinct_outputs(words: &[String]) -> bool
    ensures { result ≡ are_distinct (outputs_of (map copy_of (map string_bytes words.now))) }
{
    have_distinct_parts(words, Place::AfterFirst)
}
