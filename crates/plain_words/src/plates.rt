// The words NAME:IN:OUT of plates, and whether they go together.

ghost use Rattle.std.specs.Prelude.{◌≡◌, ◌≤◌, IsTrue, length, map};
ghost use Rattle.std.specs.List.{list_all, list_any};
ghost use Rattle.std.specs.Str.{bytes_eq};
ghost use Rattle.plain_words.specs.Distinct.{are_distinct};
ghost use Rattle.plain_words.specs.Parts.{is_plate as plate_spec, parts_of};
ghost use Rattle.plain_words.specs.Plates.{are_plates as plates_spec, names_of, outputs_of, stand_together as together_spec};
ghost use Rattle.page_model.specs.Limits.{most_plates};

use crate::parts::{is_plate, plate_parts};
use crate::places::{Place, has_part, have_distinct_parts};
use page_model::bounds::MOST_PLATES;
use std::convert::AsStr;

/// Whether there are one to sixteen words, each of them NAME:IN:OUT.
pub fn are_plates<S: AsStr>(words: &[S]) -> bool
    ensures value { result ≡ plates_spec (map S.text words.now) }
    ensures count { IsTrue result → (1 ≤ length words.now) × (length words.now ≤ most_plates) }
{
    1 <= words.len() && words.len() <= MOST_PLATES && are_all_plates(words)
}

fn are_all_plates<S: AsStr>(words: &[S]) -> bool
    ensures { result ≡ list_all (λ w. plate_spec (parts_of w)) (map S.text words.now) }
{
    match words {
        [first, rest @ ..] => is_plate(plate_parts(first.as_str())) && are_all_plates(rest),
        [] => true,
    }
}

/// Whether all colorants' names are different, and all files that are written, the report among them.
pub fn stand_together<S: AsStr>(report: &str, words: &[S]) -> bool
    ensures { result ≡ together_spec report.now (map parts_of (map S.text words.now)) }
{
    have_distinct_names(words) && !has_output(words, report) && have_distinct_outputs(words)
}

/// Whether all colorants' names are different.
pub fn have_distinct_names<S: AsStr>(words: &[S]) -> bool
    ensures { result ≡ are_distinct (names_of (map parts_of (map S.text words.now))) }
{
    have_distinct_parts(words, Place::First)
}

fn have_distinct_outputs<S: AsStr>(words: &[S]) -> bool
    ensures { result ≡ are_distinct (outputs_of (map parts_of (map S.text words.now))) }
{
    have_distinct_parts(words, Place::AfterSecond)
}

// Whether some plate is written into that file.
fn has_output<S: AsStr>(words: &[S], file: &str) -> bool
    ensures { let outputs = outputs_of (map parts_of (map S.text words.now)) in
        result ≡ list_any (bytes_eq file.now) outputs }
{
    has_part(words, Place::AfterSecond, file)
}
