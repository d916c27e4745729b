// Whether a file that is read is one that is written.

ghost use Rattle.std.specs.Prelude.{◌≡◌, ℕ, Bool, List, map};
ghost use Rattle.std.specs.List.{list_any};
ghost use Rattle.plain_words.specs.Parts.{parts_of};
ghost use Rattle.plain_words.specs.Plates.{inputs_of, outputs_of};
ghost use Rattle.plain_words.specs.Written.{is_written as written_spec, reads_written as reads_spec};

use crate::parts::plate_parts;
use std::convert::AsStr;

/// How a program makes the names of the files that it writes from the words for them.
pub trait Naming {
    ghost may_name: { List ℕ → List ℕ → Bool };

    /// Whether the file that is written for this word can have that name.
    fn may_be(word: &str, name: &str) -> bool
        ensures { result ≡ may_name word.now name.now };
}

/// Whether some file that is read, the job or a plate, can be one that is written, the report or a plate.
pub fn reads_written<N: Naming, S: AsStr>(job: &str, report: &str, words: &[S]) -> bool
    ensures { let plates = map parts_of (map S.text words.now) in
        result ≡ reads_spec N.may_name job.now report.now plates }
{
    is_written::<N, S>(job, report, words) || is_some_input_written::<N, S>(words, report, words)
}

fn is_some_input_written<N: Naming, S: AsStr>(words: &[S], report: &str, all: &[S]) -> bool
    ensures { let plates = map parts_of (map S.text all.now) in
        let inputs = inputs_of (map parts_of (map S.text words.now)) in
        result ≡ list_any (written_spec N.may_name report.now plates) inputs }
{
    match words {
        [first, rest @ ..] => {
            is_written::<N, S>(plate_parts(first.as_str()).input, report, all)
                || is_some_input_written::<N, S>(rest, report, all)
        }
        [] => false,
    }
}

// Whether the report or a plate can be written to that file.
fn is_written<N: Naming, S: AsStr>(name: &str, report: &str, words: &[S]) -> bool
    ensures { let plates = map parts_of (map S.text words.now) in
        result ≡ written_spec N.may_name report.now plates name.now }
{
    N::may_be(report, name) || is_some_plate::<N, S>(name, words)
}

fn is_some_plate<N: Naming, S: AsStr>(name: &str, words: &[S]) -> bool
    ensures { let outputs = outputs_of (map parts_of (map S.text words.now)) in
        result ≡ list_any (λ word. N.may_name word name.now) outputs }
{
    match words {
        [first, rest @ ..] => {
            N::may_be(plate_parts(first.as_str()).output, name) || is_some_plate::<N, S>(name, rest)
        }
        [] => false,
    }
}
