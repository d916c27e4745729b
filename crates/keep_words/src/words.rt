ghost use Rattle.std.specs.Prelude.{◌≡◌, ◌≤◌, List, IfOk, IfSome, codes, map, option_map, string_bytes};
ghost use Rattle.std.specs.Option.{ForSome};
ghost use Rattle.std.specs.Str.{bytes_eq};
ghost use Rattle.plain_words.specs.Parts.{parts_of};
ghost use Rattle.page_model.specs.Limits.{most_trap_width, scale};
ghost use Rattle.keep_words.specs.Stored.{AreNumbers, IsWithin, keep_in, used_in};
ghost use Rattle.keep_words.specs.Words.{OptionWords, black_with as black_spec, keep_of, keep_with as keep_spec, limit_in as limit_spec, options_of, reads_written as reads_spec, used_by as used_spec, values_after, width_in as width_spec};

use crate::numbers::read_points;
use crate::options::{are_named, are_options, ask_for_black, rest_of, spared_in, value_after};
use crate::whites::are_whites;
use lists::names::{NameList, OutOfMemory};
use plain_words::plates::{are_plates, stand_together};
use plain_words::written;
use plain_words::written::Naming;
use std::alloc::Global;

/// What the words of `trapkeep` ask for.
#[derive(Clone, Copy)]
pub enum UseArgs {
    /// Inks are drawn back under black: by which width, in ten-thousandths of a point, and from which share of full ink
    /// on a pixel is black, in ten-thousandths.
    Black { width: u32, limit: u32 },
    /// Underprints are drawn back under colour.
    Colour,
}

/// The words of `trapkeep`: what is drawn back, the files that are read and written, and the words of the plates.
#[derive(Clone, Copy)]
pub struct KeepArgs<'a> {
    pub options: &'a [String],
    pub used: UseArgs,
    pub job: &'a str,
    pub report: &'a str,
    pub plates: &'a [String],
}

// The width, in ten-thousandths of a point.
fn width_in(word: Option<&str>) -> Option<u32>
    ensures value { result ≡ width_spec (option_map (λ w. w.now) word.entry) }
    ensures narrow { IfSome result (λ n. n ≤ most_trap_width) }
{
    match word {
        Some(word) => read_points(word.as_bytes(), 1_000_000),
        None => None,
    }
}

// The limit, in ten-thousandths of full ink.
fn limit_in(word: Option<&str>) -> Option<u32>
    ensures value { result ≡ limit_spec (option_map (λ w. w.now) word.entry) }
    ensures share { IfSome result (λ n. n ≤ scale) }
{
    match word {
        Some(word) => read_points(word.as_bytes(), 10_000),
        None => Some(8500),
    }
}

// Rich black with the numbers that are known.
fn black_with(width: Option<u32>, limit: Option<u32>) -> Option<UseArgs>
    requires narrow { ForSome width (λ n. n ≤ most_trap_width) }
    requires share { ForSome limit (λ n. n ≤ scale) }
    ensures meaning { (options : List OptionWords) → option_map (λ used. used_in used options) result
        ≡ black_spec width limit (values_after (codes "--except") options) }
    ensures numbers { IfSome result AreNumbers }
{
    Some(UseArgs::Black {
        width: width?,
        limit: limit?,
    })
}

// What the options ask for.
fn used_by(words: &[String]) -> Option<UseArgs>
    ensures meaning { option_map (λ used. used_in used (options_of (map string_bytes words.now))) result
        ≡ used_spec (options_of (map string_bytes words.now)) }
    ensures numbers { IfSome result AreNumbers }
{
    if ask_for_black(words) {
        black_with(
            width_in(value_after(words, "--rich-black")),
            limit_in(value_after(words, "--black-limit")),
        )
    } else {
        Some(UseArgs::Colour)
    }
}

/// Reads the words after the program's name:
/// `--rich-black W [--black-limit L] [--except NAME] ... JOB REPORT NAME:IN:OUT ...` or
/// `--underprint NAME=W ... JOB REPORT NAME:IN:OUT ...`. `None` where they are no command. The form is this
/// project's own.
pub fn read_words(words: &[String]) -> Option<KeepArgs<'_>>
    ensures meaning { option_map keep_in result ≡ keep_of (map string_bytes words.now) }
    ensures limits { IfSome result IsWithin }
{
    if !are_options(words) {
        return None;
    }
    match rest_of(words) {
        [job, report, plates @ ..] => keep_with(
            words,
            used_by(words),
            job.as_str(),
            report.as_str(),
            plates,
        ),
        _ => None,
    }
}

fn keep_with<'a>(
    options: &'a [String],
    used: Option<UseArgs>,
    job: &'a str,
    report: &'a str,
    plates: &'a [String],
) -> Option<KeepArgs<'a>>
    requires numbers { ForSome used AreNumbers }
    ensures meaning { option_map keep_in result ≡ keep_spec
        (option_map (λ asked. used_in asked (options_of (map string_bytes options.now))) used)
        (options_of (map string_bytes options.now))
        job.now report.now (map string_bytes plates.now) }
    ensures limits { IfSome result IsWithin }
{
    if are_plates(plates)
        && stand_together(report, plates)
        && !reads_written(job, report, plates)
        && are_named(options, plates)
        && are_whites(options, plates)
    {
        Some(KeepArgs {
            options,
            used: used?,
            job,
            report,
            plates,
        })
    } else {
        None
    }
}

/// The inks that these options leave alone.
pub fn spared_names(alloc: Global, options: &[String]) -> Result<NameList, OutOfMemory>
    ensures { IfOk result (λ names. names
        ≡ values_after (codes "--except") (options_of (map string_bytes options.now))) }
{
    spared_in(alloc, options)
}

// Whether a file that is read is one that is written.
fn reads_written(job: &str, report: &str, words: &[String]) -> bool
    ensures { result ≡ reads_spec job.now report.now (map parts_of (map string_bytes words.now)) }
{
    written::reads_written::<KeepFiles, String>(job, report, words)
}

// The names of the files: those of the words.
struct KeepFiles;

impl Naming for KeepFiles {
    ghost may_name = { λ word name. bytes_eq name word };

    fn may_be(word: &str, name: &str) -> bool {
        name == word
    }
}
