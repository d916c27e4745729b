ghost use Rattle.std.specs.Prelude.{◌≡◌, true, map, option_map, string_bytes, IfOk, IfSome, OnErr};
ghost use Rattle.trap_cli.specs.Words.{begins_with_page, command_of, page_of_words, sample_of_words, Page as page, Sample as sample};
ghost use Rattle.trap_cli.specs.Stored.{command_in, IsWithin};

use crate::page_words::read_page;
use crate::sample_words::read_sample;
use lists::names::OutOfMemory;
use std::alloc::Global;

/// The command `page`: its workers, the rows of its bands, and the files that are read and written.
#[derive(Debug, Drop)]
pub struct PageArgs<'a> {
    pub workers: u32,
    pub band: u32,
    pub job: &'a str,
    pub report: &'a str,
    pub plates: Vec<&'a str>,
}

/// The command `sample`: the number of the sample page, its sides in samples, and its workers.
#[derive(Clone, Copy, Debug, PartialEq, Eq)]
pub struct SampleArgs {
    pub number: u32,
    pub width: u32,
    pub height: u32,
    pub workers: u32,
}

/// The command of a program's words.
#[derive(Debug, Drop)]
pub enum Command<'a> {
    Page(PageArgs<'a>),
    Sample(SampleArgs),
}

/// Reads the words after the program's name; `None` where they are no command. Memory is needed only for the words of
/// `page`.
pub fn read_words<'a>(
    alloc: Global,
    words: &'a [String],
) -> Result<Option<Command<'a>>, OutOfMemory>
    ensures meaning { IfOk result
        (λ r. option_map command_in r ≡ command_of (map string_bytes words.now)) }
    ensures limits { IfOk result (λ r. IfSome r IsWithin) }
    ensures memory { OnErr result (begins_with_page (map string_bytes words.now) ≡ true) }
{
    match words {
        [] => Ok(None),
        [first, rest @ ..] => {
            if first.as_str() == "page" {
                page_command(alloc, words)
            } else if first.as_str() == "sample" {
                Ok(sample_command(rest))
            } else {
                Ok(None)
            }
        }
    }
}

fn page_command<'a>(alloc: Global, words: &'a [String]) -> Result<Option<Command<'a>>, OutOfMemory>
    ensures meaning { IfOk result
        (λ r. option_map command_in r
        ≡ option_map page (page_of_words (map string_bytes words.now))) }
    ensures limits { IfOk result (λ r. IfSome r IsWithin) }
{
    match read_page(alloc, words) {
        Ok(Some(page)) => Ok(Some(Command::Page(page))),
        Ok(None) => Ok(None),
        Err(OutOfMemory) => Err(OutOfMemory),
    }
}

fn sample_command<'a>(words: &[String]) -> Option<Command<'a>>
    ensures meaning { option_map command_in result
        ≡ option_map sample (sample_of_words (map string_bytes words.now)) }
    ensures limits { IfSome result IsWithin }
{
    match read_sample(words) {
        Some(sample) => Some(Command::Sample(sample)),
        None => None,
    }
}
