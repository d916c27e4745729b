ghost use Rattle.std.specs.Prelude.{◌≡◌, ◌≢◌, ◌≤◌, false, IfOk, IfSome, OnErr, OnOk, is_some, map, option_map, string_bytes, vec_len};
ghost use Rattle.std.specs.Option.{ForSome};
ghost use Rattle.clap.specs.Words.{app_of, found_of, rows_of, with_rule};
ghost use Rattle.trap_cli.specs.PageApp.{is_taken, option_rule, page_app, rows_in, word_rule, words_rule};
ghost use Rattle.trap_cli.specs.Words.{page_of as page_spec, page_of_rows, page_of_words, page_with as page_made};
ghost use Rattle.trap_cli.specs.Stored.{IsPageWithin, page_in, plates_in};
ghost use Rattle.page_model.specs.Limits.{most_band_height, most_plates, most_workers};

use crate::command::PageArgs;
use crate::options::option_number;
use crate::plates::read_plates;
use clap::error::ErrorKind;
use clap::{Arg, ArgMatches, Command};
use lists::names::OutOfMemory;
use page_model::bounds::{MOST_BAND_HEIGHT, MOST_WORKERS};
use plain_words::parts::PlateWord;
use std::alloc::{AllocError, Global};

// The command `page` of the words, the first of which is `page`.
pub(crate) fn read_page<'a>(
    alloc: Global,
    words: &'a [String],
) -> Result<Option<PageArgs<'a>>, OutOfMemory>
    ensures meaning { IfOk result
        (λ r. option_map page_in r ≡ page_of_words (map string_bytes words.now)) }
    ensures limits { IfOk result (λ r. IfSome r IsPageWithin) }
{
    match matches_in(alloc, words) {
        Ok(Some(matches)) => page_of_matches(alloc, &matches),
        Ok(None) => Ok(None),
        Err(OutOfMemory) => Err(OutOfMemory),
    }
}

// What `clap` makes of the words; `None` where it refuses them or they ask for help.
fn matches_in<'a>(alloc: Global, words: &'a [String]) -> Result<Option<ArgMatches<'a>>, OutOfMemory>
    ensures taken { IfOk result (λ r. is_some r ≡ is_taken (map string_bytes words.now)) }
    ensures rows { IfOk result
        (λ r. IfSome r (λ m. rows_of (found_of m) ≡ rows_in (map string_bytes words.now))) }
{
    match page_command(alloc) {
        Ok(command) => matches_by(command, words),
        Err(_) => Err(OutOfMemory),
    }
}

fn matches_by<'a>(
    command: Command<'a>,
    words: &'a [String],
) -> Result<Option<ArgMatches<'a>>, OutOfMemory>
    requires { app_of command ≡ page_app }
    ensures taken { IfOk result (λ r. is_some r ≡ is_taken (map string_bytes words.now)) }
    ensures rows { IfOk result
        (λ r. IfSome r (λ m. rows_of (found_of m) ≡ rows_in (map string_bytes words.now))) }
{
    match command.try_get_matches_from(words) {
        Ok(matches) => Ok(Some(matches)),
        Err(error) => without_matches(error.kind()),
    }
}

// Out of memory is an error of its own; every other error refuses the words.
fn without_matches<'a>(kind: ErrorKind) -> Result<Option<ArgMatches<'a>>, OutOfMemory>
    ensures none { IfOk result (λ r. is_some r ≡ false) }
    ensures reason { OnOk result (kind ≢ ErrorKind.OutOfMemory) }
    ensures memory { OnErr result (kind ≡ ErrorKind.OutOfMemory) }
{
    match kind {
        ErrorKind::OutOfMemory => Err(OutOfMemory),
        _ => Ok(None),
    }
}

// page [--workers N] [--band B] JOB REPORT PLATE ..
fn page_command<'a>(alloc: Global) -> Result<Command<'a>, AllocError>
    ensures { IfOk result (λ c. app_of c ≡ page_app) }
{
    let command = with_option(alloc, Command::new(alloc, "page"), "workers")?;
    let command = with_option(alloc, command, "band")?;
    let command = with_word(alloc, command, "job")?;
    let command = with_word(alloc, command, "report")?;
    with_words(alloc, command, "plate")
}

// The command with one more option, which has one text.
fn with_option<'a>(
    alloc: Global,
    command: Command<'a>,
    name: &'a str,
) -> Result<Command<'a>, AllocError>
    ensures { IfOk result (λ c. app_of c ≡ with_rule (app_of command.entry) (option_rule name.entry.now)) }
{
    command.arg(Arg::new(alloc, name).long(name))
}

// The command with one more word, which is required.
fn with_word<'a>(
    alloc: Global,
    command: Command<'a>,
    name: &'a str,
) -> Result<Command<'a>, AllocError>
    ensures { IfOk result (λ c. app_of c ≡ with_rule (app_of command.entry) (word_rule name.entry.now)) }
{
    command.arg(Arg::new(alloc, name).required(true))
}

// The command with one word or more at its end.
fn with_words<'a>(
    alloc: Global,
    command: Command<'a>,
    name: &'a str,
) -> Result<Command<'a>, AllocError>
    ensures { IfOk result (λ c. app_of c ≡ with_rule (app_of command.entry) (words_rule name.entry.now)) }
{
    command.arg(Arg::new(alloc, name).required(true).num_args(1..))
}

fn page_of_matches<'a>(
    alloc: Global,
    matches: &ArgMatches<'a>,
) -> Result<Option<PageArgs<'a>>, OutOfMemory>
    ensures meaning { IfOk result
        (λ r. option_map page_in r ≡ page_of_rows (rows_of (found_of matches.now))) }
    ensures limits { IfOk result (λ r. IfSome r IsPageWithin) }
{
    page_of(
        alloc,
        matches.get_str("workers"),
        matches.get_str("band"),
        matches.get_str("job"),
        matches.get_str("report"),
        matches.get_raw("plate"),
    )
}

// The command of the texts that `clap` found, if each of them has its form.
fn page_of<'a>(
    alloc: Global,
    workers: Option<&str>,
    band: Option<&str>,
    job: Option<&'a str>,
    report: Option<&'a str>,
    plates: Option<&[&'a str]>,
) -> Result<Option<PageArgs<'a>>, OutOfMemory>
    ensures meaning { IfOk result
        (λ r. option_map page_in r ≡ page_spec (option_map (λ w. w.now) workers.entry)
        (option_map (λ w. w.now) band.entry) (option_map (λ w. w.now) job.entry)
        (option_map (λ w. w.now) report.entry)
        (option_map (λ s. map (λ w. w.now) s.now) plates.entry)) }
    ensures limits { IfOk result (λ r. IfSome r IsPageWithin) }
{
    let Some(job) = job else {
        return Ok(None);
    };
    let Some(report) = report else {
        return Ok(None);
    };
    let Some(plates) = plates else {
        return Ok(None);
    };
    match read_plates(alloc, report, plates) {
        Ok(plates) => Ok(page_with(
            option_number(workers, 1, MOST_WORKERS, 4),
            option_number(band, 1, MOST_BAND_HEIGHT, 64),
            job,
            report,
            plates,
        )),
        Err(OutOfMemory) => Err(OutOfMemory),
    }
}

fn page_with<'a>(
    workers: Option<u32>,
    band: Option<u32>,
    job: &'a str,
    report: &'a str,
    plates: Option<Vec<&'a str>>,
) -> Option<PageArgs<'a>>
    requires workers_range { ForSome workers (λ n. (1 ≤ n) × (n ≤ most_workers)) }
    requires band_range { ForSome band (λ n. (1 ≤ n) × (n ≤ most_band_height)) }
    requires plates_count { ForSome plates (λ v. (1 ≤ vec_len v) × (vec_len v ≤ most_plates)) }
    ensures meaning { option_map page_in result
        ≡ page_made workers band job.now report.now
        (option_map (λ v. plates_in v.items) plates.entry) }
    ensures limits { IfSome result IsPageWithin }
{
    Some(PageArgs {
        workers: workers?,
        band: band?,
        job,
        report,
        plates: plates?,
    })
}
