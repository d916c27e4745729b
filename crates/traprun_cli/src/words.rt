ghost use Rattle.std.specs.Prelude.{◌≡◌, ◌≤◌, IfSome, map, option_map, string_bytes};
ghost use Rattle.std.specs.Option.{ForSome};
ghost use Rattle.plain_words.specs.Parts.{parts_of};
ghost use Rattle.traprun_cli.specs.Opened.{order_in, IsWithin};
ghost use Rattle.traprun_cli.specs.Words.{is_number_end as number_end_spec, is_page_file as page_file_spec, order_of, order_with as order_spec, plates_of, reads_page_file as reads_spec};
ghost use Rattle.page_model.specs.Limits.{most_band_height, most_workers};

use page_model::bounds::{MOST_BAND_HEIGHT, MOST_WORKERS};
use plain_words::numbers::{are_digits, read_number};
use plain_words::plates::{are_plates, stand_together};
use plain_words::written::{Naming, reads_written};

/// The words of `traprun`: its workers, the rows of its bands, the files that are read and written, and the words of
/// the plates.
#[derive(Clone, Copy)]
pub struct TraprunArgs<'a> {
    pub workers: u32,
    pub band: u32,
    pub job: &'a str,
    pub report: &'a str,
    pub plates: &'a [String],
}

/// Reads the words after the program's name: `WORKERS BAND JOB REPORT NAME:IN:OUT ...`. `None` where they are no
/// command. The form is this project's own.
pub fn read_words(words: &[String]) -> Option<TraprunArgs<'_>>
    ensures meaning { option_map order_in result ≡ order_of (map string_bytes words.now) }
    ensures limits { IfSome result IsWithin }
{
    match words {
        [workers, band, job, report, plates @ ..] => order_with(
            read_number(workers.as_str(), 1, MOST_WORKERS),
            read_number(band.as_str(), 1, MOST_BAND_HEIGHT),
            job.as_str(),
            report.as_str(),
            plates,
        ),
        _ => None,
    }
}

fn order_with<'a>(
    workers: Option<u32>,
    band: Option<u32>,
    job: &'a str,
    report: &'a str,
    plates: &'a [String],
) -> Option<TraprunArgs<'a>>
    requires workers { ForSome workers (λ n. (1 ≤ n) × (n ≤ most_workers)) }
    requires band { ForSome band (λ n. (1 ≤ n) × (n ≤ most_band_height)) }
    ensures meaning { option_map order_in result ≡ order_spec workers band job.now report.now
        (plates_of job.now report.now (map string_bytes plates.now)) }
    ensures limits { IfSome result IsWithin }
{
    if are_plates(plates)
        && stand_together(report, plates)
        && !reads_page_file(job, report, plates)
    {
        Some(TraprunArgs {
            workers: workers?,
            band: band?,
            job,
            report,
            plates,
        })
    } else {
        None
    }
}

// Whether a file that is read may be one that a page is written to.
fn reads_page_file(job: &str, report: &str, words: &[String]) -> bool
    ensures { result ≡ reads_spec job.now report.now (map parts_of (map string_bytes words.now)) }
{
    reads_written::<PageFiles, String>(job, report, words)
}

// How the files of all pages are named: a word followed by a page's number.
struct PageFiles;

impl Naming for PageFiles {
    ghost may_name = { page_file_spec };

    fn may_be(word: &str, name: &str) -> bool {
        is_page_file(word.as_bytes(), name.as_bytes())
    }
}

// Whether the name is that of a file that is written, followed by `.` and digits.
fn is_page_file(written: &[u8], name: &[u8]) -> bool
    ensures { result ≡ page_file_spec written.now name.now }
{
    written.len() <= name.len()
        && &name[..written.len()] == written
        && is_number_end(&name[written.len()..])
}

fn is_number_end(end: &[u8]) -> bool
    ensures { result ≡ number_end_spec end.now }
{
    match end {
        [dot, digits @ ..] => *dot == b'.' && 1 <= digits.len() && are_digits(digits),
        [] => false,
    }
}
