ghost use Rattle.std.specs.Prelude.{◌≡◌, ◌≤◌, IfSome, map, option_map, string_bytes};
ghost use Rattle.std.specs.Option.{ForSome};
ghost use Rattle.std.specs.Str.{bytes_eq};
ghost use Rattle.plain_words.specs.Parts.{parts_of};
ghost use Rattle.trapsheet_cli.specs.Stored.{IsWithin, order_in};
ghost use Rattle.trapsheet_cli.specs.Words.{order_of, order_with as order_spec, plates_of, reads_written as reads_spec};
ghost use Rattle.page_model.specs.Limits.{most_workers};

use page_model::bounds::MOST_WORKERS;
use plain_words::numbers::read_number;
use plain_words::plates::{are_plates, stand_together};
use plain_words::written;
use plain_words::written::Naming;

/// The words of `trapsheet`: its workers, the files that are read and written, and the words of the plates.
#[derive(Clone, Copy)]
pub struct SheetArgs<'a> {
    pub workers: u32,
    pub job: &'a str,
    pub report: &'a str,
    pub plates: &'a [String],
}

/// Reads the words after the program's name: `WORKERS JOB REPORT NAME:IN:OUT ...`. `None` where they are no command.
/// The form is this project's own.
pub fn read_words(words: &[String]) -> Option<SheetArgs<'_>>
    ensures meaning { option_map order_in result ≡ order_of (map string_bytes words.now) }
    ensures limits { IfSome result IsWithin }
{
    match words {
        [workers, job, report, plates @ ..] => order_with(
            read_number(workers.as_str(), 1, MOST_WORKERS),
            job.as_str(),
            report.as_str(),
            plates,
        ),
        _ => None,
    }
}

fn order_with<'a>(
    workers: Option<u32>,
    job: &'a str,
    report: &'a str,
    plates: &'a [String],
) -> Option<SheetArgs<'a>>
    requires { ForSome workers (λ n. (1 ≤ n) × (n ≤ most_workers)) }
    ensures meaning { option_map order_in result ≡ order_spec workers job.now report.now
        (plates_of job.now report.now (map string_bytes plates.now)) }
    ensures limits { IfSome result IsWithin }
{
    if are_plates(plates) && stand_together(report, plates) && !reads_written(job, report, plates) {
        Some(SheetArgs {
            workers: workers?,
            job,
            report,
            plates,
        })
    } else {
        None
    }
}

// Whether a file that is read is one that is written.
fn reads_written(job: &str, report: &str, words: &[String]) -> bool
    ensures { result ≡ reads_spec job.now report.now (map parts_of (map string_bytes words.now)) }
{
    written::reads_written::<SheetFiles, String>(job, report, words)
}

// The names of a sheet's files: those of the words.
struct SheetFiles;

impl Naming for SheetFiles {
    ghost may_name = { λ word name. bytes_eq name word };

    fn may_be(word: &str, name: &str) -> bool {
        name == word
    }
}
