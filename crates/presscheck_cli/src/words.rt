ghost use Rattle.std.specs.Prelude.{◌≡◌, ◌≤◌, IfSome, map, option_map, string_bytes};
ghost use Rattle.std.specs.Option.{ForSome};
ghost use Rattle.plain_words.specs.Inputs.{named_plates};
ghost use Rattle.presscheck_cli.specs.Stored.{check_in, IsWithin};
ghost use Rattle.presscheck_cli.specs.Words.{check_of, check_with as check_spec};
ghost use Rattle.misregister.specs.Limits.{most_radius};

use misregister::MOST_RADIUS;
use plain_words::inputs::are_named;
use plain_words::numbers::read_number;

// The words of `presscheck`: by how many samples a plate may shift to each side, the job's file, and the words of the
// plates.
#[derive(Clone, Copy)]
pub(crate) struct PresscheckArgs<'a> {
    pub radius: u32,
    pub job: &'a str,
    pub plates: &'a [String],
}

// Reads the words after the program's name; `None` where they are no command.
pub(crate) fn read_words(words: &[String]) -> Option<PresscheckArgs<'_>>
    ensures meaning { option_map check_in result ≡ check_of (map string_bytes words.now) }
    ensures limits { IfSome result IsWithin }
{
    match words {
        [radius, job, plates @ ..] => {
            check_with(
                read_number(radius.as_str(), 0, MOST_RADIUS),
                job.as_str(),
                plates,
            )
        }
        _ => None,
    }
}

fn check_with<'a>(
    radius: Option<u32>,
    job: &'a str,
    plates: &'a [String],
) -> Option<PresscheckArgs<'a>>
    requires { ForSome radius (λ n. n ≤ most_radius) }
    ensures meaning { option_map check_in result
        ≡ check_spec radius job.now (named_plates (map string_bytes plates.now)) }
    ensures limits { IfSome result IsWithin }
{
    if are_named(plates) {
        Some(PresscheckArgs {
            radius: radius?,
            job,
            plates,
        })
    } else {
        None
    }
}
