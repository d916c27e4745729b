ghost use Rattle.std.specs.Prelude.{◌≡◌, ◌≤◌, IfSome, map, option_map, string_bytes};
ghost use Rattle.std.specs.Option.{ForSome};
ghost use Rattle.trap_cli.specs.Words.{sample_of_words, sample_with as sample_spec};
ghost use Rattle.trap_cli.specs.Stored.{IsSampleWithin, sample_in};
ghost use Rattle.page_model.specs.Limits.{most_side, most_workers};

use crate::command::SampleArgs;
use page_model::bounds::{MOST_SIDE, MOST_WORKERS};
use plain_words::numbers::read_number;

// NUMBER WIDTH HEIGHT WORKERS.
pub(crate) fn read_sample(words: &[String]) -> Option<SampleArgs>
    ensures meaning { option_map sample_in result ≡ sample_of_words (map string_bytes words.now) }
    ensures limits { IfSome result IsSampleWithin }
{
    match words {
        [number, width, height, workers] => sample_with(
            read_number(number.as_str(), 0, u32::MAX),
            read_number(width.as_str(), 1, MOST_SIDE),
            read_number(height.as_str(), 1, MOST_SIDE),
            read_number(workers.as_str(), 1, MOST_WORKERS),
        ),
        _ => None,
    }
}

fn sample_with(
    number: Option<u32>,
    width: Option<u32>,
    height: Option<u32>,
    workers: Option<u32>,
) -> Option<SampleArgs>
    requires width_range { ForSome width (λ n. (1 ≤ n) × (n ≤ most_side)) }
    requires height_range { ForSome height (λ n. (1 ≤ n) × (n ≤ most_side)) }
    requires workers_range { ForSome workers (λ n. (1 ≤ n) × (n ≤ most_workers)) }
    ensures meaning { option_map sample_in result ≡ sample_spec number width height workers }
    ensures limits { IfSome result IsSampleWithin }
{
    Some(SampleArgs {
        number: number?,
        width: width?,
        height: height?,
        workers: workers?,
    })
}
