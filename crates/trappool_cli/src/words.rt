ghost use Rattle.std.specs.Prelude.{◌≡◌, ◌≤◌, IfSome, map, option_map, string_bytes};
ghost use Rattle.trappool_cli.specs.Words.{asked_by, asked_in, asked_of};
ghost use Rattle.page_model.specs.Limits.{most_workers};

use page_model::bounds::MOST_WORKERS;
use plain_words::numbers::read_number;

// The words of `trappool`: the number of workers, and the file of the list.
#[derive(Clone, Copy)]
pub(crate) struct TrappoolArgs<'a> {
    pub workers: u32,
    pub list: &'a str,
}

// Reads the words after the program's name; `None` where they are no command.
pub(crate) fn read_words(words: &[String]) -> Option<TrappoolArgs<'_>>
    ensures meaning { option_map asked_in result ≡ asked_of (map string_bytes words.now) }
    ensures limits { IfSome result (λ asked. (1 ≤ asked.workers) × (asked.workers ≤ most_workers)) }
{
    match words {
        [workers, list] => args_with(
            read_number(workers.as_str(), 1, MOST_WORKERS),
            list.as_str(),
        ),
        _ => None,
    }
}

fn args_with<'a>(workers: Option<u32>, list: &'a str) -> Option<TrappoolArgs<'a>>
    requires { IfSome workers (λ n. (1 ≤ n) × (n ≤ most_workers)) }
    ensures meaning { option_map asked_in result ≡ asked_by workers list.now }
    ensures limits { IfSome result (λ asked. (1 ≤ asked.workers) × (asked.workers ≤ most_workers)) }
{
    Some(TrappoolArgs {
        workers: workers?,
        list,
    })
}
