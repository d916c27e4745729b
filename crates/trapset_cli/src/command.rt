ghost use Rattle.std.specs.Prelude.{◌≡◌, IfSome, length, map, option_map, string_bytes};
ghost use Rattle.plain_words.specs.Inputs.{AreFew};
ghost use Rattle.trapset_cli.specs.Stored.{IsWithin, apply_in, command_in, traps_in};
ghost use Rattle.trapset_cli.specs.Words.{apply_of, command_of, traps_of};

use crate::plates::are_copied;
use plain_words::inputs::are_named;

/// The command `traps`: the job, the file of the set that is written, and the words NAME:IN of the plates.
#[derive(Clone, Copy)]
pub struct TrapsArgs<'a> {
    pub job: &'a str,
    pub set: &'a str,
    pub plates: &'a [String],
}

/// The command `apply`: the file of the set that is read, and the words IN:OUT of the plates.
#[derive(Clone, Copy)]
pub struct ApplyArgs<'a> {
    pub set: &'a str,
    pub plates: &'a [String],
}

/// The command of a program's words.
#[derive(Clone, Copy)]
pub enum Command<'a> {
    Traps(TrapsArgs<'a>),
    Apply(ApplyArgs<'a>),
}

/// Reads the words after the program's name: `traps JOB SET NAME:IN ...` or `apply SET IN:OUT ...`, with one to sixteen
/// plates. `None` where they are no command, where two plates have one name, or two are written to one file. The form
/// is this project's own.
pub fn read_words(words: &[String]) -> Option<Command<'_>>
    ensures meaning { option_map command_in result ≡ command_of (map string_bytes words.now) }
    ensures limits { IfSome result IsWithin }
{
    match words {
        [first, rest @ ..] => {
            if first.as_str() == "traps" {
                Some(Command::Traps(read_traps(rest)?))
            } else if first.as_str() == "apply" {
                Some(Command::Apply(read_apply(rest)?))
            } else {
                None
            }
        }
        _ => None,
    }
}

fn read_traps(words: &[String]) -> Option<TrapsArgs<'_>>
    ensures meaning { option_map traps_in result ≡ traps_of (map string_bytes words.now) }
    ensures limits { IfSome result (λ c. AreFew (length c.plates.now)) }
{
    match words {
        [job, set, plates @ ..] if are_named(plates) => Some(TrapsArgs {
            job: job.as_str(),
            set: set.as_str(),
            plates,
        }),
        _ => None,
    }
}

fn read_apply(words: &[String]) -> Option<ApplyArgs<'_>>
    ensures meaning { option_map apply_in result ≡ apply_of (map string_bytes words.now) }
    ensures limits { IfSome result (λ c. AreFew (length c.plates.now)) }
{
    match words {
        [set, plates @ ..] if are_copied(plates) => Some(ApplyArgs {
            set: set.as_str(),
            plates,
        }),
        _ => None,
    }
}
