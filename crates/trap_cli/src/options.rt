ghost use Rattle.std.specs.Prelude.{◌≡◌, ◌≤◌, IfSome, option_map};
ghost use Rattle.trap_cli.specs.Options.{option_number as option_spec};

use plain_words::numbers::read_number;

// The number of an option, or `absent` where the option is missing.
pub(crate) fn option_number(word: Option<&str>, least: u32, most: u32, absent: u32) -> Option<u32>
    requires low { least ≤ absent }
    requires high { absent ≤ most }
    ensures value { result ≡ option_spec least most absent (option_map (λ w. w.now) word.entry) }
    ensures range { IfSome result (λ n. (least ≤ n) × (n ≤ most)) }
{
    match word {
        Some(word) => read_number(word, least, most),
        None => Some(absent),
    }
}
