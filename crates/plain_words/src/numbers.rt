ghost use Rattle.std.specs.Prelude.{◌≡◌, ◌≤◌, IfSome};
ghost use Rattle.plain_words.specs.Numbers.{in_range as in_range_spec, is_number as number_spec, number_of};
ghost use Rattle.std.specs.Char.{is_ascii_digit};
ghost use Rattle.std.specs.List.{list_all};

/// The number that a word writes: one to ten decimal digits without a sign, from `least` to `most`. `None` for every
/// other word. The form is this project's own.
pub fn read_number(word: &str, least: u32, most: u32) -> Option<u32>
    ensures value { result ≡ number_of least most word.now }
    ensures range { IfSome result (λ n. (least ≤ n) × (n ≤ most)) }
{
    if !is_number(word.as_bytes()) {
        return None;
    }
    match word.parse::<u32>() {
        Ok(number) => in_range(number, least, most),
        Err(_) => None,
    }
}

fn in_range(number: u32, least: u32, most: u32) -> Option<u32>
    ensures value { result ≡ in_range_spec least most number }
    ensures range { IfSome result (λ n. (least ≤ n) × (n ≤ most)) }
{
    if least <= number && number <= most {
        Some(number)
    } else {
        None
    }
}

fn is_number(word: &[u8]) -> bool
    ensures { result ≡ number_spec word.now }
{
    1 <= word.len() && word.len() <= 10 && are_digits(word)
}

/// Whether there are digits alone.
pub fn are_digits(word: &[u8]) -> bool
    ensures { result ≡ list_all is_ascii_digit word.now }
{
    word.iter().all(|byte| byte.is_ascii_digit())
}
