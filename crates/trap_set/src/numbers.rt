// The numbers of a line, read from its beginning.

ghost use Rattle.std.specs.Prelude.{◌≡◌, ◌≤◌, ◌<◌, ◌∷◌, ◌++◌, [], ℕ, List, true, length, IfSome, IfNone, IsTrue, ◌↔◌, EachIndex, slice_index};
ghost use Rattle.std.specs.Char.{is_ascii_digit};
ghost use Rattle.std.specs.List.{prefix_len};
ghost use Rattle.std.specs.Str.Parse.{digits_value};
ghost use Rattle.trap_set.specs.Numbers.{BeginsDigits, BeginsNumbers, IsPlain};

// The greatest numbers of a set have five digits.
const MOST_DIGITS: usize = 5;

/// Reads a space and a number at the beginning of the text. Returns the number and the rest.
pub(crate) fn take_number(text: &[u8]) -> Option<(u32, &[u8])>
    ensures some { IfSome result (λ r. BeginsNumbers text.now (r.0 ∷ []) r.1.now) }
    ensures none { IfNone result
        ((n : ℕ) (rest : List ℕ) → BeginsNumbers text.now (n ∷ []) rest → ⊥) }
{
    match text {
        [b' ', digits @ ..] => take_digits(digits),
        _ => None,
    }
}

// Reads a number at the beginning of the text. Returns the number and the rest.
fn take_digits(text: &[u8]) -> Option<(u32, &[u8])>
    ensures some { IfSome result (λ r. BeginsDigits text.now r.0 r.1.now) }
    ensures none { IfNone result ((n : ℕ) (rest : List ℕ) → BeginsDigits text.now n rest → ⊥) }
{
    let count = count_digits(text);
    if !is_plain(text, count) {
        return None;
    }
    Some((value_of(&text[..count]), &text[count..]))
}

// Whether the first `count` bytes of a text, all digits, have the form of a number.
fn is_plain(text: &[u8], count: usize) -> bool
    requires { count ≤ length text.now }
    ensures { IsTrue result ↔ IsPlain text.now count }
{
    0 < count && count <= MOST_DIGITS && (count == 1 || text[0] != b'0')
}

// The number of digits at the beginning of the text.
fn count_digits(text: &[u8]) -> usize
    ensures { result ≡ prefix_len is_ascii_digit text.now }
{
    for (place, byte) in text.iter().enumerate() {
        if !byte.is_ascii_digit() {
            return place;
        }
    }
    text.len()
}

// The number that these digits write.
fn value_of(digits: &[u8]) -> u32
    requires few { length digits.now ≤ 5 }
    requires digits { EachIndex digits.now
        (λ k. is_ascii_digit (slice_index digits.now k) ≡ true) }
    ensures { result ≡ digits_value 10 digits.now }
{
    let mut value = 0u32;
    for digit in digits {
        value = 10 * value + u32::from(*digit - b'0');
    }
    value
}

/// The rest of a text after a word; `None` where the text does not begin with it.
pub(crate) fn take_word<'a>(text: &'a [u8], word: &[u8]) -> Option<&'a [u8]>
    ensures some { IfSome result (λ rest. text.now ≡ word.now ++ rest.now) }
    ensures none { IfNone result ((rest : List ℕ) → text.now ≡ word.now ++ rest → ⊥) }
{
    text.strip_prefix(word)
}

/// Reads as many numbers at the beginning of the text as the list has places. Returns the rest.
pub(crate) fn take_numbers<'a>(text: &'a [u8], numbers: &mut [u32]) -> Option<&'a [u8]>
    requires { 0 < length numbers.old }
    ensures some { IfSome result (λ rest. BeginsNumbers text.now numbers.new rest.now) }
    ensures none { IfNone result ((meant rest : List ℕ) → length meant ≡ length numbers.old
        → BeginsNumbers text.now meant rest → ⊥) }
{
    let mut rest = text;
    for place in 0..numbers.len() {
        match take_number(rest) {
            Some((number, more)) => {
                numbers[place] = number;
                rest = more;
            }
            None => return None,
        }
    }
    Some(rest)
}
