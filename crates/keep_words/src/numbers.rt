ghost use Rattle.std.specs.Prelude.{◌≡◌, ◌≤◌, ◌<◌, ◌+◌, ◌^◌, IfSome, drop, length, min};
ghost use Rattle.std.specs.List.{list_all, prefix_len, take_while};
ghost use Rattle.keep_words.specs.Numbers.{after_whole, decimal, digit_at, fraction_of, is_digit, is_fraction, points_of, value_of, whole_digits};

use page_model::bounds::SCALE;

/// More than any number of the words may be, as whole numbers.
const ENOUGH: u32 = 1000;

fn is_digit(byte: u8) -> bool
    ensures { result ≡ is_digit byte }
{
    48 <= byte && byte <= 57
}

// How many digits the bytes begin with.
fn digits_len(bytes: &[u8]) -> usize
    ensures value { result ≡ prefix_len is_digit bytes.now }
    ensures within { result ≤ length bytes.now }
{
    match bytes {
        [first, rest @ ..] if is_digit(*first) => digits_len(rest) + 1,
        _ => 0,
    }
}

// Whether each byte is a digit.
fn are_digits(bytes: &[u8]) -> bool
    ensures { result ≡ list_all is_digit bytes.now }
{
    bytes.iter().all(|b| is_digit(*b))
}

// Whether these digits and what stands after them are a number.
fn is_fraction(whole: &[u8], suffix: &[u8]) -> bool
    ensures { result ≡ is_fraction whole.now suffix.now }
{
    match suffix {
        [] => !whole.is_empty(),
        [point, digits @ ..] => {
            *point == b'.' && are_digits(digits) && !(whole.is_empty() && digits.is_empty())
        }
    }
}

// The number that digits spell, as far as `ENOUGH`.
fn whole_value(digits: &[u8]) -> u32
    ensures value { result ≡ min (decimal digits.now) ENOUGH }
    ensures most { result ≤ 1000 }
{
    let mut value = 0u32;
    for digit in digits {
        value = (10 * value + u32::from(digit.saturating_sub(b'0'))).min(ENOUGH);
    }
    value
}

// A digit's value, 0 where there is none.
fn digit_at(digits: &[u8], place: usize) -> u8
    ensures { result ≡ digit_at digits.now place }
{
    match digits.get(place) {
        Some(digit) => digit.saturating_sub(b'0'),
        None => 0,
    }
}

// The first four digits after a point, filled with zeros.
fn fraction_of(digits: &[u8]) -> u32
    ensures value { result ≡ fraction_of digits.now }
    ensures small { result < 300000 }
{
    1000 * u32::from(digit_at(digits, 0))
        + 100 * u32::from(digit_at(digits, 1))
        + 10 * u32::from(digit_at(digits, 2))
        + u32::from(digit_at(digits, 3))
}

// What stands after the first byte.
fn after_point(suffix: &[u8]) -> &[u8]
    ensures { result.now ≡ drop 1 suffix.now }
{
    match suffix {
        [_, digits @ ..] => digits,
        [] => suffix,
    }
}

/// The number that the bytes of a word write, in ten-thousandths, if it is at most so much.
pub(crate) fn read_points(bytes: &[u8], most: u32) -> Option<u32>
    requires { most ≤ 1000000 }
    ensures value { result ≡ points_of most bytes.now }
    ensures within { IfSome result (λ n. n ≤ most) }
{
    let (whole, suffix) = bytes.split_at(digits_len(bytes));
    let value = SCALE * whole_value(whole) + fraction_of(after_point(suffix));
    if is_fraction(whole, suffix) && value <= most {
        Some(value)
    } else {
        None
    }
}
