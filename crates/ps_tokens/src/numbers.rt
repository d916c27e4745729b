ghost use Rattle.std.specs.Prelude.{◌≡◌, ◌<◌, ◌^◌, ◌+◌, length, min};
ghost use Rattle.std.specs.Bool.{OnTrue};
ghost use Rattle.std.specs.List.{list_all};
ghost use Rattle.ps_tokens.specs.Bytes.{begins_with, is_digit};
ghost use Rattle.ps_tokens.specs.Limits.{largest_whole};
ghost use Rattle.ps_tokens.specs.Numbers.{unsigned, is_unsigned_number, begins_like_number, decimal, digit_at, fraction_of, signed, whole_digits, after_whole};
ghost use Rattle.ps_tokens.specs.Pieces.{IsWithin, run_piece, number_piece};

use crate::bytes::{digits_len, is_digit};
use crate::faults::FaultKind;
use crate::pieces::Piece;
use crate::token::TokenKind;
use page_model::bounds::SCALE;

/// The greatest whole part of a number.
pub const LARGEST_WHOLE: u32 = 1_000_000;

/// Whether the first byte is this one.
pub fn begins_with(bytes: &[u8], byte: u8) -> bool
    ensures value { result ≡ begins_with byte bytes.now }
    ensures some { OnTrue result (0 < length bytes.now) }
{
    match bytes {
        [first, ..] => *first == byte,
        [] => false,
    }
}

// Whether a run begins with a digit, a sign or a point.
fn begins_like_number(run: &[u8]) -> bool
    ensures { result ≡ begins_like_number run.now }
{
    match run {
        [first, ..] => is_digit(*first) || *first == b'+' || *first == b'-' || *first == b'.',
        [] => false,
    }
}

// A run without its sign.
fn without_sign(run: &[u8]) -> &[u8]
    ensures { result.now ≡ unsigned run.now }
{
    if begins_with(run, b'+') || begins_with(run, b'-') {
        &run[1..]
    } else {
        run
    }
}

// Whether each byte is a digit.
fn are_digits(bytes: &[u8]) -> bool
    ensures { result ≡ list_all is_digit bytes.now }
{
    bytes.iter().all(|b| is_digit(*b))
}

// Whether these digits and what stands after them are a number.
fn is_unsigned_number(whole: &[u8], suffix: &[u8]) -> bool
    ensures { result ≡ is_unsigned_number whole.now suffix.now }
{
    match suffix {
        [] => !whole.is_empty(),
        [b'.', fraction @ ..] => { are_digits(fraction) && whole.len() + suffix.len() > 1 }
        _ => false,
    }
}

// The number that digits spell, as far as `LARGEST_WHOLE` and one more.
fn whole_value(digits: &[u8]) -> u32
    ensures { result ≡ min (decimal digits.now) (largest_whole + 1) }
{
    let mut value = 0u32;
    for digit in digits {
        value = (10 * value + u32::from(digit.saturating_sub(b'0'))).min(LARGEST_WHOLE + 1);
    }
    value
}

// A digit's value, 0 where there is none.
fn digit_at(digits: &[u8], place: usize) -> u8
    ensures { result ≡ digit_at digits.now place }
{
    match digits.get(place) {
        Some(digit) => digit.saturating_sub(b'0'),
        None => 0,
    }
}

// The first four digits after a point, filled with zeros.
fn fraction_of(digits: &[u8]) -> u32
    ensures { result ≡ fraction_of digits.now }
{
    1000 * u32::from(digit_at(digits, 0))
        + 100 * u32::from(digit_at(digits, 1))
        + 10 * u32::from(digit_at(digits, 2))
        + u32::from(digit_at(digits, 3))
}

// A number with its sign.
fn with_sign(negative: bool, magnitude: u64) -> i64
    requires { magnitude < 2 ^ 40 }
    ensures { result ≡ signed negative magnitude }
{
    let number = magnitude as i64;
    if negative { -number } else { number }
}

/// Reads a run of regular bytes as a number, a word, or neither (after PLRM3, section 3.2, in this project's profile:
/// no exponent and no radix).
#[tactic(auto, unfolding(crate::specs::Pieces::run_piece))]
pub fn run_piece(run: &[u8]) -> Piece
    requires { 0 < length run.now }
    ensures value { result ≡ run_piece run.now }
    ensures within { IsWithin result (length run.now) }
{
    let body = without_sign(run);
    let (whole, suffix) = body.split_at(digits_len(body));
    if is_unsigned_number(whole, suffix) {
        number_piece(run, whole, suffix)
    } else if begins_like_number(run) {
        Piece::Broken(FaultKind::BadToken)
    } else {
        Piece::Spelled(TokenKind::Word, run.len())
    }
}

// A number of these digits and what stands after them.
#[tactic(auto, unfolding(crate::specs::Pieces::number_piece))]
fn number_piece(run: &[u8], whole: &[u8], suffix: &[u8]) -> Piece
    requires some { 0 < length run.now }
    requires whole_is { whole.now ≡ whole_digits run.now }
    requires after_is { suffix.now ≡ after_whole run.now }
    ensures value { result ≡ number_piece run.now }
    ensures within { IsWithin result (length run.now) }
{
    let value = whole_value(whole);
    if value > LARGEST_WHOLE {
        return Piece::Broken(FaultKind::NumberTooLarge);
    }
    let fraction = match suffix {
        [_, digits @ ..] => fraction_of(digits),
        [] => 0,
    };
    let magnitude = u64::from(SCALE) * u64::from(value) + u64::from(fraction);
    let number = with_sign(begins_with(run, b'-'), magnitude);
    Piece::Spelled(TokenKind::Number(number), run.len())
}
