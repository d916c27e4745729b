ghost use Rattle.std.specs.Prelude.{◌≡◌, ◌<◌, MatchResult};
ghost use Rattle.plain_words.specs.Names.{is_delimiter as delimiter_spec};
ghost use Rattle.escaped_names.specs.Escapes.{escaped, escaped_byte as escaped_byte_spec, hex_digit as hex_digit_spec, is_plain as plain_spec, name_fault};

use arrayvec::ArrayVec;
use page_model::bounds::LONGEST_NAME;

/// A name in the form of the job language.
pub type EscapedName = ArrayVec<u8, LONGEST_NAME>;

/// Why some bytes have no name in a job.
#[derive(Clone, Copy, Debug, Drop, PartialEq, Eq)]
pub enum NameFault {
    /// There are no bytes.
    Empty,
    /// The name would be longer than 64 bytes.
    TooLong,
}

/// The name of any bytes in the form of the job language: `#` and two upper-case hexadecimal digits for each byte
/// outside 33 to 126, each delimiter and `#` itself. The form is this project's own.
pub fn escape(bytes: &[u8]) -> Result<EscapedName, NameFault>
    ensures { MatchResult result
        (λ name. (name_fault bytes.now ≡ None) × (name.items ≡ escaped bytes.now))
        (λ fault. name_fault bytes.now ≡ Some fault) }
{
    if bytes.is_empty() {
        return Err(NameFault::Empty);
    }
    let mut name = EscapedName::new();
    for byte in bytes {
        if name
            .try_extend_from_slice(escaped_byte(*byte).as_slice())
            .is_err()
        {
            return Err(NameFault::TooLong);
        }
    }
    Ok(name)
}

fn escaped_byte(byte: u8) -> ArrayVec<u8, 3>
    ensures { result.items ≡ escaped_byte_spec byte }
{
    let mut escape = ArrayVec::new();
    if is_plain(byte) {
        escape.push(byte);
    } else {
        escape.push(b'#');
        escape.push(hex_digit(byte / 16));
        escape.push(hex_digit(byte % 16));
    }
    escape
}

fn hex_digit(digit: u8) -> u8
    requires { digit < 16 }
    ensures { result ≡ hex_digit_spec digit }
{
    if digit < 10 {
        b'0' + digit
    } else {
        b'A' + (digit - 10)
    }
}

// Whether a byte stands for itself.
fn is_plain(byte: u8) -> bool
    ensures { result ≡ plain_spec byte }
{
    33 <= byte && byte <= 126 && !is_delimiter(byte) && byte != b'#'
}

fn is_delimiter(byte: u8) -> bool
    ensures { result ≡ delimiter_spec byte }
{
    matches!(
        byte,
        b'(' | b')' | b'<' | b'>' | b'[' | b']' | b'{' | b'}' | b'/' | b'%'
    )
}
