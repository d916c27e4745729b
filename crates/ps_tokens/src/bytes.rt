ghost use Rattle.std.specs.Prelude.{◌≡◌, ◌≤◌, length};
ghost use Rattle.std.specs.List.{prefix_len};
ghost use Rattle.ps_tokens.specs.Bytes.{is_whitespace, is_regular, is_digit, is_hexadecimal, is_in_comment};

/// Whether a byte is whitespace, which separates tokens (PLRM3, section 3.2).
#[tactic(auto, unfolding(crate::specs::Bytes::is_whitespace))]
pub fn is_whitespace(b: u8) -> bool
    ensures { result ≡ is_whitespace b }
{
    b == 0 || b == 9 || b == 10 || b == 12 || b == 13 || b == 32
}

/// Whether a byte is a regular character, which may stand in a name, a word or a number: neither whitespace nor a
/// delimiter (PLRM3, section 3.2, in this project's profile).
#[tactic(auto, unfolding(crate::specs::Bytes::is_regular))]
pub fn is_regular(b: u8) -> bool
    ensures { result ≡ is_regular b }
{
    !(is_whitespace(b)
        || b == b'('
        || b == b')'
        || b == b'<'
        || b == b'>'
        || b == b'['
        || b == b']'
        || b == b'{'
        || b == b'}'
        || b == b'/'
        || b == b'%')
}

/// Whether a byte is a decimal digit.
#[tactic(auto, unfolding(crate::specs::Bytes::is_digit))]
pub fn is_digit(b: u8) -> bool
    ensures { result ≡ is_digit b }
{
    b >= b'0' && b <= b'9'
}

// Whether a byte may stand in a hexadecimal string.
#[tactic(auto, unfolding(crate::specs::Bytes::is_hexadecimal))]
fn is_hexadecimal(b: u8) -> bool
    ensures { result ≡ is_hexadecimal b }
{
    is_digit(b) || (b >= b'A' && b <= b'F') || (b >= b'a' && b <= b'f') || is_whitespace(b)
}

// Whether a comment goes on past a byte.
#[tactic(auto, unfolding(crate::specs::Bytes::is_in_comment))]
fn is_in_comment(b: u8) -> bool
    ensures { result ≡ is_in_comment b }
{
    !(b == 10 || b == 12 || b == 13)
}

/// The number of regular bytes at the beginning.
pub fn regular_len(bytes: &[u8]) -> usize
    ensures value { result ≡ prefix_len is_regular bytes.now }
    ensures within { result ≤ length bytes.now }
{
    bytes.iter().take_while(|b| is_regular(**b)).count()
}

/// The number of digits at the beginning.
pub fn digits_len(bytes: &[u8]) -> usize
    ensures value { result ≡ prefix_len is_digit bytes.now }
    ensures within { result ≤ length bytes.now }
{
    bytes.iter().take_while(|b| is_digit(**b)).count()
}

/// The number of bytes of a hexadecimal string at the beginning.
pub fn hexadecimal_len(bytes: &[u8]) -> usize
    ensures value { result ≡ prefix_len is_hexadecimal bytes.now }
    ensures within { result ≤ length bytes.now }
{
    bytes.iter().take_while(|b| is_hexadecimal(**b)).count()
}

/// The number of bytes of a comment at the beginning.
pub fn comment_len(bytes: &[u8]) -> usize
    ensures value { result ≡ prefix_len is_in_comment bytes.now }
    ensures within { result ≤ length bytes.now }
{
    bytes.iter().take_while(|b| is_in_comment(**b)).count()
}
