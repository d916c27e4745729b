ghost use Rattle.std.specs.Prelude.{◌≡◌, ◌≤◌, ◌<◌, ◌+◌, ◌^◌, length, IfSome, false};
ghost use Rattle.ps_tokens.specs.Texts.{text_end};

/// The length in bytes of a string in parentheses, both of them included, or `None` where it is not closed. `bytes`
/// begins after the opening one. Parentheses within it are balanced, and `\` takes the next byte with it (after PLRM3,
/// section 3.2, in this project's profile).
pub fn text_len(bytes: &[u8]) -> Option<usize>
    requires { length bytes.now < 2 ^ 40 }
    ensures value { result ≡ text_end false 0 1 bytes.now }
    ensures within { IfSome result (λ len. (1 ≤ len) × (len ≤ length bytes.now + 1)) }
{
    let mut depth = 0usize;
    let mut escaped = false;
    for (i, b) in bytes.iter().enumerate() {
        if escaped {
            escaped = false;
        } else if *b == b'\\' {
            escaped = true;
        } else if *b == b'(' {
            depth += 1;
        } else if *b == b')' {
            if depth == 0 {
                return Some(i + 2);
            }
            depth -= 1;
        }
    }
    None
}
