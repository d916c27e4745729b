ghost use Rattle.std.specs.Prelude.{◌≡◌};
ghost use Rattle.ps_tokens.specs.Words.{spelling, is_value_word};

use crate::token::Token;

/// The bytes of a token: `bytes` are the whole job's.
pub fn spelling<'a>(bytes: &'a [u8], token: &Token) -> &'a [u8]
    ensures { result.now ≡ spelling bytes.now token.now }
{
    let from = (token.at as usize).min(bytes.len());
    let to = (from + token.len as usize).min(bytes.len());
    &bytes[from..to]
}

/// Whether a word is `true`, `false` or `null`.
#[tactic(auto, unfolding(crate::specs::Words::is_value_word))]
pub fn is_value_word(word: &[u8]) -> bool
    ensures { result ≡ is_value_word word.now }
{
    word == b"true".as_slice() || word == b"false".as_slice() || word == b"null".as_slice()
}
