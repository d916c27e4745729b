ghost use Rattle.std.specs.Prelude.{◌≡◌, MatchResult, Ok, Err, [], length};
ghost use Rattle.ps_tokens.specs.Brackets.{Becomes, is_key_due, after_object, after_opening, after_array_end, after_dict_end, after_value, after_operator, after_token, brackets_after};
ghost use Rattle.ps_tokens.specs.Objects.{objects_of};

use crate::brackets::{Bracket, Brackets, DEEPEST, Expects};
use crate::faults::{FaultKind, JobFault};
use crate::token::{Token, TokenKind};
use crate::words::{is_value_word, spelling};

// Whether a key is due in the innermost bracket.
fn is_key_due(brackets: &Brackets) -> bool
    ensures { result ≡ is_key_due brackets.now }
{
    match brackets.innermost() {
        Some(innermost) => match innermost.expects {
            Expects::Key => true,
            Expects::Item | Expects::Value => false,
        },
        None => false,
    }
}

// One more object in the innermost bracket.
fn fill(brackets: &mut Brackets)
    ensures value { brackets.new ≡ after_object brackets.old }
    ensures depth { length brackets.new ≡ length brackets.old }
{
    if let Some(innermost) = brackets.innermost() {
        let expects = match innermost.expects {
            Expects::Item => Expects::Item,
            Expects::Key => Expects::Value,
            Expects::Value => Expects::Key,
        };
        brackets.replace(Bracket {
            at: innermost.at,
            expects,
        });
    }
}

// An opening token.
#[tactic(auto, unfolding(crate::specs::Brackets::after_opening))]
fn open(brackets: &mut Brackets, at: u32, expects: Expects) -> Result<(), FaultKind>
    ensures { Becomes result brackets.new (after_opening at expects brackets.old) }
{
    if is_key_due(brackets) {
        Err(FaultKind::KeyNotName)
    } else if brackets.len() == DEEPEST {
        Err(FaultKind::TooDeep)
    } else {
        fill(brackets);
        brackets.push(Bracket { at, expects });
        Ok(())
    }
}

// A `]`.
#[tactic(auto, unfolding(crate::specs::Brackets::after_array_end))]
fn close_array(brackets: &mut Brackets) -> Result<(), FaultKind>
    ensures { Becomes result brackets.new (after_array_end brackets.old) }
{
    match brackets.innermost() {
        Some(innermost) => match innermost.expects {
            Expects::Item => {
                brackets.pop();
                Ok(())
            }
            Expects::Key | Expects::Value => Err(FaultKind::Unmatched),
        },
        None => Err(FaultKind::Unmatched),
    }
}

// A `>>`.
#[tactic(auto, unfolding(crate::specs::Brackets::after_dict_end))]
fn close_dict(brackets: &mut Brackets) -> Result<(), FaultKind>
    ensures { Becomes result brackets.new (after_dict_end brackets.old) }
{
    match brackets.innermost() {
        Some(innermost) => match innermost.expects {
            Expects::Item => Err(FaultKind::Unmatched),
            Expects::Key => {
                brackets.pop();
                Ok(())
            }
            Expects::Value => Err(FaultKind::OddDictionary),
        },
        None => Err(FaultKind::Unmatched),
    }
}

// A number, a string, `true`, `false` or `null`.
#[tactic(auto, unfolding(crate::specs::Brackets::after_value))]
fn put_value(brackets: &mut Brackets) -> Result<(), FaultKind>
    ensures { Becomes result brackets.new (after_value brackets.old) }
{
    if is_key_due(brackets) {
        return Err(FaultKind::KeyNotName);
    }
    fill(brackets);
    Ok(())
}

// Any other word.
#[tactic(auto, unfolding(crate::specs::Brackets::after_operator))]
fn put_operator(brackets: &Brackets) -> Result<(), FaultKind>
    ensures { Becomes result brackets.now (after_operator brackets.now) }
{
    if is_key_due(brackets) {
        Err(FaultKind::KeyNotName)
    } else if brackets.len() == 0 {
        Ok(())
    } else {
        Err(FaultKind::NameInside)
    }
}

// One more token.
fn judge_token(brackets: &mut Brackets, bytes: &[u8], token: &Token) -> Result<(), FaultKind>
    ensures { Becomes result brackets.new (after_token bytes.now token.now brackets.old) }
{
    match token.kind {
        TokenKind::OpenDict => open(brackets, token.at, Expects::Key),
        TokenKind::CloseDict => close_dict(brackets),
        TokenKind::OpenArray => open(brackets, token.at, Expects::Item),
        TokenKind::CloseArray => close_array(brackets),
        TokenKind::Literal => {
            fill(brackets);
            Ok(())
        }
        TokenKind::Word => {
            if is_value_word(spelling(bytes, token)) {
                put_value(brackets)
            } else {
                put_operator(brackets)
            }
        }
        TokenKind::Number(_) | TokenKind::Text => put_value(brackets),
    }
}

/// The first fault of a job's tokens, judged one after the other.
pub fn judge(bytes: &[u8], tokens: &[Token]) -> Result<(), JobFault>
    ensures { MatchResult result (λ _. brackets_after bytes.now tokens.now ≡ Ok [])
        (λ fault. objects_of bytes.now tokens.now ≡ Err fault) }
{
    let mut brackets = Brackets::new();
    for token in tokens {
        match judge_token(&mut brackets, bytes, token) {
            Ok(()) => {}
            Err(kind) => return Err(JobFault { kind, at: token.at }),
        }
    }
    match brackets.innermost() {
        None => Ok(()),
        Some(innermost) => Err(JobFault {
            kind: FaultKind::Unclosed,
            at: innermost.at,
        }),
    }
}
