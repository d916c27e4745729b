//! Laws of the definitions: each is the contract of a function that does nothing.

ghost use Rattle.std.specs.Prelude.{◌≡◌, ℕ, List, ◌∷◌, ◌++◌, ◌+◌, length, true, false};
ghost use Rattle.std.specs.List.{list_all};
ghost use Rattle.ps_tokens.specs.declared.token.Token.{Token};
ghost use Rattle.ps_tokens.specs.declared.brackets.Bracket.{Bracket};
ghost use Rattle.ps_tokens.specs.declared.faults.JobFault.{JobFault};
ghost use Rattle.ps_tokens.specs.Bytes.{is_whitespace, is_in_comment};
ghost use Rattle.ps_tokens.specs.Balance.{IsBalanced, Closes};
ghost use Rattle.ps_tokens.specs.Texts.{text_end};
ghost use Rattle.ps_tokens.specs.Tokens.{tokens_from};
ghost use Rattle.ps_tokens.specs.Brackets.{brackets_after};
ghost use Rattle.ps_tokens.specs.Objects.{objects_of};
ghost use Rattle.ps_tokens.specs.Laws.{all_further_on, CanBeCompleted};

/// The place of tokens in a job changes only their offsets.
pub fn place_moves_offsets_alone()
    ensures { (n at : ℕ) (bytes : List ℕ)
        → tokens_from (n + at) 0 bytes ≡ all_further_on n (tokens_from at 0 bytes) }
{}

/// A whitespace byte inserted before some bytes changes only the offsets of the tokens after it.
pub fn space_moves_offsets_alone()
    ensures { (at b : ℕ) (bytes : List ℕ) → is_whitespace b ≡ true
        → tokens_from at 0 (b ∷ bytes) ≡ all_further_on 1 (tokens_from at 0 bytes) }
{}

/// A comment inserted before some bytes, with the line end after it, changes only the offsets of the tokens after it.
pub fn comment_moves_offsets_alone()
    ensures { (at ending : ℕ) (text bytes : List ℕ) → list_all is_in_comment text ≡ true
        → is_in_comment ending ≡ false → is_whitespace ending ≡ true
        → tokens_from at 0 (37 ∷ (text ++ ending ∷ bytes))
        ≡ all_further_on (length text + 2) (tokens_from at 0 bytes) }
{}

/// Tokens without a fault so far can be completed.
pub fn faultless_is_completable()
    ensures { (bytes : List ℕ) (tokens : List Token) (brackets : List Bracket)
        → brackets_after bytes tokens ≡ Ok brackets → CanBeCompleted bytes tokens }
{}

/// After a token with a fault no further tokens complete the list, and its fault stays the same with all of them.
pub fn faulty_is_never_completed()
    ensures { (bytes : List ℕ) (tokens more : List Token) (fault : JobFault)
        → brackets_after bytes tokens ≡ Err fault → objects_of bytes (tokens ++ more) ≡ Err fault }
{}

/// A string ends with the first parenthesis before which everything is balanced, and nowhere else.
pub fn string_ends_where_balanced()
    ensures read { (inner after : List ℕ) → IsBalanced inner
        → text_end false 0 1 (inner ++ 41 ∷ after) ≡ Some (length inner + 2) }
    ensures balanced { (bytes : List ℕ) (n : ℕ) → text_end false 0 1 bytes ≡ Some n
        → Closes bytes n }
{}
