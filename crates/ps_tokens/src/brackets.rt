ghost use Rattle.std.specs.Prelude.{◌≡◌, ◌∷◌, [], ◌<◌, ◌≤◌, length, drop, slice_get};
ghost use Rattle.ps_tokens.specs.Limits.{deepest};

use std::marker::Model;

/// The greatest number of brackets that may be open at a place.
pub const DEEPEST: usize = 16;

/// What an open bracket expects next.
#[derive(Clone, Copy, Debug, Drop, PartialEq, Eq)]
pub enum Expects {
    /// An item of an array.
    Item,
    /// A key of a dictionary.
    Key,
    /// The value of a dictionary's key.
    Value,
}

/// An open bracket, with its token's offset.
#[derive(Clone, Copy, Debug, Drop, PartialEq, Eq)]
pub struct Bracket {
    pub at: u32,
    pub expects: Expects,
}

/// The brackets that are open at a place, the innermost first.
/// They stand at the end of `items`, from `start` on.
#[derive(Drop)]
pub struct Brackets {
    items: [Bracket; DEEPEST],
    start: usize,
}

impl Model for Brackets {
    ghost use Rattle.std.specs.Prelude.{◌≡◌, ◌≤◌, List, length, drop};
    ghost use Rattle.ps_tokens.specs.Limits.{deepest};
    ghost use Rattle.ps_tokens.specs.declared.brackets.Bracket.{Bracket as Item};

    ghost Value = { List Item };

    ghost view = { λ b. drop b.start b.items };

    ghost invariant = { λ b. (b.start ≤ deepest) × (length b.items ≡ deepest) };
}

impl Brackets {
    /// No bracket.
    pub fn new() -> Brackets
        ensures { result ≡ [] }
    {
        let none = Bracket {
            at: 0,
            expects: Expects::Item,
        };
        Brackets {
            items: [none; DEEPEST],
            start: DEEPEST,
        }
    }

    /// How many brackets are open.
    #[tactic(auto, using(crate::proofs::Stacks::stacks))]
    pub fn len(&self) -> usize
        ensures value { result ≡ length self.now }
        ensures few { length self.now ≤ deepest }
    {
        DEEPEST - self.start
    }

    /// The innermost bracket, or `None` exactly where none is open.
    #[tactic(auto, using(crate::proofs::Stacks::stacks))]
    pub fn innermost(&self) -> Option<Bracket>
        ensures { result ≡ slice_get self.now 0 }
    {
        if self.start < DEEPEST {
            Some(self.items[self.start])
        } else {
            None
        }
    }

    /// Opens a bracket.
    #[tactic(auto, using(crate::proofs::Stacks::stacks))]
    pub fn push(&mut self, bracket: Bracket)
        requires { length self.old < deepest }
        ensures { self.new ≡ bracket ∷ self.old }
    {
        self.start -= 1;
        self.items[self.start] = bracket;
    }

    /// Closes the innermost bracket.
    #[tactic(auto, using(crate::proofs::Stacks::stacks))]
    pub fn pop(&mut self)
        requires { 0 < length self.old }
        ensures { self.new ≡ drop 1 self.old }
    {
        self.start += 1;
    }

    /// Replaces the innermost bracket.
    #[tactic(auto, using(crate::proofs::Stacks::stacks))]
    pub fn replace(&mut self, bracket: Bracket)
        requires { 0 < length self.old }
        ensures { self.new ≡ bracket ∷ drop 1 self.old }
    {
        self.items[self.start] = bracket;
    }
}
