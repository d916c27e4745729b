ghost use Rattle.std.specs.Prelude.{◌≡◌};
ghost use Rattle.ps_tokens.specs.Objects.{is_dict};

use lists::list::List;
use lists::names::Name;

/// The value of an object. A number is in ten-thousandths.
#[derive(Drop)]
pub enum Body {
    Number(i64),
    Truth(bool),
    Null,
    /// A string. Its content is not kept.
    Text,
    /// The name after a `/`.
    Literal(Name),
    /// A word that is neither `true` nor `false` nor `null`.
    Operator(Name),
    Array,
    Dict,
}

impl Body {
    /// Whether an object is a dictionary.
    pub fn is_dict(&self) -> bool
        ensures { result ≡ is_dict self.now }
    {
        match self {
            Body::Dict => true,
            _ => false,
        }
    }
}

/// An object, with the offset of its first token.
///
/// The objects within an array or a dictionary follow it: `inside` of them, at whatever depth. Within a dictionary
/// each entry is its key, a literal, and then its value with all that stands within the value.
#[derive(Drop)]
pub struct Object {
    pub at: u32,
    pub inside: u32,
    pub body: Body,
}

/// The objects of a job, in the order of their first tokens. A place is a number in this list, from 0.
pub type ObjectList = List<Object>;
