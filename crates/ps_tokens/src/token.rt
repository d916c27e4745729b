use lists::list::List;

/// A kind of token (after PLRM3, section 3.2, in this project's profile). A number is in ten-thousandths.
#[derive(Clone, Copy, Debug, Drop, PartialEq, Eq)]
pub enum TokenKind {
    /// `<<`
    OpenDict,
    /// `>>`
    CloseDict,
    /// `[`
    OpenArray,
    /// `]`
    CloseArray,
    /// `/` and a name, which may be empty.
    Literal,
    /// A run of regular bytes that is no number.
    Word,
    Number(i64),
    /// A string in parentheses or in hexadecimal digits.
    Text,
}

/// A token, with its first byte's offset in the job and its length in bytes.
#[derive(Clone, Copy, Debug, Drop, PartialEq, Eq)]
pub struct Token {
    pub at: u32,
    pub len: u32,
    pub kind: TokenKind,
}

/// The tokens of a job, in the order of their bytes.
pub type TokenList = List<Token>;
