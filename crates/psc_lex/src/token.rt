//! Tokens, with the marks of the blocks round them.

use crate::sign::Sign;
use psc_text::{Span, Text};

/// A token of a source.
#[derive(Debug, Drop)]
pub struct Tok {
    pub kind: TokKind,
    pub sign: Sign,
    /// The token as it is spelled.
    pub text: Text,
    pub span: Span,
    pub mark: Mark,
}

/// What a token is by its spelling.
#[derive(Clone, Copy, Debug, PartialEq, Eq)]
pub enum TokKind {
    Lower,
    Upper,
    Qualified,
    Integer,
    Str,
    Character,
    /// An operator, a reserved one too.
    Operator,
    /// A bracket, a comma or a backtick.
    Single,
    /// A keyword, one that is a label too.
    Keyword,
    Underscore,
    /// A character that begins no token.
    Wrong,
}

/// The blocks at a token. The blocks that are open behind the last token end there.
#[derive(Clone, Copy, Debug, PartialEq, Eq)]
pub struct Mark {
    /// How many blocks end before the token.
    pub ends: u32,
    /// Whether an item begins with it.
    pub item: bool,
    /// What block it opens.
    pub opens: Opens,
}

impl Mark {
    /// The mark of a token at which no block begins or ends and no item begins.
    pub const NONE: Mark = Mark {
        ends: 0,
        item: false,
        opens: Opens::No,
    };
}

/// The block that a token opens.
#[derive(Clone, Copy, Debug, PartialEq, Eq)]
pub enum Opens {
    No,
    /// A block whose first item begins with the next token.
    Block,
    /// A block with no item.
    Empty,
}
