//! Brackets and the keywords that are answered by another one, as a stack of those that are open.

ghost use Rattle.std.specs.Prelude.{◌<◌, length, IfSome};

use crate::sign::Sign;
use psc_text::NoMemory;
use std::alloc::Global;

/// What waits for its partner.
#[derive(Clone, Copy, Debug, PartialEq, Eq)]
pub(crate) enum OpenerKind {
    Parenthesis,
    Bracket,
    Brace,
    If,
    Then,
    Case,
}

/// What the sign waits for, if it opens something.
fn opened_by(sign: Sign) -> Option<OpenerKind> {
    match sign {
        Sign::LeftParen => Some(OpenerKind::Parenthesis),
        Sign::LeftBracket => Some(OpenerKind::Bracket),
        Sign::LeftBrace => Some(OpenerKind::Brace),
        Sign::If => Some(OpenerKind::If),
        Sign::Then => Some(OpenerKind::Then),
        Sign::Case => Some(OpenerKind::Case),
        _ => None,
    }
}

/// The opener that the sign is the partner of.
pub(crate) fn closed_by(sign: Sign) -> Option<OpenerKind> {
    match sign {
        Sign::RightParen => Some(OpenerKind::Parenthesis),
        Sign::RightBracket => Some(OpenerKind::Bracket),
        Sign::RightBrace => Some(OpenerKind::Brace),
        Sign::Then => Some(OpenerKind::If),
        Sign::Else => Some(OpenerKind::Then),
        Sign::Of => Some(OpenerKind::Case),
        _ => None,
    }
}

/// Of which kinds an opener is open. Kept beside each opener, so that a closer without a partner
/// costs no search.
#[derive(Clone, Copy, Debug)]
struct Kinds {
    parenthesis: bool,
    bracket: bool,
    brace: bool,
    if_word: bool,
    then_word: bool,
    case_word: bool,
}

impl Kinds {
    const NONE: Kinds = Kinds {
        parenthesis: false,
        bracket: false,
        brace: false,
        if_word: false,
        then_word: false,
        case_word: false,
    };

    fn has(self, kind: OpenerKind) -> bool {
        match kind {
            OpenerKind::Parenthesis => self.parenthesis,
            OpenerKind::Bracket => self.bracket,
            OpenerKind::Brace => self.brace,
            OpenerKind::If => self.if_word,
            OpenerKind::Then => self.then_word,
            OpenerKind::Case => self.case_word,
        }
    }

    fn with(self, kind: OpenerKind) -> Kinds {
        Kinds {
            parenthesis: self.parenthesis || kind == OpenerKind::Parenthesis,
            bracket: self.bracket || kind == OpenerKind::Bracket,
            brace: self.brace || kind == OpenerKind::Brace,
            if_word: self.if_word || kind == OpenerKind::If,
            then_word: self.then_word || kind == OpenerKind::Then,
            case_word: self.case_word || kind == OpenerKind::Case,
        }
    }
}

#[derive(Clone, Copy, Debug)]
struct Opener {
    kind: OpenerKind,
    /// How many blocks were open before it.
    blocks: usize,
    /// The kinds of the openers up to this one.
    kinds: Kinds,
}

/// What is open, outermost first.
#[derive(Debug, Drop)]
pub(crate) struct Openers {
    stack: Vec<Opener>,
}

impl Openers {
    pub(crate) fn new(alloc: Global) -> Openers {
        Openers {
            stack: Vec::new(alloc),
        }
    }

    pub(crate) fn len(&self) -> usize {
        self.stack.len()
    }

    fn kinds(&self) -> Kinds {
        match self.stack.as_slice() {
            [.., last] => last.kinds,
            [] => Kinds::NONE,
        }
    }

    /// Whether an opener of this kind has no partner yet.
    pub(crate) fn has(&self, kind: OpenerKind) -> bool {
        self.kinds().has(kind)
    }

    /// Whether a bracket is open.
    pub(crate) fn has_bracket(&self) -> bool {
        let kinds = self.kinds();
        kinds.parenthesis || kinds.bracket || kinds.brace
    }

    /// How many blocks were open before the innermost opener.
    pub(crate) fn blocks_before_last(&self) -> usize {
        match self.stack.as_slice() {
            [.., last] => last.blocks,
            [] => 0,
        }
    }

    /// Drops the openers behind the first so many.
    pub(crate) fn keep(&mut self, count: usize) {
        self.stack.truncate(count);
    }

    /// Drops the innermost opener of this kind, and those inside it, and answers how many blocks
    /// were open before it. None where none is open.
    pub(crate) fn close(&mut self, kind: OpenerKind) -> Option<usize> {
        if !self.has(kind) {
            return None;
        }
        'openers: while let Some(opener) = self.stack.pop() {
            if opener.kind == kind {
                return Some(opener.blocks);
            }
        }
        None
    }

    /// Enters what the sign opens, if it opens something, inside so many blocks.
    pub(crate) fn enter(&mut self, sign: Sign, blocks: usize) -> Result<(), NoMemory> {
        if let Some(kind) = opened_by(sign) {
            let kinds = self.kinds().with(kind);
            self.stack.push(Opener {
                kind,
                blocks,
                kinds,
            })?;
        }
        Ok(())
    }
}
