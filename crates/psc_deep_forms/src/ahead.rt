//! What comes behind plain tokens and whole brackets, known at each symbol by one walk from the last symbol to the first.

use psc_lex::Sign;
use psc_parse_base::{Next, Sym};
use psc_text::NoMemory;
use std::alloc::Global;

/// Which tokens come first behind nothing but plain tokens and whole brackets.
#[derive(Clone, Copy)]
pub(crate) struct Ahead {
    /// `<-`, so that a binder comes.
    pub(crate) left_arrow: bool,
    /// `=>`, so that constraints come.
    pub(crate) fat_arrow: bool,
    /// `<=`, so that the classes above a class come.
    pub(crate) less_equal: bool,
    /// `.`, so that the variables of a quantifier come.
    pub(crate) dot: bool,
}

impl Ahead {
    pub(crate) const NOTHING: Ahead = Ahead {
        left_arrow: false,
        fat_arrow: false,
        less_equal: false,
        dot: false,
    };
}

fn begins_bracket(next: Next) -> bool {
    matches!(
        next,
        Next::Token(Sign::LeftParen | Sign::LeftBracket | Sign::LeftBrace)
    )
}

fn ends_bracket(next: Next) -> bool {
    matches!(
        next,
        Next::Token(Sign::RightParen | Sign::RightBracket | Sign::RightBrace)
    )
}

/// Whether the token may stand outside brackets in a binder or a constraint.
fn is_plain(next: Next) -> bool {
    match next {
        Next::Token(sign) => {
            sign.is_lower()
                || sign.is_upper()
                || sign.is_operator()
                || matches!(
                    sign,
                    Sign::At
                        | Sign::Underscore
                        | Sign::Integer
                        | Sign::Str
                        | Sign::Character
                        | Sign::True
                        | Sign::False
                )
        }
        _ => false,
    }
}

/// What comes at a symbol that is no bracket, where `behind` comes behind it.
fn before(next: Next, behind: Ahead) -> Ahead {
    let is_plain = is_plain(next);
    Ahead {
        left_arrow: next == Next::Token(Sign::LeftArrow) || is_plain && behind.left_arrow,
        fat_arrow: next == Next::Token(Sign::FatArrow) || is_plain && behind.fat_arrow,
        less_equal: next == Next::Token(Sign::LessEqual) || is_plain && behind.less_equal,
        dot: next == Next::Token(Sign::Dot) || is_plain && behind.dot,
    }
}

/// The walk over the symbols, from the last one to the first.
#[derive(Drop)]
struct Walk {
    /// What comes at each symbol so far.
    found: Vec<Ahead>,
    /// What comes behind each closing bracket whose opening one has not come yet.
    closers: Vec<Ahead>,
    /// What comes at the symbol before which the walk stands.
    behind: Ahead,
}

impl Walk {
    fn take(&mut self, next: Next) -> Result<(), NoMemory> {
        let at = if ends_bracket(next) {
            self.closers.push(self.behind)?;
            Ahead::NOTHING
        } else if begins_bracket(next) {
            self.closers.pop().unwrap_or(Ahead::NOTHING)
        } else {
            before(next, self.behind)
        };
        self.found.push(at)?;
        self.behind = at;
        Ok(())
    }
}

/// What comes at each symbol, the last symbol first.
pub(crate) fn look_ahead(alloc: Global, syms: &[Sym]) -> Result<Vec<Ahead>, NoMemory> {
    let mut walk = Walk {
        found: Vec::new(alloc),
        closers: Vec::new(alloc),
        behind: Ahead::NOTHING,
    };
    for sym in syms.iter().rev() {
        walk.take(sym.next)?;
    }
    let Walk { found, .. } = walk;
    Ok(found)
}
