//! Looking at symbols, and taking them one by one.

ghost use Rattle.std.specs.Prelude.{◌<◌, length, IfSome, IfOk};

use crate::fault::Fault;
use crate::symbol::{Next, Sym};
use psc_lex::Sign;
use psc_text::Span;

/// The symbols without the marks of blocks that end before the first token and of an item that begins with it.
pub fn content(syms: &[Sym]) -> &[Sym] {
    let mut rest = syms;
    for sym in syms {
        match (sym.next, rest) {
            (Next::Close | Next::Item, [_, after @ ..]) => rest = after,
            _ => return rest,
        }
    }
    rest
}

/// What comes next.
pub fn peek(syms: &[Sym]) -> Next {
    match syms {
        [first, ..] => first.next,
        [] => Next::End,
    }
}

/// What comes behind the next symbol.
pub fn peek_second(syms: &[Sym]) -> Next {
    match syms {
        [_, second, ..] => second.next,
        _ => Next::End,
    }
}

/// What comes behind the next two symbols.
pub fn peek_third(syms: &[Sym]) -> Next {
    match syms {
        [_, _, third, ..] => third.next,
        _ => Next::End,
    }
}

/// Whether the token comes next.
pub fn sees(syms: &[Sym], sign: Sign) -> bool {
    peek(syms) == Next::Token(sign)
}

/// What stands behind the symbol, if it comes next.
pub fn eat_next(syms: &[Sym], next: Next) -> Option<&[Sym]>
    ensures shorter { IfSome result (λ rest. length rest.now < length syms.now) }
{
    match syms {
        [first, rest @ ..] if first.next == next => Some(rest),
        _ => None,
    }
}

/// What stands behind the token, if it comes next.
pub fn eat(syms: &[Sym], sign: Sign) -> Option<&[Sym]>
    ensures shorter { IfSome result (λ rest. length rest.now < length syms.now) }
{
    eat_next(syms, Next::Token(sign))
}

/// What stands behind the symbol, which must come next.
pub fn expect_next(syms: &[Sym], next: Next) -> Result<&[Sym], Fault>
    ensures shorter { IfOk result (λ rest. length rest.now < length syms.now) }
{
    match eat_next(syms, next) {
        Some(rest) => Ok(rest),
        None => Err(Fault::Grammar),
    }
}

/// What stands behind the token, which must come next.
pub fn expect(syms: &[Sym], sign: Sign) -> Result<&[Sym], Fault>
    ensures shorter { IfOk result (λ rest. length rest.now < length syms.now) }
{
    expect_next(syms, Next::Token(sign))
}

/// Whether a block with an item begins, and what stands behind its first mark of an item.
/// A block without items gives None and what stands behind it.
pub fn opens_block(syms: &[Sym]) -> Result<(bool, &[Sym]), Fault> {
    if let Some(rest) = eat_next(syms, Next::Empty) {
        return Ok((false, rest));
    }
    let rest = expect_next(syms, Next::Open)?;
    Ok((true, expect_next(rest, Next::Item)?))
}

/// Whether one more item of the block begins behind an item, and what stands behind that mark or behind the block's end.
pub fn goes_on(syms: &[Sym]) -> Result<(bool, &[Sym]), Fault> {
    if let Some(rest) = eat_next(syms, Next::Item) {
        return Ok((true, rest));
    }
    Ok((false, expect_next(syms, Next::Close)?))
}

/// The place from the first symbol to the last one before `rest`, which is what is left of `syms`.
pub fn span_of(syms: &[Sym], rest: &[Sym]) -> Span {
    let taken = syms.len().saturating_sub(rest.len());
    match (syms, syms.get(taken.saturating_sub(1))) {
        ([first, ..], Some(last)) => first.span.to(last.span),
        _ => Span::START,
    }
}

fn begins_bracket(next: Next) -> bool {
    matches!(
        next,
        Next::Token(Sign::LeftParen) | Next::Token(Sign::LeftBracket) | Next::Token(Sign::LeftBrace)
    )
}

fn ends_bracket(next: Next) -> bool {
    matches!(
        next,
        Next::Token(Sign::RightParen)
            | Next::Token(Sign::RightBracket)
            | Next::Token(Sign::RightBrace)
    )
}

/// Whether the token may stand outside brackets in a binder or a constraint.
fn is_plain(next: Next) -> bool {
    match next {
        Next::Token(sign) => {
            sign.is_lower()
                || sign.is_upper()
                || sign.is_operator()
                || matches!(
                    sign,
                    Sign::At
                        | Sign::Underscore
                        | Sign::Integer
                        | Sign::Str
                        | Sign::Character
                        | Sign::True
                        | Sign::False
                )
        }
        _ => false,
    }
}

/// Whether the token comes behind nothing but plain tokens and whole brackets.
pub fn comes(syms: &[Sym], sign: Sign) -> bool {
    let mut depth: usize = 0;
    for sym in syms {
        let next = sym.next;
        if begins_bracket(next) {
            depth = depth.saturating_add(1);
        } else if ends_bracket(next) {
            if depth == 0 {
                return false;
            }
            depth -= 1;
        } else if depth == 0 && next == Next::Token(sign) {
            return true;
        } else if depth == 0 && !is_plain(next) {
            return false;
        }
    }
    false
}
