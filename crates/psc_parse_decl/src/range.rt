//! Integer literals that are no 32-bit signed integers.

use psc_lex::Sign;
use psc_parse_base::{Next, Sym, is_out_of_range};
use psc_text::{NoMemory, Span, Text};
use std::alloc::Global;

/// A literal that is out of range, with its `-`.
#[derive(Drop)]
pub struct WideLiteral {
    pub text: Text,
    pub span: Span,
}

/// Whether an operand may end with this symbol, so that a `-` behind it is an operator and no sign.
fn ends_operand(next: Next) -> bool {
    match next {
        Next::Token(sign) => {
            sign.is_lower()
                || sign.is_upper()
                || matches!(
                    sign,
                    Sign::QualifiedLower
                        | Sign::QualifiedParenthesized
                        | Sign::LabelKeyword
                        | Sign::True
                        | Sign::False
                        | Sign::Integer
                        | Sign::Str
                        | Sign::Character
                        | Sign::RightParen
                        | Sign::RightBracket
                        | Sign::RightBrace
                        | Sign::Underscore
                )
        }
        Next::Close | Next::Empty => true,
        Next::Open | Next::Item | Next::End => false,
    }
}

/// The literal with its `-`, if it has one.
fn wide(alloc: Global, digits: &Sym, minus: Option<Span>) -> Result<WideLiteral, NoMemory> {
    match minus {
        None => Ok(WideLiteral {
            text: digits.text.clone()?,
            span: digits.span,
        }),
        Some(minus) => {
            let text = format!(in alloc; "-{}", digits.text.as_str())?;
            Ok(WideLiteral {
                text: Text::from_string(text)?,
                span: minus.to(digits.span),
            })
        }
    }
}

/// The first literal of an item that is out of range. The item is of the grammar, so that a `-` behind no operand is a sign.
pub fn first_wide(alloc: Global, item: &[Sym]) -> Result<Option<WideLiteral>, NoMemory> {
    let mut minus: Option<Span> = None;
    let mut ended = false;
    for sym in item {
        let is_integer = sym.next == Next::Token(Sign::Integer);
        if is_integer && is_out_of_range(sym.text.as_str(), minus.is_some()) {
            return Ok(Some(wide(alloc, sym, minus)?));
        }
        let is_sign = sym.next == Next::Token(Sign::Minus) && !ended;
        minus = if is_sign { Some(sym.span) } else { None };
        ended = ends_operand(sym.next);
    }
    Ok(None)
}
