//! Binders of one token, and names with `@`.

use psc_ast::{BinderTree, IdentAt, Mention};
use psc_lex::Sign;
use psc_parse_base::{
    Fault, Next, Parsed, Sym, character, eat, ident, integer_value, lower, mention, peek_second,
    string,
};
use sqlite_items::Items;
use std::alloc::Global;

/// Whether a binder comes that may stand among others without parentheses.
pub fn begins_atom(next: Next) -> bool {
    match next {
        Next::Token(sign) => {
            sign.is_lower()
                || sign.is_upper()
                || matches!(
                    sign,
                    Sign::Underscore
                        | Sign::Integer
                        | Sign::Str
                        | Sign::Character
                        | Sign::True
                        | Sign::False
                        | Sign::LeftParen
                        | Sign::LeftBracket
                        | Sign::LeftBrace
                )
        }
        _ => false,
    }
}

/// A constructor without arguments.
fn bare_constructor(alloc: Global, name: Mention) -> BinderTree {
    let span = name.span;
    BinderTree::Constructor {
        name,
        arguments: Items::new(alloc),
        span,
    }
}

/// A literal that is no integer.
fn literal<'a>(alloc: Global, first: &Sym, rest: &'a [Sym]) -> Parsed<'a, BinderTree> {
    let span = first.span;
    match first.next {
        Next::Token(Sign::Str) => {
            let value = string(alloc, first.text.as_str())?;
            Ok((BinderTree::Str { value, span }, rest))
        }
        Next::Token(Sign::Character) => {
            let value = character(alloc, first.text.as_str())?;
            Ok((BinderTree::Character { value, span }, rest))
        }
        Next::Token(Sign::True) => Ok((BinderTree::Boolean { value: true, span }, rest)),
        Next::Token(Sign::False) => Ok((BinderTree::Boolean { value: false, span }, rest)),
        _ => Err(Fault::Grammar),
    }
}

/// A binder of one token.
pub fn token(alloc: Global, syms: &[Sym]) -> Parsed<'_, BinderTree> {
    let [first, rest @ ..] = syms else {
        return Err(Fault::Grammar);
    };
    let span = first.span;
    match first.next {
        Next::Token(Sign::Upper | Sign::QualifiedUpper) => {
            let (name, rest) = mention(alloc, syms)?;
            Ok((bare_constructor(alloc, name), rest))
        }
        Next::Token(Sign::Underscore) => Ok((BinderTree::Wild { span }, rest)),
        Next::Token(Sign::Integer) => {
            let value = integer_value(first.text.as_str(), false);
            Ok((BinderTree::Integer { value, span }, rest))
        }
        _ if lower(syms) => {
            let (name, rest) = ident(syms)?;
            Ok((BinderTree::Variable { name }, rest))
        }
        _ => literal(alloc, first, rest),
    }
}

/// `-` and an integer.
pub fn negative(syms: &[Sym]) -> Parsed<'_, BinderTree> {
    match syms {
        [minus, digits, rest @ ..] if digits.next == Next::Token(Sign::Integer) => {
            let value = integer_value(digits.text.as_str(), true);
            let span = minus.span.to(digits.span);
            Ok((BinderTree::Integer { value, span }, rest))
        }
        _ => Err(Fault::Grammar),
    }
}

/// The names of `x@y@`, as many as come, each with its `@`.
pub fn names_at(alloc: Global, syms: &[Sym]) -> Parsed<'_, Items<IdentAt>> {
    let mut found = Items::new(alloc);
    let mut rest = syms;
    for _turn in 0..syms.len() {
        if !lower(rest) || peek_second(rest) != Next::Token(Sign::At) {
            return Ok((found, rest));
        }
        let (name, after) = ident(rest)?;
        let Some(after) = eat(after, Sign::At) else {
            return Err(Fault::Grammar);
        };
        found.push(name)?;
        rest = after;
    }
    Ok((found, rest))
}
