//! Atoms of one token, and labels behind dots.

use crate::make::boxed;
use psc_ast::{ExprTree, LabelAt};
use psc_lex::Sign;
use psc_parse_base::{
    Fault, Next, Parsed, Sym, character, eat, integer_value, label, mention, string,
};
use sqlite_items::{Boxed, Items};
use std::alloc::Global;

/// The labels of `.a.b`, as many as come.
pub fn labels(alloc: Global, syms: &[Sym]) -> Parsed<'_, Items<LabelAt>> {
    let mut found = Items::new(alloc);
    let mut rest = syms;
    for _turn in 0..syms.len() {
        let Some(after) = eat(rest, Sign::Dot) else {
            return Ok((found, rest));
        };
        let (next, after) = label(alloc, after)?;
        found.push(next)?;
        rest = after;
    }
    Ok((found, rest))
}

fn text<'a>(alloc: Global, first: &Sym, rest: &'a [Sym]) -> Parsed<'a, ExprTree> {
    let value = string(alloc, first.text.as_str())?;
    Ok((
        ExprTree::Str {
            value,
            span: first.span,
        },
        rest,
    ))
}

fn letter<'a>(alloc: Global, first: &Sym, rest: &'a [Sym]) -> Parsed<'a, ExprTree> {
    let value = character(alloc, first.text.as_str())?;
    Ok((
        ExprTree::Character {
            value,
            span: first.span,
        },
        rest,
    ))
}

/// A literal that is no integer, or a `_`.
fn literal<'a>(alloc: Global, sign: Sign, first: &Sym, rest: &'a [Sym]) -> Parsed<'a, ExprTree> {
    let span = first.span;
    match sign {
        Sign::Str => text(alloc, first, rest),
        Sign::Character => letter(alloc, first, rest),
        Sign::True => Ok((ExprTree::Boolean { value: true, span }, rest)),
        Sign::False => Ok((ExprTree::Boolean { value: false, span }, rest)),
        Sign::Underscore => Ok((ExprTree::Hole { span }, rest)),
        _ => Err(Fault::Grammar),
    }
}

/// An integer with the `-` before it.
fn negative(syms: &[Sym]) -> Parsed<'_, ExprTree> {
    match syms {
        [minus, digits, rest @ ..] if digits.next == Next::Token(Sign::Integer) => {
            let value = integer_value(digits.text.as_str(), true);
            Ok((
                ExprTree::Integer {
                    value,
                    span: minus.span.to(digits.span),
                },
                rest,
            ))
        }
        _ => Err(Fault::Grammar),
    }
}

fn integer<'a>(first: &Sym, rest: &'a [Sym]) -> Parsed<'a, ExprTree> {
    let value = integer_value(first.text.as_str(), false);
    Ok((
        ExprTree::Integer {
            value,
            span: first.span,
        },
        rest,
    ))
}

/// A variable, constructor or operator of one token.
fn named(alloc: Global, syms: &[Sym], sign: Sign) -> Parsed<'_, ExprTree> {
    let (name, rest) = mention(alloc, syms)?;
    if sign.is_upper() {
        return Ok((ExprTree::Constructor { name }, rest));
    }
    if sign == Sign::QualifiedParenthesized {
        let span = name.span;
        return Ok((ExprTree::Operator { name, span }, rest));
    }
    Ok((ExprTree::Variable { name }, rest))
}

/// An atom of one token, or an integer with its `-`.
fn unboxed(alloc: Global, syms: &[Sym]) -> Parsed<'_, ExprTree> {
    let [first, rest @ ..] = syms else {
        return Err(Fault::Grammar);
    };
    let Next::Token(sign) = first.next else {
        return Err(Fault::Grammar);
    };
    match sign {
        Sign::Integer => integer(first, rest),
        Sign::Minus => negative(syms),
        Sign::Lower
        | Sign::Forall
        | Sign::As
        | Sign::Hiding
        | Sign::Upper
        | Sign::QualifiedLower
        | Sign::QualifiedUpper
        | Sign::QualifiedParenthesized => named(alloc, syms, sign),
        _ => literal(alloc, sign, first, rest),
    }
}

/// An atom of one token, or an integer with its `-`.
pub fn token(alloc: Global, syms: &[Sym]) -> Parsed<'_, Boxed<ExprTree>> {
    boxed(alloc, unboxed(alloc, syms))
}
