//! Trees out of parts that are read.

use crate::leaf::labels;
use crate::underscore::chain_has_hole;
use psc_ast::{ExprTree, Mention};
use psc_lex::Sign;
use psc_parse_base::{Fault, Next, Parsed, Sym, eat, expect, mention, peek, sees, span_of};
use psc_parse_type::whole_type;
use sqlite_items::Boxed;
use std::alloc::Global;

/// The tree, boxed as other trees hold it, and what stands behind it.
pub fn made(alloc: Global, tree: ExprTree, rest: &[Sym]) -> Parsed<'_, Boxed<ExprTree>> {
    Ok((Boxed::new(alloc, tree)?, rest))
}

/// What was read, boxed as other trees hold it.
pub fn boxed(alloc: Global, read: Parsed<'_, ExprTree>) -> Parsed<'_, Boxed<ExprTree>> {
    let (tree, rest) = read?;
    made(alloc, tree, rest)
}

/// The subject with the labels behind it, if there are any; `syms` begins with the subject.
pub fn accessed<'a>(
    alloc: Global,
    syms: &'a [Sym],
    subject: Boxed<ExprTree>,
    rest: &'a [Sym],
) -> Parsed<'a, Boxed<ExprTree>> {
    let (labels, rest) = labels(alloc, rest)?;
    if labels.is_empty() {
        return Ok((subject, rest));
    }
    made(
        alloc,
        ExprTree::Access {
            subject,
            labels,
            span: span_of(syms, rest),
        },
        rest,
    )
}

/// The value with the type behind it, if `::` comes; `syms` begins with the value. A type stands behind no chain with a `_`.
pub fn typed<'a>(
    alloc: Global,
    syms: &'a [Sym],
    value: Boxed<ExprTree>,
    rest: &'a [Sym],
) -> Parsed<'a, Boxed<ExprTree>> {
    let Some(after) = eat(rest, Sign::DoubleColon) else {
        return Ok((value, rest));
    };
    if chain_has_hole(value.get()) {
        return Err(Fault::Grammar);
    }
    let (x_type, rest) = whole_type(alloc, after)?;
    made(
        alloc,
        ExprTree::Typed {
            value,
            x_type,
            span: span_of(syms, rest),
        },
        rest,
    )
}

/// Whether a variable or constructor comes.
fn begins_ticked(next: Next) -> bool {
    match next {
        Next::Token(sign) => sign.is_lower() || sign.is_upper() || sign == Sign::QualifiedLower,
        _ => false,
    }
}

/// A variable or constructor in backticks, from the first one on. No `-` stands behind it.
pub fn ticked(alloc: Global, syms: &[Sym]) -> Parsed<'_, Mention> {
    let inside = expect(syms, Sign::Tick)?;
    if !begins_ticked(peek(inside)) {
        return Err(Fault::Grammar);
    }
    let (found, rest) = mention(alloc, inside)?;
    let rest = expect(rest, Sign::Tick)?;
    if sees(rest, Sign::Minus) {
        return Err(Fault::Grammar);
    }
    Ok((found, rest))
}

/// What stands behind a `-` that is no part of a literal, if one comes. No second `-` stands behind it.
pub fn minus_alone(syms: &[Sym]) -> Result<Option<&[Sym]>, Fault> {
    let Some(rest) = eat(syms, Sign::Minus) else {
        return Ok(None);
    };
    match peek(rest) {
        Next::Token(Sign::Integer) => Ok(None),
        Next::Token(Sign::Minus) => Err(Fault::Grammar),
        _ => Ok(Some(rest)),
    }
}
