//! Where a `_` may stand in an expression.
//!
//! As an operand of a chain or of backticks that is the whole content of parentheses, before `.label`, or as a scrutinee.

use crate::make::made;
use psc_ast::ExprTree;
use psc_lex::Sign;
use psc_parse_base::{Fault, Next, Parsed, Sym, peek, peek_second, peek_third, sees};
use sqlite_items::Boxed;
use std::alloc::Global;

/// Whether the operands of a chain may be a `_`.
#[derive(Clone, Copy, Debug, PartialEq, Eq)]
pub enum Holes {
    Allowed,
    Refused,
}

/// Whether a `_` comes that no `.label` follows.
pub fn bare_hole(syms: &[Sym]) -> bool {
    sees(syms, Sign::Underscore) && peek_second(syms) != Next::Token(Sign::Dot)
}

fn is_label(next: Next) -> bool {
    match next {
        Next::Token(sign) => sign.is_label(),
        _ => false,
    }
}

/// Whether `{ label =` comes, which begins an update.
fn begins_update(syms: &[Sym]) -> bool {
    sees(syms, Sign::LeftBrace)
        && is_label(peek_second(syms))
        && peek_third(syms) == Next::Token(Sign::Equals)
}

/// Whether `{ label {` comes, which begins an update inside an update.
fn begins_nested_update(syms: &[Sym]) -> bool {
    sees(syms, Sign::LeftBrace)
        && is_label(peek_second(syms))
        && peek_third(syms) == Next::Token(Sign::LeftBrace)
}

/// Whether an update comes behind its subject. One whose first label is updated itself is a form of PureScript.
pub fn update_comes(syms: &[Sym]) -> Result<bool, Fault> {
    if begins_nested_update(syms) {
        Err(Fault::Outside)
    } else {
        Ok(begins_update(syms))
    }
}

/// A `_` that no `.label` follows, if one may stand here. As the subject of an update it is a form of PureScript.
pub fn hole(alloc: Global, syms: &[Sym], holes: Holes) -> Parsed<'_, Boxed<ExprTree>> {
    let [first, rest @ ..] = syms else {
        return Err(Fault::Grammar);
    };
    if update_comes(rest)? {
        return Err(Fault::Outside);
    }
    match holes {
        Holes::Allowed => made(alloc, ExprTree::Hole { span: first.span }, rest),
        Holes::Refused => Err(Fault::Grammar),
    }
}

/// Whether a `_` comes that is the whole value of a field.
pub fn is_field_hole(syms: &[Sym]) -> bool {
    peek(syms) == Next::Token(Sign::Underscore)
        && matches!(
            peek_second(syms),
            Next::Token(Sign::Comma | Sign::RightBrace)
        )
}

/// Whether a `_` comes that is a whole scrutinee.
pub fn is_scrutinee_hole(syms: &[Sym]) -> bool {
    peek(syms) == Next::Token(Sign::Underscore)
        && matches!(peek_second(syms), Next::Token(Sign::Comma | Sign::Of))
}

fn is_hole(expr: &ExprTree) -> bool {
    matches!(expr, ExprTree::Hole { .. })
}

/// Whether calls joined by backticks, or one alone, have a `_` among them.
fn ticks_have_hole(expr: &ExprTree) -> bool {
    match expr {
        ExprTree::Ticks { first, rest, .. } => {
            is_hole(first.get()) || rest.as_slice().iter().any(|step| is_hole(&step.operand))
        }
        other => is_hole(other),
    }
}

fn operand_has_hole(expr: &ExprTree) -> bool {
    match expr {
        ExprTree::Negate { operand, .. } => ticks_have_hole(operand.get()),
        other => ticks_have_hole(other),
    }
}

/// Whether an operand of the chain is a `_`.
pub fn chain_has_hole(expr: &ExprTree) -> bool {
    match expr {
        ExprTree::Chain { first, rest, .. } => {
            operand_has_hole(first.get())
                || rest
                    .as_slice()
                    .iter()
                    .any(|step| operand_has_hole(&step.operand))
        }
        other => operand_has_hole(other),
    }
}
