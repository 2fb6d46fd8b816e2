//! Calls, operators and names in backticks: one argument at a time.
//!
//! Each application begins where the whole does and ends with its argument; parentheses count.

use crate::exprs::{atom, expr};
use psc_ast::{ExprTree, Mention, TickStep};
use psc_plain::PlainExpr;
use psc_plain_parts::{Desugar, Stop, application, value};
use psc_text::{NoMemory, Span};

/// A function that is plain already applied to an argument that is written.
#[cycle(exprs)]
fn applied_to(
    state: &mut Desugar,
    argument: &ExprTree,
    function: PlainExpr,
    span: Span,
) -> Result<PlainExpr, Stop> {
    match expr(state, argument) {
        Ok(argument) => Ok(application(state.alloc, function, argument, span)?),
        Err(stop) => Err(stop),
    }
}

/// An operator, a row of backticks or a call.
#[cycle(exprs)]
pub(crate) fn applied(state: &mut Desugar, tree: &ExprTree) -> Result<PlainExpr, Stop> {
    match tree {
        ExprTree::Operation {
            op,
            left,
            right,
            span,
        } => {
            let function = value(op)?;
            let one = applied_to(state, left.get(), function, *span)?;
            applied_to(state, right.get(), one, *span)
        }
        ExprTree::Ticks { first, rest, .. } => {
            let start = first.get().span();
            let mut whole = expr(state, first.get())?;
            for step in rest.as_slice() {
                whole = tick(state, step, whole, start)?;
            }
            Ok(whole)
        }
        ExprTree::Call {
            function,
            arguments,
            ..
        } => {
            let start = function.get().span();
            let mut whole = expr(state, function.get())?;
            for argument in arguments.as_slice() {
                let span = start.to(argument.span());
                whole = applied_to(state, argument, whole, span)?;
            }
            Ok(whole)
        }
        _ => atom(state, tree),
    }
}

/// A name in backticks with what stands before it and its right operand. Both applications have the place of both.
#[cycle(exprs)]
fn tick(
    state: &mut Desugar,
    step: &TickStep,
    left: PlainExpr,
    start: Span,
) -> Result<PlainExpr, Stop> {
    let span = start.to(step.operand.span());
    note(state, &step.name)?;
    let function = ticked(state, &step.name, left, span)?;
    applied_to(state, &step.operand, function, span)
}

/// Notes the mention of a name, if it is a local one.
fn note(state: &mut Desugar, name: &Mention) -> Result<(), NoMemory> {
    if name.name.module.is_none() {
        state.scope.mention(&name.name.name)?;
    }
    Ok(())
}

/// A name in backticks applied to what stands before it.
fn ticked(
    state: &Desugar,
    name: &Mention,
    left: PlainExpr,
    span: Span,
) -> Result<PlainExpr, NoMemory> {
    match value(name) {
        Ok(function) => application(state.alloc, function, left, span),
        Err(error) => Err(error),
    }
}
