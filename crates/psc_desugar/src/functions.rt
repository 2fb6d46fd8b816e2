//! Functions of binders. Variables keep their names; other binders are a case of made names.

use crate::exprs::expr;
use psc_ast::{BinderTree, ExprTree};
use psc_plain::PlainExpr;
use psc_plain_parts::{Desugar, Stop, all_variables, binder_list, lambda, made_function};
use psc_text::{NoMemory, Span};
use std::alloc::Global;

/// Brings the variables of a binder list into scope. Wrong with OverlappingNamesInLet at one that stands there already.
pub(crate) fn enter_variables(state: &mut Desugar, list: &[BinderTree]) -> Result<(), Stop> {
    let mut names = state.names();
    for tree in list {
        if let BinderTree::Variable { name } = tree {
            names.add(&name.name.0, name.span)?;
            state.scope.enter(&name.name.0)?;
        }
    }
    Ok(())
}

/// Functions of written names round an expression.
pub(crate) fn named_lambdas(
    alloc: Global,
    list: &[BinderTree],
    body: PlainExpr,
    span: Span,
) -> Result<PlainExpr, NoMemory> {
    let mut whole = body;
    for tree in list.iter().rev() {
        whole = named_lambda(alloc, tree, whole, span)?;
    }
    Ok(whole)
}

fn named_lambda(
    alloc: Global,
    tree: &BinderTree,
    body: PlainExpr,
    span: Span,
) -> Result<PlainExpr, NoMemory> {
    match tree {
        BinderTree::Variable { name } => match name.name.clone() {
            Ok(made) => lambda(alloc, made, name.span, body, span),
            Err(_) => Err(NoMemory),
        },
        _ => Ok(body),
    }
}

/// A written function, whose names are bound in its body alone.
#[cycle(exprs)]
pub(crate) fn function(
    state: &mut Desugar,
    body: &ExprTree,
    list: &[BinderTree],
    span: Span,
) -> Result<PlainExpr, Stop> {
    let mark = state.scope.mark();
    let whole = function_of(state, body, list, span)?;
    state.scope.leave(mark);
    Ok(whole)
}

#[cycle(exprs)]
fn function_of(
    state: &mut Desugar,
    body: &ExprTree,
    list: &[BinderTree],
    span: Span,
) -> Result<PlainExpr, Stop> {
    if all_variables(list) {
        enter_variables(state, list)?;
        let body = expr(state, body)?;
        Ok(named_lambdas(state.alloc, list, body, span)?)
    } else {
        made_function_of(state, body, list, span)
    }
}

#[cycle(exprs)]
fn made_function_of(
    state: &mut Desugar,
    body: &ExprTree,
    list: &[BinderTree],
    span: Span,
) -> Result<PlainExpr, Stop> {
    let numbers = state.numbers(list.len())?;
    let binders = binder_list(state, list)?;
    match expr(state, body) {
        Ok(body) => Ok(made_function(state, numbers, binders, body, span)?),
        Err(stop) => Err(stop),
    }
}
