//! `ado` in plain forms.
//!
//! Its steps' values stand under `map` and `apply`, with a function of what the steps bind; resolving made each value the call of
//! `map` or `apply` with it, and a result without steps the call of `pure`. The steps see no name of the others; the `let`s and the
//! result stand in the function, and so see the names of all steps.

use crate::binds::layers_of;
use crate::exprs::expr;
use crate::layers::{Layer, Place, wrap};
use psc_ast::{BinderTree, ExprTree, Stmt};
use psc_plain::{PlainBinder, PlainExpr};
use psc_plain_parts::{
    Desugar, Names, Numbers, Scope, Stop, add_binder, application, enter_names, lambda,
    made_function,
};
use psc_text::{NoMemory, Span, Text};
use sqlite_items::Items;
use std::alloc::Global;
use std::collections::VecDeque;
use std::mem;

/// The items of an `ado` that were met so far.
#[derive(Drop)]
struct Applied {
    /// How many steps there are.
    count: usize,
    /// Whether each step binds a variable.
    variables: bool,
    /// The made names of the steps, where one binds no variable.
    numbers: Numbers,
    /// The names that the steps bind, which are one list.
    names: Names,
    /// The names that the next `let` and the result see.
    inner: Vec<Text>,
    binders: Items<PlainBinder>,
    calls: VecDeque<PlainExpr>,
    layers: Vec<Layer>,
}

/// An `ado`.
#[cycle(exprs)]
pub(crate) fn ado(state: &mut Desugar, tree: &ExprTree) -> Result<PlainExpr, Stop> {
    match tree {
        ExprTree::Ado {
            statements,
            result,
            span,
        } => {
            let mut items = open_ado(state, statements.as_slice())?;
            add_items(state, statements.as_slice(), &mut items)?;
            state.scope.enter_all(&items.inner)?;
            if items.count == 0 {
                return pure_of(state, result.get(), &mut items.layers, *span);
            }
            let body = result_of(state, result.get(), &mut items.layers, *span)?;
            Ok(joined(state, &mut items, body, *span)?)
        }
        _ => Err(Stop::NoMemory),
    }
}

/// What is known of an `ado` before its items are read.
fn open_ado(state: &mut Desugar, statements: &[Stmt]) -> Result<Applied, NoMemory> {
    let count = steps_of(statements);
    let variables = steps_are_variables(statements);
    let numbers = state.numbers(if variables { 0 } else { count })?;
    let inner = names_of(state, statements)?;
    Ok(Applied {
        count,
        variables,
        numbers,
        names: Names::none(state.alloc),
        inner,
        binders: Items::new(state.alloc),
        calls: VecDeque::new(state.alloc),
        layers: Vec::new(state.alloc),
    })
}

fn steps_of(statements: &[Stmt]) -> usize {
    let mut count: usize = 0;
    for one in statements {
        match one {
            Stmt::Binds { .. } | Stmt::Run { .. } => count = count.saturating_add(1),
            Stmt::Let { .. } => {}
        }
    }
    count
}

/// Whether each step binds a variable.
fn steps_are_variables(statements: &[Stmt]) -> bool {
    for one in statements {
        match one {
            Stmt::Binds {
                binder: BinderTree::Variable { .. },
                ..
            }
            | Stmt::Let { .. } => {}
            Stmt::Binds { .. } | Stmt::Run { .. } => return false,
        }
    }
    true
}

/// The names that the steps bind, which are in no scope behind it.
fn names_of(state: &mut Desugar, statements: &[Stmt]) -> Result<Vec<Text>, NoMemory> {
    let mark = state.scope.mark();
    enter_steps(&mut state.scope, statements)?;
    let mut inner = Vec::new(state.alloc);
    state.scope.add_since(mark, &mut inner)?;
    state.scope.leave(mark);
    Ok(inner)
}

fn enter_steps(scope: &mut Scope, statements: &[Stmt]) -> Result<(), NoMemory> {
    for one in statements {
        match one {
            Stmt::Binds { binder, .. } => enter_names(scope, binder)?,
            Stmt::Run { .. } | Stmt::Let { .. } => {}
        }
    }
    Ok(())
}

#[cycle(exprs)]
fn add_items(state: &mut Desugar, statements: &[Stmt], items: &mut Applied) -> Result<(), Stop> {
    for one in statements {
        add_item(state, one, items)?;
    }
    Ok(())
}

#[cycle(exprs)]
fn add_item(state: &mut Desugar, one: &Stmt, items: &mut Applied) -> Result<(), Stop> {
    match one {
        Stmt::Let { .. } => add_let(state, one, items),
        Stmt::Binds { binder, value, .. } => {
            let mark = state.scope.mark();
            add_binder(state, binder, &mut items.names, &mut items.binders)?;
            state.scope.leave(mark);
            add_call(state, value, &mut items.calls)
        }
        Stmt::Run { value } => {
            items
                .binders
                .push(PlainBinder::Wild { span: value.span() })?;
            add_call(state, value, &mut items.calls)
        }
    }
}

#[cycle(exprs)]
fn add_call(
    state: &mut Desugar,
    value: &ExprTree,
    calls: &mut VecDeque<PlainExpr>,
) -> Result<(), Stop> {
    let call = expr(state, value)?;
    calls.push_back(call)?;
    Ok(())
}

/// A `let` item, whose names the later ones and the result see.
#[cycle(exprs)]
fn add_let(state: &mut Desugar, one: &Stmt, items: &mut Applied) -> Result<(), Stop> {
    match one {
        Stmt::Let { binds, .. } => {
            let mark = state.scope.mark();
            state.scope.enter_all(&items.inner)?;
            let own = state.scope.mark();
            let mut layers = layers_of(state, binds.as_slice())?;
            items.layers.append(&mut layers)?;
            state.scope.add_since(own, &mut items.inner)?;
            state.scope.leave(mark);
            Ok(())
        }
        Stmt::Binds { .. } | Stmt::Run { .. } => Ok(()),
    }
}

fn place_of(span: Span) -> Place {
    Place {
        of_where: false,
        span,
    }
}

/// The result in the `let`s.
#[cycle(exprs)]
fn result_of(
    state: &mut Desugar,
    value: &ExprTree,
    layers: &mut Vec<Layer>,
    span: Span,
) -> Result<PlainExpr, Stop> {
    let body = expr(state, value)?;
    Ok(wrap(state.alloc, layers, body, place_of(span))?)
}

/// Where there is no step, `pure` stands round both.
#[cycle(exprs)]
fn pure_of(
    state: &mut Desugar,
    value: &ExprTree,
    layers: &mut Vec<Layer>,
    span: Span,
) -> Result<PlainExpr, Stop> {
    match value {
        ExprTree::Call {
            function,
            arguments,
            ..
        } => {
            let mut whole = expr(state, function.get())?;
            for argument in arguments.as_slice() {
                whole = pure_applied(state, argument, whole, layers, span)?;
            }
            Ok(whole)
        }
        _ => result_of(state, value, layers, span),
    }
}

#[cycle(exprs)]
fn pure_applied(
    state: &mut Desugar,
    argument: &ExprTree,
    function: PlainExpr,
    layers: &mut Vec<Layer>,
    span: Span,
) -> Result<PlainExpr, Stop> {
    match result_of(state, argument, layers, span) {
        Ok(argument) => Ok(application(state.alloc, function, argument, span)?),
        Err(stop) => Err(stop),
    }
}

/// The steps' values with the function of what the steps bind.
fn joined(
    state: &Desugar,
    items: &mut Applied,
    body: PlainExpr,
    span: Span,
) -> Result<PlainExpr, NoMemory> {
    let mut whole = if items.variables {
        named_function(state.alloc, &mut items.binders, body, span)?
    } else {
        let binders = take_binders(state.alloc, &mut items.binders);
        made_function(state, items.numbers, binders, body, span)?
    };
    for _ in 0..items.calls.len() {
        if let Some(call) = items.calls.pop_front() {
            whole = ado_call(state.alloc, call, whole, span)?;
        }
    }
    Ok(whole)
}

fn take_binders(alloc: Global, binders: &mut Items<PlainBinder>) -> Items<PlainBinder> {
    mem::replace(binders, Items::new(alloc))
}

/// A function of variables, which are taken from the last to the first.
fn named_function(
    alloc: Global,
    binders: &mut Items<PlainBinder>,
    body: PlainExpr,
    span: Span,
) -> Result<PlainExpr, NoMemory> {
    let mut whole = body;
    for _ in 0..binders.len() {
        if let Some(PlainBinder::Variable { name, span: at }) = binders.pop() {
            whole = lambda(alloc, name, at, whole, span)?;
        }
    }
    Ok(whole)
}

/// Puts what stands before a step between the step's function and its value.
fn ado_call(
    alloc: Global,
    call: PlainExpr,
    before: PlainExpr,
    span: Span,
) -> Result<PlainExpr, NoMemory> {
    match call {
        PlainExpr::Application {
            function,
            argument,
            span: at,
        } => match application(alloc, function.into_inner(), before, at) {
            Ok(one) => application(alloc, one, argument.into_inner(), span),
            Err(error) => Err(error),
        },
        other => application(alloc, other, before, span),
    }
}
