//! The statements of `do` in plain forms.
//!
//! Resolving made the value of each statement that is handed on a call of `bind` or `discard` with one argument.

use crate::binds::layers_of;
use crate::exprs::expr;
use crate::layers::{Layer, Place, wrap};
use psc_ast::{BinderTree, ExprTree, IdentAt, Stmt};
use psc_plain::{PlainAlt, PlainBinder, PlainExpr};
use psc_plain_parts::{
    Desugar, Stop, alternative, application, binder_alone, case_of_one, enter_names, lambda, made,
};
use psc_text::{Ident, NoMemory, Span};

/// What a statement's value is handed: a function of what the statement binds.
#[derive(Drop)]
enum Handed {
    Named { name: Ident, span: Span },
    Made { number: u32 },
    Matched { number: u32, binder: PlainBinder },
}

/// What stands round the statements behind it.
#[derive(Drop)]
enum Step {
    Call {
        function: PlainExpr,
        handed: Handed,
        span: Span,
    },
    Let {
        layers: Vec<Layer>,
        span: Span,
    },
}

/// The statements of a `do`, the last of which is its value.
#[cycle(exprs)]
pub(crate) fn do_block(
    state: &mut Desugar,
    statements: &[Stmt],
    span: Span,
) -> Result<PlainExpr, Stop> {
    let mut steps = Vec::new(state.alloc);
    let mut place: usize = 0;
    for statement in statements {
        place = place.saturating_add(1);
        if place < statements.len() {
            add_step(state, statement, &mut steps)?;
        } else {
            return last_of(state, statement, &mut steps, span);
        }
    }
    Err(Stop::NoMemory)
}

/// The last statement in the ones before it.
#[cycle(exprs)]
fn last_of(
    state: &mut Desugar,
    statement: &Stmt,
    steps: &mut Vec<Step>,
    span: Span,
) -> Result<PlainExpr, Stop> {
    match statement {
        Stmt::Run { value } => {
            let last = expr(state, value)?;
            Ok(wrap_steps(state, steps, last, span)?)
        }
        // The last statement is an expression.
        Stmt::Binds { .. } | Stmt::Let { .. } => Err(Stop::NoMemory),
    }
}

/// A statement behind which others stand.
#[cycle(exprs)]
fn add_step(state: &mut Desugar, statement: &Stmt, steps: &mut Vec<Step>) -> Result<(), Stop> {
    match statement {
        Stmt::Binds {
            binder: BinderTree::Variable { name },
            value,
            span,
        } => add_named(state, value, name, *span, steps),
        Stmt::Binds {
            binder,
            value,
            span,
        } => add_matched(state, value, binder, *span, steps),
        Stmt::Run { value } => add_run(state, value, steps),
        Stmt::Let { binds, span } => {
            let layers = layers_of(state, binds.as_slice())?;
            steps.push(Step::Let {
                layers,
                span: *span,
            })?;
            Ok(())
        }
    }
}

/// `x <- e`
#[cycle(exprs)]
fn add_named(
    state: &mut Desugar,
    value: &ExprTree,
    name: &IdentAt,
    span: Span,
    steps: &mut Vec<Step>,
) -> Result<(), Stop> {
    let function = expr(state, value)?;
    let step = named_step(function, name, span)?;
    steps.push(step)?;
    state.scope.enter(&name.name.0)?;
    Ok(())
}

fn named_step(function: PlainExpr, name: &IdentAt, span: Span) -> Result<Step, NoMemory> {
    match name.name.clone() {
        Ok(made) => {
            let handed = Handed::Named {
                name: made,
                span: name.span,
            };
            Ok(Step::Call {
                function,
                handed,
                span,
            })
        }
        Err(_) => Err(NoMemory),
    }
}

/// `p <- e` with a binder that is no variable. The value does not see the binder's names.
#[cycle(exprs)]
fn add_matched(
    state: &mut Desugar,
    value: &ExprTree,
    bound: &BinderTree,
    span: Span,
    steps: &mut Vec<Step>,
) -> Result<(), Stop> {
    let number = state.number()?;
    let binder = binder_alone(state, bound)?;
    let handed = Handed::Matched { number, binder };
    let step = step_of(expr(state, value), handed, span)?;
    steps.push(step)?;
    enter_names(&mut state.scope, bound)?;
    Ok(())
}

/// `e` alone
#[cycle(exprs)]
fn add_run(state: &mut Desugar, value: &ExprTree, steps: &mut Vec<Step>) -> Result<(), Stop> {
    let number = state.number()?;
    let handed = Handed::Made { number };
    let step = step_of(expr(state, value), handed, value.span())?;
    steps.push(step)?;
    Ok(())
}

fn step_of(function: Result<PlainExpr, Stop>, handed: Handed, span: Span) -> Result<Step, Stop> {
    match function {
        Ok(function) => Ok(Step::Call {
            function,
            handed,
            span,
        }),
        Err(stop) => Err(stop),
    }
}

/// Puts statements round the last one, from the last to the first.
fn wrap_steps(
    state: &Desugar,
    steps: &mut Vec<Step>,
    last: PlainExpr,
    span: Span,
) -> Result<PlainExpr, NoMemory> {
    let mut whole = last;
    for _ in 0..steps.len() {
        if let Some(step) = steps.pop() {
            whole = wrap_step(state, step, whole, span)?;
        }
    }
    Ok(whole)
}

fn wrap_step(
    state: &Desugar,
    step: Step,
    rest: PlainExpr,
    span: Span,
) -> Result<PlainExpr, NoMemory> {
    match step {
        Step::Let { layers, span: at } => {
            let mut layers = layers;
            let place = Place {
                of_where: false,
                span: at.to(span_end(span)),
            };
            wrap(state.alloc, &mut layers, rest, place)
        }
        Step::Call {
            function,
            handed,
            span: at,
        } => {
            let behind = rest.span();
            match handed_to(state, handed, rest, behind) {
                Ok(argument) => {
                    application(state.alloc, function, argument, at.to(span_end(span)))
                }
                Err(error) => Err(error),
            }
        }
    }
}

/// The empty place at the end of another.
fn span_end(span: Span) -> Span {
    Span {
        line: span.end_line,
        column: span.end_column,
        end_line: span.end_line,
        end_column: span.end_column,
    }
}

fn handed_to(
    state: &Desugar,
    handed: Handed,
    body: PlainExpr,
    span: Span,
) -> Result<PlainExpr, NoMemory> {
    match handed {
        Handed::Named { name, span: at } => lambda(state.alloc, name, at, body, span),
        Handed::Made { number } => made_lambda(state, number, body, span, span),
        Handed::Matched { number, binder } => {
            let at = binder.span();
            let alt = alternative(state.alloc, binder, body, span)?;
            let whole = case_of_made(state, number, alt, at, span)?;
            made_lambda(state, number, whole, at, span)
        }
    }
}

fn made_lambda(
    state: &Desugar,
    number: u32,
    body: PlainExpr,
    at: Span,
    span: Span,
) -> Result<PlainExpr, NoMemory> {
    match state.made(number) {
        Ok(name) => lambda(state.alloc, name, at, body, span),
        Err(error) => Err(error),
    }
}

fn case_of_made(
    state: &Desugar,
    number: u32,
    alt: PlainAlt,
    at: Span,
    span: Span,
) -> Result<PlainExpr, NoMemory> {
    match made(state, number, at) {
        Ok(variable) => case_of_one(state.alloc, variable, alt, span),
        Err(error) => Err(error),
    }
}
