//! Right sides: branches with their `where`, guards and their tests.

use crate::binds::layers_of;
use crate::exprs::expr;
use crate::layers::{Place, wrap};
use psc_ast::{Alt, Bind, BinderTree, Branch, Guard, Rhs, Test};
use psc_plain::{PlainAlt, PlainBinder, PlainExpr, PlainGuard, PlainRhs, PlainTest};
use psc_plain_parts::{
    Desugar, Scope, Stop, binder_alone, binder_list, boxed, case_of_nothing, enter_names,
};
use psc_text::{NoMemory, Span};
use sqlite_items::Items;

/// The value of a right side without arguments. Guards are a case of nothing.
#[cycle(exprs)]
pub(crate) fn right_value(state: &mut Desugar, rhs: &Rhs, span: Span) -> Result<PlainExpr, Stop> {
    match rhs {
        Rhs::Plain(branch) => branch_of(state, branch),
        Rhs::Guarded(_) => {
            let rhs = right_side(state, rhs)?;
            Ok(case_of_nothing(state.alloc, rhs, span)?)
        }
    }
}

/// An alternative of binders, whose names are bound in its right side alone.
#[cycle(exprs)]
pub(crate) fn alternative_of(
    state: &mut Desugar,
    rhs: &Rhs,
    list: &[BinderTree],
    span: Span,
) -> Result<PlainAlt, Stop> {
    let mark = state.scope.mark();
    let binders = binder_list(state, list)?;
    match right_side(state, rhs) {
        Ok(rhs) => {
            state.scope.leave(mark);
            Ok(PlainAlt { binders, rhs, span })
        }
        Err(stop) => Err(stop),
    }
}

/// The alternatives of a `case`.
#[cycle(exprs)]
pub(crate) fn alternatives(state: &mut Desugar, list: &[Alt]) -> Result<Items<PlainAlt>, Stop> {
    let mut plain = Items::new(state.alloc);
    for one in list {
        add_alternative(state, one, &mut plain)?;
    }
    Ok(plain)
}

#[cycle(exprs)]
fn add_alternative(
    state: &mut Desugar,
    one: &Alt,
    plain: &mut Items<PlainAlt>,
) -> Result<(), Stop> {
    let alt = alternative_of(state, &one.rhs, one.binders.as_slice(), one.span)?;
    plain.push(alt)?;
    Ok(())
}

#[cycle(exprs)]
fn right_side(state: &mut Desugar, rhs: &Rhs) -> Result<PlainRhs, Stop> {
    match rhs {
        Rhs::Plain(branch) => {
            let body = branch_of(state, branch)?;
            Ok(PlainRhs::Body(boxed(state.alloc, body)?))
        }
        Rhs::Guarded(list) => {
            let guards = guards(state, list.as_slice())?;
            Ok(PlainRhs::Guarded(guards))
        }
    }
}

#[cycle(exprs)]
fn guards(state: &mut Desugar, list: &[Guard]) -> Result<Items<PlainGuard>, Stop> {
    let mut plain = Items::new(state.alloc);
    for one in list {
        add_guard(state, one, &mut plain)?;
    }
    Ok(plain)
}

#[cycle(exprs)]
fn add_guard(
    state: &mut Desugar,
    guard: &Guard,
    plain: &mut Items<PlainGuard>,
) -> Result<(), Stop> {
    let one = guard_of(state, guard)?;
    plain.push(one)?;
    Ok(())
}

/// Tests and the branch behind them, in which the names of the tests' binders are bound.
#[cycle(exprs)]
fn guard_of(state: &mut Desugar, guard: &Guard) -> Result<PlainGuard, Stop> {
    let mark = state.scope.mark();
    let tests = tests(state, guard.tests.as_slice())?;
    match branch_of(state, &guard.branch) {
        Ok(body) => {
            state.scope.leave(mark);
            Ok(PlainGuard {
                tests,
                body: boxed(state.alloc, body)?,
                span: guard.span,
            })
        }
        Err(stop) => Err(stop),
    }
}

#[cycle(exprs)]
fn tests(state: &mut Desugar, list: &[Test]) -> Result<Items<PlainTest>, Stop> {
    let mut plain = Items::new(state.alloc);
    for one in list {
        add_test(state, one, &mut plain)?;
    }
    Ok(plain)
}

#[cycle(exprs)]
fn add_test(state: &mut Desugar, test: &Test, plain: &mut Items<PlainTest>) -> Result<(), Stop> {
    let one = test_of(state, test)?;
    plain.push(one)?;
    Ok(())
}

/// A test. The names of its binder are bound behind it, and not in its own value.
#[cycle(exprs)]
fn test_of(state: &mut Desugar, test: &Test) -> Result<PlainTest, Stop> {
    match test {
        Test::Holds { value } => {
            let value = expr(state, value)?;
            Ok(PlainTest::Holds(value))
        }
        Test::Binds {
            binder: bound,
            value,
            span,
        } => {
            let binder = binder_alone(state, bound)?;
            let test = binding_test(binder, expr(state, value), *span)?;
            match enter_names(&mut state.scope, bound) {
                Ok(()) => Ok(test),
                Err(_) => Err(Stop::NoMemory),
            }
        }
    }
}

fn binding_test(
    binder: PlainBinder,
    value: Result<PlainExpr, Stop>,
    span: Span,
) -> Result<PlainTest, Stop> {
    match value {
        Ok(value) => Ok(PlainTest::Binds {
            binder,
            value,
            span,
        }),
        Err(stop) => Err(stop),
    }
}

/// Brings the names of bindings into scope, as if binders had bound them. What is wrong with them is found later.
fn enter_bound(scope: &mut Scope, binds: &[Bind]) -> Result<(), NoMemory> {
    for bind in binds {
        match bind {
            Bind::Clause(clause) => scope.enter(&clause.name.name.0)?,
            Bind::Value { binder, .. } => enter_names(scope, binder)?,
            Bind::Sig(_) => (),
        }
    }
    Ok(())
}

/// An expression in the `let` of its `where`, if it has one. The expression stands before the bindings, and so comes first.
#[cycle(exprs)]
fn branch_of(state: &mut Desugar, branch: &Branch) -> Result<PlainExpr, Stop> {
    match &branch.locals {
        None => expr(state, branch.body.get()),
        Some(locals) => {
            let mark = state.scope.mark();
            enter_bound(&mut state.scope, locals.binds.as_slice())?;
            let body = expr(state, branch.body.get())?;
            state.scope.leave(mark);
            let place = Place {
                of_where: true,
                span: branch.body.get().span().to(locals.span),
            };
            let whole = in_bindings(state, locals.binds.as_slice(), body, place)?;
            state.scope.leave(mark);
            Ok(whole)
        }
    }
}

/// A body that is plain already in bindings.
#[cycle(exprs)]
fn in_bindings(
    state: &mut Desugar,
    binds: &[Bind],
    body: PlainExpr,
    place: Place,
) -> Result<PlainExpr, Stop> {
    match layers_of(state, binds) {
        Ok(layers) => {
            let mut layers = layers;
            Ok(wrap(state.alloc, &mut layers, body, place)?)
        }
        Err(stop) => Err(stop),
    }
}
