//! The mentions of bindings, alternatives and statements.
//!
//! Bindings stand in segments, between which binders that are no variables stand: such a one is a case round the rest, so its
//! right side sees what stands before it alone.

use crate::binders::{all_bound, bound_names};
use crate::exprs::expr;
use crate::scope::Walk;
use psc_ast::{Alt, Bind, BinderTree, Branch, Clause, Guard, Rhs, Stmt, Test};
use psc_text::NoMemory;

/// Whether a clause is the first of its declaration, by the clause before it: one with arguments and its name goes on.
fn is_first(before: Option<&Clause>, clause: &Clause) -> bool {
    match before {
        Some(before) => before.arguments.is_empty() || !before.name.name.same(&clause.name.name),
        None => true,
    }
}

/// Opens the block of the bindings from a place on up to the next binder that is no variable.
fn open_segment(walk: &mut Walk, binds: &[Bind], from: usize) -> Result<(), NoMemory> {
    walk.open()?;
    let mut before: Option<&Clause> = None;
    for bind in binds.iter().skip(from) {
        match bind {
            Bind::Value { .. } => return Ok(()),
            Bind::Sig(_) => before = None,
            Bind::Clause(clause) => {
                if is_first(before, clause) {
                    walk.add_member(&clause.name.name.0, clause.span)?;
                }
                before = Some(clause);
            }
        }
    }
    Ok(())
}

/// Brings the names of a binder into scope.
fn enter_binder(walk: &mut Walk, binder: &BinderTree) -> Result<(), NoMemory> {
    let mut names = Vec::new(walk.alloc);
    bound_names(binder, &mut names)?;
    walk.enter_all(&names)
}

/// Brings the names of binders into scope.
pub(crate) fn enter_binders(walk: &mut Walk, binders: &[BinderTree]) -> Result<(), NoMemory> {
    let mut names = Vec::new(walk.alloc);
    all_bound(binders, &mut names)?;
    walk.enter_all(&names)
}

/// Notes what bindings mention, and leaves their names in scope.
#[cycle(exprs)]
pub(crate) fn bindings(walk: &mut Walk, binds: &[Bind]) -> Result<(), NoMemory> {
    open_segment(walk, binds, 0)?;
    let mut next: usize = 0;
    for bind in binds {
        next = next.saturating_add(1);
        binding(walk, bind)?;
        if let Bind::Value { .. } = bind {
            open_segment(walk, binds, next)?;
        }
    }
    walk.close()
}

/// Notes what a binding mentions. A binder that is no variable ends the block, and its names are in scope from then on.
#[cycle(exprs)]
fn binding(walk: &mut Walk, bind: &Bind) -> Result<(), NoMemory> {
    match bind {
        Bind::Sig(_) => Ok(()),
        Bind::Clause(one) => {
            walk.begin_at(one.span);
            clause(walk, one)
        }
        Bind::Value { binder, rhs, .. } => {
            walk.close()?;
            right_side(walk, rhs)?;
            enter_binder(walk, binder)
        }
    }
}

/// Notes what a clause mentions. With arguments it is a lambda.
#[cycle(exprs)]
pub(crate) fn clause(walk: &mut Walk, one: &Clause) -> Result<(), NoMemory> {
    let mark = walk.mark();
    let lambdas = walk.lambdas;
    enter_binders(walk, one.arguments.as_slice())?;
    if !one.arguments.is_empty() {
        walk.lambdas = lambdas.saturating_add(1);
    }
    right_side(walk, &one.rhs)?;
    walk.lambdas = lambdas;
    walk.leave(mark);
    Ok(())
}

#[cycle(exprs)]
fn right_side(walk: &mut Walk, rhs: &Rhs) -> Result<(), NoMemory> {
    match rhs {
        Rhs::Plain(one) => branch(walk, one),
        Rhs::Guarded(guards) => {
            for one in guards.as_slice() {
                guard(walk, one)?;
            }
            Ok(())
        }
    }
}

#[cycle(exprs)]
fn branch(walk: &mut Walk, one: &Branch) -> Result<(), NoMemory> {
    let mark = walk.mark();
    if let Some(locals) = &one.locals {
        bindings(walk, locals.binds.as_slice())?;
    }
    expr(walk, one.body.get())?;
    walk.leave(mark);
    Ok(())
}

#[cycle(exprs)]
fn guard(walk: &mut Walk, one: &Guard) -> Result<(), NoMemory> {
    let mark = walk.mark();
    for test in one.tests.as_slice() {
        test_of(walk, test)?;
    }
    branch(walk, &one.branch)?;
    walk.leave(mark);
    Ok(())
}

#[cycle(exprs)]
fn test_of(walk: &mut Walk, test: &Test) -> Result<(), NoMemory> {
    match test {
        Test::Holds { value } => expr(walk, value),
        Test::Binds { binder, value, .. } => {
            expr(walk, value)?;
            enter_binder(walk, binder)
        }
    }
}

#[cycle(exprs)]
pub(crate) fn alternatives(walk: &mut Walk, list: &[Alt]) -> Result<(), NoMemory> {
    for one in list {
        let mark = walk.mark();
        enter_binders(walk, one.binders.as_slice())?;
        right_side(walk, &one.rhs)?;
        walk.leave(mark);
    }
    Ok(())
}

/// Notes what the statements of a `do` mention.
#[cycle(exprs)]
pub(crate) fn do_items(walk: &mut Walk, statements: &[Stmt]) -> Result<(), NoMemory> {
    for one in statements {
        do_item(walk, one)?;
    }
    Ok(())
}

/// Notes what a statement of a `do` mentions. Behind a statement with a value the rest is a lambda.
#[cycle(exprs)]
fn do_item(walk: &mut Walk, one: &Stmt) -> Result<(), NoMemory> {
    match one {
        Stmt::Let { binds, .. } => bindings(walk, binds.as_slice()),
        Stmt::Run { value } => {
            expr(walk, value)?;
            walk.lambdas = walk.lambdas.saturating_add(1);
            Ok(())
        }
        Stmt::Binds { binder, value, .. } => {
            expr(walk, value)?;
            walk.lambdas = walk.lambdas.saturating_add(1);
            enter_binder(walk, binder)
        }
    }
}

/// Notes what the items of an `ado` mention. The steps see no name of the others; the `let`s and the result stand in a lambda
/// over the steps.
#[cycle(exprs)]
pub(crate) fn ado_items(walk: &mut Walk, statements: &[Stmt]) -> Result<(), NoMemory> {
    ado_steps(walk, statements)?;
    if has_step(statements) {
        walk.lambdas = walk.lambdas.saturating_add(1);
    }
    for one in statements {
        ado_let(walk, one)?;
    }
    Ok(())
}

/// Whether a statement is no `let`.
fn has_step(statements: &[Stmt]) -> bool {
    for one in statements {
        match one {
            Stmt::Run { .. } | Stmt::Binds { .. } => return true,
            Stmt::Let { .. } => {}
        }
    }
    false
}

/// Notes what the steps of an `ado` mention, and brings the names of their binders into scope behind them all.
#[cycle(exprs)]
fn ado_steps(walk: &mut Walk, statements: &[Stmt]) -> Result<(), NoMemory> {
    let mut names = Vec::new(walk.alloc);
    for one in statements {
        match one {
            Stmt::Let { .. } => {}
            Stmt::Run { value } => expr(walk, value)?,
            Stmt::Binds { binder, value, .. } => {
                expr(walk, value)?;
                bound_names(binder, &mut names)?;
            }
        }
    }
    walk.enter_all(&names)
}

#[cycle(exprs)]
fn ado_let(walk: &mut Walk, one: &Stmt) -> Result<(), NoMemory> {
    match one {
        Stmt::Let { binds, .. } => bindings(walk, binds.as_slice()),
        Stmt::Run { .. } | Stmt::Binds { .. } => Ok(()),
    }
}
