//! Right sides, alternatives, local bindings and statements without chains.

use crate::binders::{binder, binder_list};
use crate::copies::ident;
use crate::exprs::{boxed, expr};
use crate::state::{Bracketing, FUEL};
use crate::types::sig;
use psc_ast::{Alt, Bind, Branch, Clause, Guard, Locals, Rhs, Stmt, Test};
use psc_chain::{Size, levels};
use psc_text::NoMemory;
use sqlite_items::Items;

/// The alternatives of a `case`.
#[cycle(exprs)]
pub(crate) fn alternatives(
    state: &mut Bracketing,
    alts: &[Alt],
    fuel: u32,
    size: &mut Size,
) -> Result<Items<Alt>, NoMemory> {
    let mut list = Items::new(state.alloc);
    let mut all = Size::NONE;
    for alt in alts {
        let mut inside = Size::NONE;
        list.push(alternative(state, alt, fuel, &mut inside)?)?;
        all = all.beside(inside);
    }
    *size = size.then(all.enclosed());
    Ok(list)
}

#[cycle(exprs)]
fn alternative(
    state: &mut Bracketing,
    alt: &Alt,
    fuel: u32,
    size: &mut Size,
) -> Result<Alt, NoMemory> {
    let binders = binder_list(state, alt.binders.as_slice(), size)?;
    match right_side(state, &alt.rhs, fuel, size) {
        Ok(rhs) => Ok(Alt {
            binders,
            rhs,
            span: alt.span,
        }),
        Err(error) => Err(error),
    }
}

#[cycle(exprs)]
fn right_side(
    state: &mut Bracketing,
    rhs: &Rhs,
    fuel: u32,
    size: &mut Size,
) -> Result<Rhs, NoMemory> {
    match rhs {
        Rhs::Plain(branch) => Ok(Rhs::Plain(branch_of(state, branch, fuel, size)?)),
        Rhs::Guarded(guards) => Ok(Rhs::Guarded(guard_list(state, guards.as_slice(), fuel, size)?)),
    }
}

#[cycle(exprs)]
fn guard_list(
    state: &mut Bracketing,
    guards: &[Guard],
    fuel: u32,
    size: &mut Size,
) -> Result<Items<Guard>, NoMemory> {
    let mut list = Items::new(state.alloc);
    for guard in guards {
        list.push(guard_of(state, guard, fuel, size)?)?;
    }
    Ok(list)
}

#[cycle(exprs)]
fn guard_of(
    state: &mut Bracketing,
    guard: &Guard,
    fuel: u32,
    size: &mut Size,
) -> Result<Guard, NoMemory> {
    let tests = test_list(state, guard.tests.as_slice(), fuel, size)?;
    match branch_of(state, &guard.branch, fuel, size) {
        Ok(branch) => Ok(Guard {
            tests,
            branch,
            span: guard.span,
        }),
        Err(error) => Err(error),
    }
}

#[cycle(exprs)]
fn test_list(
    state: &mut Bracketing,
    tests: &[Test],
    fuel: u32,
    size: &mut Size,
) -> Result<Items<Test>, NoMemory> {
    let mut list = Items::new(state.alloc);
    for test in tests {
        list.push(test_of(state, test, fuel, size)?)?;
    }
    Ok(list)
}

#[cycle(exprs)]
fn test_of(
    state: &mut Bracketing,
    test: &Test,
    fuel: u32,
    size: &mut Size,
) -> Result<Test, NoMemory> {
    match test {
        Test::Holds { value } => Ok(Test::Holds {
            value: expr(state, value, fuel, size)?,
        }),
        Test::Binds {
            binder: bound,
            value,
            span,
        } => {
            let binder = binder(state, bound, FUEL, size)?;
            match expr(state, value, fuel, size) {
                Ok(value) => Ok(Test::Binds {
                    binder,
                    value,
                    span: *span,
                }),
                Err(error) => Err(error),
            }
        }
    }
}

/// An expression with its `where`.
#[cycle(exprs)]
fn branch_of(
    state: &mut Bracketing,
    branch: &Branch,
    fuel: u32,
    size: &mut Size,
) -> Result<Branch, NoMemory> {
    let body = boxed(state, &branch.body, fuel, size)?;
    match locals_of(state, branch, fuel, size) {
        Ok(locals) => Ok(Branch { body, locals }),
        Err(error) => Err(error),
    }
}

/// The bindings of a `where`, if one is written.
#[cycle(exprs)]
fn locals_of(
    state: &mut Bracketing,
    branch: &Branch,
    fuel: u32,
    size: &mut Size,
) -> Result<Option<Locals>, NoMemory> {
    match &branch.locals {
        Some(locals) => {
            let binds = bind_list(state, locals.binds.as_slice(), fuel, size)?;
            Ok(Some(Locals {
                binds,
                span: locals.span,
            }))
        }
        None => Ok(None),
    }
}

/// The bindings of a block.
#[cycle(exprs)]
pub(crate) fn bind_list(
    state: &mut Bracketing,
    binds: &[Bind],
    fuel: u32,
    size: &mut Size,
) -> Result<Items<Bind>, NoMemory> {
    let mut list = Items::new(state.alloc);
    let mut all = Size::NONE;
    for bind in binds {
        let mut inside = Size::NONE;
        list.push(bind_of(state, bind, fuel, &mut inside)?)?;
        all = all.beside(inside);
    }
    *size = size.then(all.enclosed());
    Ok(list)
}

#[cycle(exprs)]
fn bind_of(
    state: &mut Bracketing,
    bind: &Bind,
    fuel: u32,
    size: &mut Size,
) -> Result<Bind, NoMemory> {
    match bind {
        Bind::Sig(written) => Ok(Bind::Sig(sig(state, written, size)?)),
        Bind::Clause(written) => Ok(Bind::Clause(clause(state, written, fuel, size)?)),
        Bind::Value {
            binder: bound,
            rhs,
            span,
        } => {
            let binder = binder(state, bound, FUEL, size)?;
            match right_side(state, rhs, fuel, size) {
                Ok(rhs) => Ok(Bind::Value {
                    binder,
                    rhs,
                    span: *span,
                }),
                Err(error) => Err(error),
            }
        }
    }
}

/// A clause with its chains as trees.
#[cycle(exprs)]
pub(crate) fn clause(
    state: &mut Bracketing,
    written: &Clause,
    fuel: u32,
    size: &mut Size,
) -> Result<Clause, NoMemory> {
    let name = ident(&written.name)?;
    let arguments = binder_list(state, written.arguments.as_slice(), size)?;
    match right_side(state, &written.rhs, fuel, size) {
        Ok(rhs) => Ok(Clause {
            name,
            arguments,
            rhs,
            span: written.span,
        }),
        Err(error) => Err(error),
    }
}

/// The statements of a block, each under as many levels more as there are up to it.
#[cycle(exprs)]
pub(crate) fn statements(
    state: &mut Bracketing,
    stmts: &[Stmt],
    fuel: u32,
    size: &mut Size,
) -> Result<Items<Stmt>, NoMemory> {
    let mut list = Items::new(state.alloc);
    let mut all = Size::NONE;
    for stmt in stmts {
        let mut inside = Size::NONE;
        list.push(statement(state, stmt, fuel, &mut inside)?)?;
        all = all.beside(inside.under(levels(list.len())));
    }
    *size = size.then(all.enclosed());
    Ok(list)
}

#[cycle(exprs)]
fn statement(
    state: &mut Bracketing,
    stmt: &Stmt,
    fuel: u32,
    size: &mut Size,
) -> Result<Stmt, NoMemory> {
    match stmt {
        Stmt::Binds {
            binder: bound,
            value,
            span,
        } => {
            let binder = binder(state, bound, FUEL, size)?;
            match expr(state, value, fuel, size) {
                Ok(value) => Ok(Stmt::Binds {
                    binder,
                    value,
                    span: *span,
                }),
                Err(error) => Err(error),
            }
        }
        Stmt::Let { binds, span } => {
            *size = size.then(Size::KEYWORD);
            let binds = bind_list(state, binds.as_slice(), fuel, size)?;
            Ok(Stmt::Let { binds, span: *span })
        }
        Stmt::Run { value } => Ok(Stmt::Run {
            value: expr(state, value, fuel, size)?,
        }),
    }
}
