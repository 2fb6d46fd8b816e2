//! Bindings, right sides, alternatives and statements.

use crate::exprs::{in_expr, in_exprs};
use psc_ast::{Alt, Bind, Branch, Clause, Guard, Rhs, Sig, Stmt, Test};
use psc_text::Text;

/// The first signature of the local bindings of a clause that does not stand directly before a clause of its name.
#[cycle(exprs)]
pub fn orphan_in_clause(clause: &Clause) -> Option<&Sig> {
    in_right_side(&clause.rhs)
}

/// Whether the next binding is a clause of the name.
fn is_clause_of(next: Option<&Bind>, name: &Text) -> bool {
    match next {
        Some(Bind::Clause(clause)) => clause.name.name.0.same(name),
        _ => false,
    }
}

/// Local bindings that follow one another.
#[cycle(exprs)]
pub(crate) fn in_binds(binds: &[Bind]) -> Option<&Sig> {
    for (place, bind) in binds.iter().enumerate() {
        let next = binds.get(place.saturating_add(1));
        let found = in_bind(bind, next);
        if found.is_some() {
            return found;
        }
    }
    None
}

#[cycle(exprs)]
fn in_bind<'a>(bind: &'a Bind, next: Option<&'a Bind>) -> Option<&'a Sig> {
    match bind {
        Bind::Sig(sig) => {
            if is_clause_of(next, &sig.name.name.0) {
                None
            } else {
                Some(sig)
            }
        }
        Bind::Clause(clause) => orphan_in_clause(clause),
        Bind::Value { rhs, .. } => in_right_side(rhs),
    }
}

#[cycle(exprs)]
fn in_right_side(rhs: &Rhs) -> Option<&Sig> {
    match rhs {
        Rhs::Plain(branch) => in_branch(branch),
        Rhs::Guarded(guards) => {
            for guard in guards.as_slice() {
                let found = in_guard(guard);
                if found.is_some() {
                    return found;
                }
            }
            None
        }
    }
}

#[cycle(exprs)]
fn in_guard(guard: &Guard) -> Option<&Sig> {
    for test in guard.tests.as_slice() {
        let found = in_test(test);
        if found.is_some() {
            return found;
        }
    }
    in_branch(&guard.branch)
}

#[cycle(exprs)]
fn in_test(test: &Test) -> Option<&Sig> {
    match test {
        Test::Holds { value } | Test::Binds { value, .. } => in_expr(value),
    }
}

/// An expression, and its `where` behind it.
#[cycle(exprs)]
fn in_branch(branch: &Branch) -> Option<&Sig> {
    let found = in_expr(branch.body.get());
    if found.is_some() {
        return found;
    }
    match &branch.locals {
        Some(locals) => in_binds(locals.binds.as_slice()),
        None => None,
    }
}

#[cycle(exprs)]
pub(crate) fn in_alternatives(alternatives: &[Alt]) -> Option<&Sig> {
    for alternative in alternatives {
        let found = in_right_side(&alternative.rhs);
        if found.is_some() {
            return found;
        }
    }
    None
}

#[cycle(exprs)]
pub(crate) fn in_statements(statements: &[Stmt]) -> Option<&Sig> {
    for statement in statements {
        let found = in_statement(statement);
        if found.is_some() {
            return found;
        }
    }
    None
}

#[cycle(exprs)]
fn in_statement(statement: &Stmt) -> Option<&Sig> {
    match statement {
        Stmt::Binds { value, .. } | Stmt::Run { value } => in_expr(value),
        Stmt::Let { binds, .. } => in_binds(binds.as_slice()),
    }
}
