//! Expressions.

use crate::binds::{in_alternatives, in_binds, in_statements};
use psc_ast::{ChainStep, ExprTree, Field, Sig, TickStep, Update};

#[cycle(exprs)]
pub(crate) fn in_expr(tree: &ExprTree) -> Option<&Sig> {
    match tree {
        ExprTree::Chain { .. } | ExprTree::Operation { .. } | ExprTree::Ticks { .. } =>
            in_operators(tree),
        ExprTree::Call { .. } | ExprTree::If { .. } | ExprTree::Update { .. } => in_parts(tree),
        ExprTree::Case { .. } | ExprTree::Let { .. } | ExprTree::Do { .. } | ExprTree::Ado { .. } =>
            in_block(tree),
        ExprTree::Typed { value: inner, .. }
        | ExprTree::Negate { operand: inner, .. }
        | ExprTree::Lambda { body: inner, .. }
        | ExprTree::Access { subject: inner, .. }
        | ExprTree::Paren { inner, .. } => in_expr(inner.get()),
        ExprTree::Array { items, .. } => in_exprs(items.as_slice()),
        ExprTree::XRecord { fields, .. } => in_fields(fields.as_slice()),
        ExprTree::Integer { .. }
        | ExprTree::Str { .. }
        | ExprTree::Character { .. }
        | ExprTree::Boolean { .. }
        | ExprTree::Variable { .. }
        | ExprTree::Constructor { .. }
        | ExprTree::Operator { .. }
        | ExprTree::Hole { .. } => None,
    }
}

#[cycle(exprs)]
pub(crate) fn in_exprs(trees: &[ExprTree]) -> Option<&Sig> {
    for tree in trees {
        let found = in_expr(tree);
        if found.is_some() {
            return found;
        }
    }
    None
}

#[cycle(exprs)]
fn in_operators(tree: &ExprTree) -> Option<&Sig> {
    match tree {
        ExprTree::Chain { first, rest, .. } => {
            let found = in_expr(first.get());
            if found.is_some() {
                return found;
            }
            in_steps(rest.as_slice())
        }
        ExprTree::Ticks { first, rest, .. } => {
            let found = in_expr(first.get());
            if found.is_some() {
                return found;
            }
            in_ticks(rest.as_slice())
        }
        ExprTree::Operation { left, right, .. } => {
            let found = in_expr(left.get());
            if found.is_some() {
                return found;
            }
            in_expr(right.get())
        }
        _ => None,
    }
}

#[cycle(exprs)]
fn in_steps(steps: &[ChainStep]) -> Option<&Sig> {
    for step in steps {
        let found = in_expr(&step.operand);
        if found.is_some() {
            return found;
        }
    }
    None
}

#[cycle(exprs)]
fn in_ticks(steps: &[TickStep]) -> Option<&Sig> {
    for step in steps {
        let found = in_expr(&step.operand);
        if found.is_some() {
            return found;
        }
    }
    None
}

#[cycle(exprs)]
fn in_parts(tree: &ExprTree) -> Option<&Sig> {
    match tree {
        ExprTree::Call {
            function,
            arguments,
            ..
        } => {
            let found = in_expr(function.get());
            if found.is_some() {
                return found;
            }
            in_exprs(arguments.as_slice())
        }
        ExprTree::If {
            test,
            then,
            otherwise,
            ..
        } => {
            let found = in_expr(test.get());
            if found.is_some() {
                return found;
            }
            let found = in_expr(then.get());
            if found.is_some() {
                return found;
            }
            in_expr(otherwise.get())
        }
        ExprTree::Update {
            subject,
            updates,
            ..
        } => {
            let found = in_expr(subject.get());
            if found.is_some() {
                return found;
            }
            in_updates(updates.as_slice())
        }
        _ => None,
    }
}

#[cycle(exprs)]
fn in_block(tree: &ExprTree) -> Option<&Sig> {
    match tree {
        ExprTree::Case {
            scrutinees,
            alternatives,
            ..
        } => {
            let found = in_exprs(scrutinees.as_slice());
            if found.is_some() {
                return found;
            }
            in_alternatives(alternatives.as_slice())
        }
        ExprTree::Let { binds, body, .. } => {
            let found = in_binds(binds.as_slice());
            if found.is_some() {
                return found;
            }
            in_expr(body.get())
        }
        ExprTree::Do { statements, .. } => in_statements(statements.as_slice()),
        ExprTree::Ado {
            statements,
            result,
            ..
        } => {
            let found = in_statements(statements.as_slice());
            if found.is_some() {
                return found;
            }
            in_expr(result.get())
        }
        _ => None,
    }
}

#[cycle(exprs)]
fn in_updates(updates: &[Update]) -> Option<&Sig> {
    for update in updates {
        let found = in_expr(update.value.get());
        if found.is_some() {
            return found;
        }
    }
    None
}

#[cycle(exprs)]
fn in_fields(fields: &[Field]) -> Option<&Sig> {
    for field in fields {
        if let Some(value) = &field.value {
            let found = in_expr(value.get());
            if found.is_some() {
                return found;
            }
        }
    }
    None
}
