//! The mentions of expressions, in the order of the source.

use crate::binds::{ado_items, alternatives, bindings, do_items, enter_binders};
use crate::scope::Walk;
use psc_ast::{ChainStep, ExprTree, Field, TickStep, Update};
use psc_text::NoMemory;

/// Notes what an expression mentions.
#[cycle(exprs)]
pub(crate) fn expr(walk: &mut Walk, tree: &ExprTree) -> Result<(), NoMemory> {
    match tree {
        ExprTree::Chain { .. } | ExprTree::Ticks { .. } | ExprTree::Operation { .. } => operators(
            walk, tree,
        ),
        ExprTree::Typed { value, .. } => expr(walk, value.get()),
        ExprTree::Negate { operand, .. } => expr(walk, operand.get()),
        ExprTree::Call {
            function,
            arguments,
            ..
        } => {
            expr(walk, function.get())?;
            exprs(walk, arguments.as_slice())
        }
        ExprTree::If {
            test,
            then,
            otherwise,
            ..
        } => {
            expr(walk, test.get())?;
            expr(walk, then.get())?;
            expr(walk, otherwise.get())
        }
        ExprTree::Lambda { .. }
        | ExprTree::Case { .. }
        | ExprTree::Let { .. }
        | ExprTree::Do { .. }
        | ExprTree::Ado { .. } => form(walk, tree),
        ExprTree::Access { subject, .. } => expr(walk, subject.get()),
        ExprTree::Update {
            subject,
            updates,
            ..
        } => {
            expr(walk, subject.get())?;
            updated(walk, updates.as_slice())
        }
        ExprTree::Paren { inner, .. } => paren(walk, inner.get()),
        ExprTree::Array { items, .. } => exprs(walk, items.as_slice()),
        ExprTree::XRecord { fields, .. } => record(walk, fields.as_slice()),
        ExprTree::Variable { name } => walk.value(name),
        ExprTree::Operator { name, .. } => walk.value(name),
        ExprTree::Integer { .. }
        | ExprTree::Str { .. }
        | ExprTree::Character { .. }
        | ExprTree::Boolean { .. }
        | ExprTree::Constructor { .. }
        | ExprTree::Hole { .. } => Ok(()),
    }
}

#[cycle(exprs)]
fn exprs(walk: &mut Walk, trees: &[ExprTree]) -> Result<(), NoMemory> {
    for tree in trees {
        expr(walk, tree)?;
    }
    Ok(())
}

#[cycle(exprs)]
fn updated(walk: &mut Walk, updates: &[Update]) -> Result<(), NoMemory> {
    for update in updates {
        expr(walk, update.value.get())?;
    }
    Ok(())
}

#[cycle(exprs)]
fn chain_steps(walk: &mut Walk, steps: &[ChainStep]) -> Result<(), NoMemory> {
    for step in steps {
        walk.value(&step.op)?;
        expr(walk, &step.operand)?;
    }
    Ok(())
}

#[cycle(exprs)]
fn tick_steps(walk: &mut Walk, steps: &[TickStep]) -> Result<(), NoMemory> {
    for step in steps {
        walk.value(&step.name)?;
        expr(walk, &step.operand)?;
    }
    Ok(())
}

#[cycle(exprs)]
fn operators(walk: &mut Walk, tree: &ExprTree) -> Result<(), NoMemory> {
    match tree {
        ExprTree::Chain { first, rest, .. } => {
            expr(walk, first.get())?;
            chain_steps(walk, rest.as_slice())
        }
        ExprTree::Ticks { first, rest, .. } => {
            expr(walk, first.get())?;
            tick_steps(walk, rest.as_slice())
        }
        ExprTree::Operation {
            op,
            left,
            right,
            ..
        } => {
            expr(walk, left.get())?;
            walk.value(op)?;
            expr(walk, right.get())
        }
        _ => Ok(()),
    }
}

/// The content of parentheses. With a `_` among its operands it is a lambda.
#[cycle(exprs)]
fn paren(walk: &mut Walk, inner: &ExprTree) -> Result<(), NoMemory> {
    if has_hole(inner) {
        walk.lambdas = walk.lambdas.saturating_add(1);
        expr(walk, inner)?;
        walk.lambdas = walk.lambdas.saturating_sub(1);
        return Ok(());
    }
    expr(walk, inner)
}

/// Whether a `_` is an operand of a chain.
fn has_hole(tree: &ExprTree) -> bool {
    match tree {
        ExprTree::Hole { .. } => true,
        ExprTree::Operation { left, right, .. } => has_hole(left.get()) || has_hole(right.get()),
        ExprTree::Negate { operand, .. } => has_hole(operand.get()),
        ExprTree::Chain { first, rest, .. } => {
            if has_hole(first.get()) {
                return true;
            }
            for step in rest.as_slice() {
                if has_hole(&step.operand) {
                    return true;
                }
            }
            false
        }
        ExprTree::Ticks { first, rest, .. } => {
            if has_hole(first.get()) {
                return true;
            }
            for step in rest.as_slice() {
                if has_hole(&step.operand) {
                    return true;
                }
            }
            false
        }
        _ => false,
    }
}

/// Whether a `_` is one of the scrutinees.
fn has_open_scrutinee(scrutinees: &[ExprTree]) -> bool {
    for tree in scrutinees {
        if let ExprTree::Hole { .. } = tree {
            return true;
        }
    }
    false
}

#[cycle(exprs)]
fn form(walk: &mut Walk, tree: &ExprTree) -> Result<(), NoMemory> {
    let mark = walk.mark();
    let lambdas = walk.lambdas;
    match tree {
        ExprTree::Lambda { binders, body, .. } => {
            enter_binders(walk, binders.as_slice())?;
            walk.lambdas = lambdas.saturating_add(1);
            expr(walk, body.get())?;
        }
        ExprTree::Case {
            scrutinees,
            alternatives: list,
            ..
        } => {
            if has_open_scrutinee(scrutinees.as_slice()) {
                walk.lambdas = lambdas.saturating_add(1);
            }
            exprs(walk, scrutinees.as_slice())?;
            alternatives(walk, list.as_slice())?;
        }
        ExprTree::Let { binds, body, .. } => {
            bindings(walk, binds.as_slice())?;
            expr(walk, body.get())?;
        }
        ExprTree::Do { statements, .. } => do_items(walk, statements.as_slice())?,
        ExprTree::Ado {
            statements,
            result,
            ..
        } => {
            ado_items(walk, statements.as_slice())?;
            expr(walk, result.get())?;
        }
        _ => {}
    }
    walk.leave(mark);
    walk.lambdas = lambdas;
    Ok(())
}

#[cycle(exprs)]
fn record(walk: &mut Walk, fields: &[Field]) -> Result<(), NoMemory> {
    for field in fields {
        match &field.value {
            Some(value) => expr(walk, value.get())?,
            None => walk.pun(&field.label)?,
        }
    }
    Ok(())
}
