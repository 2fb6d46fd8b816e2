//! Expressions.

use crate::binders::{binder, binders};
use crate::names::qualified;
use crate::types::typ;
use psc_ast_text::Printer;
use psc_plain::{
    PlainAlt, PlainBind, PlainBindGroup, PlainExpr, PlainField, PlainGuard, PlainRhs,
    PlainSignature, PlainTest,
};
use psc_text::NoMemory;
use std::alloc::Global;

/// An expression.
#[cycle(exprs)]
pub(crate) fn expr(alloc: Global, out: &mut Printer, tree: &PlainExpr) -> Result<(), NoMemory> {
    match tree {
        PlainExpr::Integer { value, .. } => out.integer(*value),
        PlainExpr::Str { value, .. } => out.quoted(value.as_str()),
        PlainExpr::Character { value, .. } => out.character(*value),
        PlainExpr::Boolean { value, span } => {
            out.named(if *value { "true" } else { "false" }, *span)
        }
        PlainExpr::Variable { name, span } | PlainExpr::Constructor { name, span } => {
            qualified(alloc, out, name, *span)
        }
        PlainExpr::Array { items, span } => {
            out.open("array", *span)?;
            exprs(alloc, out, items.as_slice())?;
            out.close()
        }
        PlainExpr::XRecord { fields, span } => {
            out.open("record", *span)?;
            field_list(alloc, out, fields.as_slice())?;
            out.close()
        }
        _ => form(alloc, out, tree),
    }
}

#[cycle(exprs)]
fn form(alloc: Global, out: &mut Printer, tree: &PlainExpr) -> Result<(), NoMemory> {
    match tree {
        PlainExpr::Lambda {
            name,
            name_span,
            body,
            span,
        } => {
            out.open("\\", *span)?;
            out.named(name.0.as_str(), *name_span)?;
            expr(alloc, out, body.get())?;
            out.close()
        }
        PlainExpr::Application {
            function,
            argument,
            span,
        } => {
            out.open("app", *span)?;
            expr(alloc, out, function.get())?;
            expr(alloc, out, argument.get())?;
            out.close()
        }
        PlainExpr::Case { .. } | PlainExpr::Let { .. } => block(alloc, out, tree),
        _ => behind(alloc, out, tree),
    }
}

/// What has alternatives or bindings.
#[cycle(exprs)]
fn block(alloc: Global, out: &mut Printer, tree: &PlainExpr) -> Result<(), NoMemory> {
    match tree {
        PlainExpr::Case {
            scrutinees,
            alternatives,
            span,
        } => {
            out.open("case", *span)?;
            exprs(alloc, out, scrutinees.as_slice())?;
            for one in alternatives.as_slice() {
                alternative(alloc, out, one)?;
            }
            out.close()
        }
        PlainExpr::Let {
            groups,
            body,
            of_where,
            span,
        } => {
            out.open(if *of_where { "where" } else { "let" }, *span)?;
            for one in groups.as_slice() {
                group(alloc, out, one)?;
            }
            expr(alloc, out, body.get())?;
            out.close()
        }
        _ => out.word("?"),
    }
}

/// What has a type, a label or an update behind it.
#[cycle(exprs)]
fn behind(alloc: Global, out: &mut Printer, tree: &PlainExpr) -> Result<(), NoMemory> {
    match tree {
        PlainExpr::Typed {
            value,
            x_type,
            span,
        } => {
            out.open("::", *span)?;
            expr(alloc, out, value.get())?;
            typ(alloc, out, x_type.get())?;
            out.close()
        }
        PlainExpr::Access {
            subject,
            label,
            span,
        } => {
            out.open(".", *span)?;
            expr(alloc, out, subject.get())?;
            out.word(label.0.as_str())?;
            out.close()
        }
        PlainExpr::Update {
            subject,
            updates,
            span,
        } => {
            out.open("update", *span)?;
            expr(alloc, out, subject.get())?;
            field_list(alloc, out, updates.as_slice())?;
            out.close()
        }
        _ => out.word("?"),
    }
}

#[cycle(exprs)]
fn exprs(alloc: Global, out: &mut Printer, trees: &[PlainExpr]) -> Result<(), NoMemory> {
    for one in trees {
        expr(alloc, out, one)?;
    }
    Ok(())
}

#[cycle(exprs)]
fn field_list(alloc: Global, out: &mut Printer, fields: &[PlainField]) -> Result<(), NoMemory> {
    for one in fields {
        out.group(":")?;
        out.named(one.label.0.as_str(), one.label_span)?;
        expr(alloc, out, &one.value)?;
        out.close()?;
    }
    Ok(())
}

#[cycle(exprs)]
fn alternative(alloc: Global, out: &mut Printer, tree: &PlainAlt) -> Result<(), NoMemory> {
    out.open("of", tree.span)?;
    binders(alloc, out, tree.binders.as_slice())?;
    match &tree.rhs {
        PlainRhs::Body(body) => {
            out.word("=")?;
            expr(alloc, out, body.get())?;
        }
        PlainRhs::Guarded(guards) => {
            for one in guards.as_slice() {
                guard(alloc, out, one)?;
            }
        }
    }
    out.close()
}

#[cycle(exprs)]
fn guard(alloc: Global, out: &mut Printer, tree: &PlainGuard) -> Result<(), NoMemory> {
    out.open("|", tree.span)?;
    for one in tree.tests.as_slice() {
        test(alloc, out, one)?;
    }
    out.word("=")?;
    expr(alloc, out, tree.body.get())?;
    out.close()
}

#[cycle(exprs)]
fn test(alloc: Global, out: &mut Printer, tree: &PlainTest) -> Result<(), NoMemory> {
    match tree {
        PlainTest::Holds(value) => expr(alloc, out, value),
        PlainTest::Binds {
            binder: bound,
            value,
            span,
        } => {
            out.open("<-", *span)?;
            binder(alloc, out, bound)?;
            expr(alloc, out, value)?;
            out.close()
        }
    }
}

#[cycle(exprs)]
fn group(alloc: Global, out: &mut Printer, tree: &PlainBindGroup) -> Result<(), NoMemory> {
    out.group(if tree.recursive { "rec" } else { "bind" })?;
    for one in tree.binds.as_slice() {
        bind(alloc, out, one)?;
    }
    out.close()
}

#[cycle(exprs)]
fn bind(alloc: Global, out: &mut Printer, tree: &PlainBind) -> Result<(), NoMemory> {
    out.open("=", tree.span)?;
    out.named(tree.name.0.as_str(), tree.name_span)?;
    signature_if(alloc, out, &tree.signature)?;
    expr(alloc, out, tree.body.get())?;
    out.close()
}

/// A signature, if one is written.
pub(crate) fn signature_if(
    alloc: Global,
    out: &mut Printer,
    written: &Option<PlainSignature>,
) -> Result<(), NoMemory> {
    match written {
        None => Ok(()),
        Some(signature) => {
            out.open("sig", signature.span)?;
            typ(alloc, out, &signature.x_type)?;
            out.close()
        }
    }
}
