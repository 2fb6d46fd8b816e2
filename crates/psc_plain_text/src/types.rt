//! Types.

use crate::names::{kind_if, qualified};
use psc_ast_text::Printer;
use psc_plain::{PlainConstraint, PlainRowField, PlainType};
use psc_text::NoMemory;
use std::alloc::Global;

#[cycle(types)]
pub(crate) fn typ(alloc: Global, out: &mut Printer, tree: &PlainType) -> Result<(), NoMemory> {
    match tree {
        PlainType::Variable { name, span } => out.named(name.0.as_str(), *span),
        PlainType::Constructor { name, span } => qualified(alloc, out, name, *span),
        PlainType::Application {
            function,
            argument,
            span,
        } => {
            out.open("app", *span)?;
            typ(alloc, out, function.get())?;
            typ(alloc, out, argument.get())?;
            out.close()
        }
        PlainType::Forall {
            name,
            kind,
            body,
            span,
        } => {
            out.open("forall", *span)?;
            out.word(name.0.as_str())?;
            kind_if(out, kind)?;
            typ(alloc, out, body.get())?;
            out.close()
        }
        PlainType::Given {
            constraint: one,
            body,
            span,
        } => {
            out.open("given", *span)?;
            constraint(alloc, out, one)?;
            typ(alloc, out, body.get())?;
            out.close()
        }
        PlainType::Row { .. } => row(alloc, out, tree),
        PlainType::Symbol { value, .. } => out.quoted(value.as_str()),
    }
}

#[cycle(types)]
fn row(alloc: Global, out: &mut Printer, tree: &PlainType) -> Result<(), NoMemory> {
    match tree {
        PlainType::Row { fields, tail, span } => {
            out.open("row", *span)?;
            for one in fields.as_slice() {
                field(alloc, out, one)?;
            }
            if let Some(tail) = tail {
                out.group("|")?;
                typ(alloc, out, tail.get())?;
                out.close()?;
            }
            out.close()
        }
        _ => out.word("?"),
    }
}

#[cycle(types)]
pub(crate) fn constraint(
    alloc: Global,
    out: &mut Printer,
    tree: &PlainConstraint,
) -> Result<(), NoMemory> {
    out.open("want", tree.span)?;
    qualified(alloc, out, &tree.class, tree.class_span)?;
    for one in tree.arguments.as_slice() {
        typ(alloc, out, one)?;
    }
    out.close()
}

#[cycle(types)]
fn field(alloc: Global, out: &mut Printer, tree: &PlainRowField) -> Result<(), NoMemory> {
    out.group(":")?;
    out.named(tree.label.0.as_str(), tree.label_span)?;
    typ(alloc, out, &tree.x_type)?;
    out.close()
}
