//! Binders.

use crate::names::qualified;
use crate::types::typ;
use psc_ast_text::Printer;
use psc_plain::{PlainBinder, PlainBinderField};
use psc_text::NoMemory;
use std::alloc::Global;

#[cycle(binders)]
pub(crate) fn binder(alloc: Global, out: &mut Printer, tree: &PlainBinder) -> Result<(), NoMemory> {
    match tree {
        PlainBinder::Wild { span } => out.named("_", *span),
        PlainBinder::Variable { name, span } => out.named(name.0.as_str(), *span),
        PlainBinder::Named {
            name,
            name_span,
            inner,
            span,
        } => {
            out.open("named", *span)?;
            out.named(name.0.as_str(), *name_span)?;
            binder(alloc, out, inner.get())?;
            out.close()
        }
        PlainBinder::Integer { value, .. } => out.integer(*value),
        PlainBinder::Str { value, .. } => out.quoted(value.as_str()),
        PlainBinder::Character { value, .. } => out.character(*value),
        PlainBinder::Boolean { value, span } => {
            out.named(if *value { "true" } else { "false" }, *span)
        }
        PlainBinder::Array { items, span } => {
            out.open("array", *span)?;
            binders(alloc, out, items.as_slice())?;
            out.close()
        }
        PlainBinder::XRecord { fields, span } => {
            out.open("record", *span)?;
            for one in fields.as_slice() {
                field(alloc, out, one)?;
            }
            out.close()
        }
        PlainBinder::Constructor { .. } | PlainBinder::Typed { .. } => applied(alloc, out, tree),
    }
}

/// A constructor with its arguments, or a binder with its type.
#[cycle(binders)]
fn applied(alloc: Global, out: &mut Printer, tree: &PlainBinder) -> Result<(), NoMemory> {
    match tree {
        PlainBinder::Constructor {
            name,
            name_span,
            arguments,
            span,
        } => {
            out.open("con", *span)?;
            qualified(alloc, out, name, *name_span)?;
            binders(alloc, out, arguments.as_slice())?;
            out.close()
        }
        PlainBinder::Typed {
            inner,
            x_type,
            span,
        } => {
            out.open("::", *span)?;
            binder(alloc, out, inner.get())?;
            typ(alloc, out, x_type.get())?;
            out.close()
        }
        _ => out.word("?"),
    }
}

#[cycle(binders)]
fn field(alloc: Global, out: &mut Printer, tree: &PlainBinderField) -> Result<(), NoMemory> {
    out.group(":")?;
    out.named(tree.label.0.as_str(), tree.label_span)?;
    binder(alloc, out, &tree.value)?;
    out.close()
}

#[cycle(binders)]
pub(crate) fn binders(
    alloc: Global,
    out: &mut Printer,
    trees: &[PlainBinder],
) -> Result<(), NoMemory> {
    for one in trees {
        binder(alloc, out, one)?;
    }
    Ok(())
}
