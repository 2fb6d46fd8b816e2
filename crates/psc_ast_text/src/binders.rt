//! Binders.

use crate::printer::Printer;
use crate::types::typ;
use psc_ast::{BinderField, BinderTree};
use psc_text::NoMemory;

#[cycle(binders)]
pub fn binder(out: &mut Printer, tree: &BinderTree) -> Result<(), NoMemory> {
    match tree {
        BinderTree::Chain { first, rest, span } => {
            out.open("ops", *span)?;
            binder(out, first.get())?;
            for step in rest.as_slice() {
                out.mention(&step.op)?;
                binder(out, &step.operand)?;
            }
            out.close()
        }
        BinderTree::Operation {
            op,
            left,
            right,
            span,
        } => {
            out.open("op", *span)?;
            out.mention(op)?;
            binder(out, left.get())?;
            binder(out, right.get())?;
            out.close()
        }
        BinderTree::Constructor {
            name,
            arguments,
            span,
        } => {
            if arguments.is_empty() {
                return out.mention(name);
            }
            out.open("con", *span)?;
            out.mention(name)?;
            binders(out, arguments.as_slice())?;
            out.close()
        }
        BinderTree::Variable { name } => out.ident(name),
        BinderTree::Named { names, inner, span } => {
            out.open("named", *span)?;
            for name in names.as_slice() {
                out.ident(name)?;
            }
            binder(out, inner.get())?;
            out.close()
        }
        BinderTree::Wild { span } => out.named("_", *span),
        BinderTree::Integer { value, .. } => out.integer(*value),
        BinderTree::Str { value, .. } => out.quoted(value.as_str()),
        BinderTree::Character { value, .. } => out.character(*value),
        BinderTree::Boolean { value, span } => out.named(
            if *value { "true" } else { "false" },
            *span,
        ),
        BinderTree::Paren { inner, span } => {
            out.open("paren", *span)?;
            binder(out, inner.get())?;
            out.close()
        }
        BinderTree::Typed {
            inner,
            x_type,
            span,
        } => {
            out.open("::", *span)?;
            binder(out, inner.get())?;
            typ(out, x_type.get())?;
            out.close()
        }
        BinderTree::Array { items, span } => {
            out.open("array", *span)?;
            binders(out, items.as_slice())?;
            out.close()
        }
        BinderTree::XRecord { fields, span } => {
            out.open("record", *span)?;
            for one in fields.as_slice() {
                field(out, one)?;
            }
            out.close()
        }
    }
}

#[cycle(binders)]
fn field(out: &mut Printer, tree: &BinderField) -> Result<(), NoMemory> {
    let Some(value) = &tree.value else {
        return out.label(&tree.label);
    };
    out.group(":")?;
    out.label(&tree.label)?;
    binder(out, value.get())?;
    out.close()
}

#[cycle(binders)]
pub fn binders(out: &mut Printer, trees: &[BinderTree]) -> Result<(), NoMemory> {
    for one in trees {
        binder(out, one)?;
    }
    Ok(())
}
