//! Names and kinds.

use psc_ast_text::Printer;
use psc_text::{NoMemory, Qualified, Span};
use psc_type::Kind;
use std::alloc::Global;

/// A name with its module and a bar before it, if it has one.
pub(crate) fn qualified(
    alloc: Global,
    out: &mut Printer,
    name: &Qualified,
    span: Span,
) -> Result<(), NoMemory> {
    match &name.module {
        None => out.named(name.name.as_str(), span),
        Some(module) => {
            let text = format!(in alloc; "{}|{}", module.as_str(), name.name.as_str())?;
            out.named(text.as_str(), span)
        }
    }
}

/// A kind.
#[cycle(kinds)]
pub(crate) fn kind(out: &mut Printer, tree: &Kind) -> Result<(), NoMemory> {
    match tree {
        Kind::Star => out.word("Type"),
        Kind::Constr => out.word("Constraint"),
        Kind::Sym => out.word("Symbol"),
        Kind::Unknown(_) => out.word("?"),
        Kind::RowOf(of) => {
            out.group("Row")?;
            kind(out, of.get())?;
            out.close()
        }
        Kind::Arrow(from, to) => {
            out.group("->")?;
            kind(out, from.get())?;
            kind(out, to.get())?;
            out.close()
        }
    }
}

/// A kind, if one is written.
pub(crate) fn kind_if(out: &mut Printer, written: &Option<Kind>) -> Result<(), NoMemory> {
    match written {
        None => Ok(()),
        Some(found) => {
            out.group("::")?;
            kind(out, found)?;
            out.close()
        }
    }
}
