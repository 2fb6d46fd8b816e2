//! Kinds and type variables.

use crate::printer::Printer;
use psc_ast::{KindTree, TypeVar};
use psc_text::NoMemory;

pub fn kind(out: &mut Printer, tree: &KindTree) -> Result<(), NoMemory> {
    match tree {
        KindTree::XType { span } => out.named("Type", *span),
        KindTree::Constraint { span } => out.named("Constraint", *span),
        KindTree::Symbol { span } => out.named("Symbol", *span),
        KindTree::Row { rows, of, span } => {
            out.open("Row", *span)?;
            for _ in 1..*rows {
                out.word("Row")?;
            }
            kind(out, of.get())?;
            out.close()
        }
        KindTree::Arrow { from, to, span } => {
            out.open("->", *span)?;
            for one in from.as_slice() {
                kind(out, one)?;
            }
            kind(out, to.get())?;
            out.close()
        }
        KindTree::Paren { inner, span } => {
            out.open("paren", *span)?;
            kind(out, inner.get())?;
            out.close()
        }
    }
}

fn variable(out: &mut Printer, tree: &TypeVar) -> Result<(), NoMemory> {
    match &tree.kind {
        None => out.ident(&tree.name),
        Some(of) => {
            out.open("::", tree.span)?;
            out.ident(&tree.name)?;
            kind(out, of)?;
            out.close()
        }
    }
}

pub fn variables(out: &mut Printer, vars: &[TypeVar]) -> Result<(), NoMemory> {
    for var in vars {
        variable(out, var)?;
    }
    Ok(())
}
