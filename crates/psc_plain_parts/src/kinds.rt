//! Written kinds.

use psc_ast::{KindTree, TypeVar};
use psc_items::Shared;
use psc_text::NoMemory;
use psc_type::Kind;
use std::alloc::Global;

/// A written kind.
#[cycle(kinds)]
pub fn kind(alloc: Global, tree: &KindTree) -> Result<Kind, NoMemory> {
    match tree {
        KindTree::XType { .. } => Ok(Kind::Star),
        KindTree::Constraint { .. } => Ok(Kind::Constr),
        KindTree::Symbol { .. } => Ok(Kind::Sym),
        KindTree::Row { rows, of, .. } => {
            let of = kind(alloc, of.get())?;
            rows_of(alloc, *rows, of)
        }
        KindTree::Arrow { .. } => arrow(alloc, tree),
        KindTree::Paren { inner, .. } => kind(alloc, inner.get()),
    }
}

/// `Row` so many times before a kind.
fn rows_of(alloc: Global, rows: u32, of: Kind) -> Result<Kind, NoMemory> {
    let mut whole = of;
    for _ in 0..rows {
        whole = row_of(alloc, whole)?;
    }
    Ok(whole)
}

fn row_of(alloc: Global, of: Kind) -> Result<Kind, NoMemory> {
    Ok(Kind::RowOf(Shared::new(alloc, of)?))
}

#[cycle(kinds)]
fn arrow(alloc: Global, tree: &KindTree) -> Result<Kind, NoMemory> {
    match tree {
        KindTree::Arrow { from, to, .. } => match kinds(alloc, from.as_slice()) {
            Ok(from) => {
                let to = kind(alloc, to.get())?;
                arrows(alloc, from, to)
            }
            Err(error) => Err(error),
        },
        _ => Ok(Kind::Star),
    }
}

#[cycle(kinds)]
fn kinds(alloc: Global, trees: &[KindTree]) -> Result<Vec<Kind>, NoMemory> {
    let mut list = Vec::new(alloc);
    for tree in trees {
        list.push(kind(alloc, tree)?)?;
    }
    Ok(list)
}

/// The arrows from kinds to a kind, which associate to the right.
fn arrows(alloc: Global, from: Vec<Kind>, to: Kind) -> Result<Kind, NoMemory> {
    let mut from = from;
    let mut whole = to;
    for _ in 0..from.len() {
        if let Some(one) = from.pop() {
            whole = arrow_of(alloc, one, whole)?;
        }
    }
    Ok(whole)
}

fn arrow_of(alloc: Global, from: Kind, to: Kind) -> Result<Kind, NoMemory> {
    match Shared::new(alloc, from) {
        Ok(from) => Ok(Kind::Arrow(from, Shared::new(alloc, to)?)),
        Err(_) => Err(NoMemory),
    }
}

/// The kind that is written behind a variable, if one is.
pub fn kind_of_var(alloc: Global, var: &TypeVar) -> Result<Option<Kind>, NoMemory> {
    match &var.kind {
        Some(written) => Ok(Some(kind(alloc, written)?)),
        None => Ok(None),
    }
}
