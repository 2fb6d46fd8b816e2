//! Copies of what bracketing leaves as it is: names, labels, variables and kinds.

ghost use Rattle.std.specs.Prelude.{◌≡◌, IfOk};

use psc_ast::{Dep, FixityDecl, IdentAt, KindTree, LabelAt, Mention, OpAt, TypeVar, UpperAt};
use psc_text::NoMemory;
use sqlite_items::{Boxed, Items};
use std::alloc::Global;

pub(crate) fn mention(mention: &Mention) -> Result<Mention, NoMemory>
    ensures { IfOk result (λ copy. copy ≡ mention.now) }
{
    Ok(Mention {
        name: mention.name.clone()?,
        span: mention.span,
    })
}

pub(crate) fn ident(name: &IdentAt) -> Result<IdentAt, NoMemory>
    ensures { IfOk result (λ copy. copy ≡ name.now) }
{
    Ok(IdentAt {
        name: name.name.clone()?,
        span: name.span,
    })
}

pub(crate) fn idents(alloc: Global, names: &[IdentAt]) -> Result<Items<IdentAt>, NoMemory> {
    let mut list = Items::new(alloc);
    for name in names {
        list.push(ident(name)?)?;
    }
    Ok(list)
}

pub(crate) fn written_ident(name: &Option<IdentAt>) -> Result<Option<IdentAt>, NoMemory> {
    match name {
        Some(name) => Ok(Some(ident(name)?)),
        None => Ok(None),
    }
}

pub(crate) fn upper(name: &UpperAt) -> Result<UpperAt, NoMemory>
    ensures { IfOk result (λ copy. copy ≡ name.now) }
{
    Ok(UpperAt {
        name: name.name.clone()?,
        span: name.span,
    })
}

pub(crate) fn label(label: &LabelAt) -> Result<LabelAt, NoMemory>
    ensures { IfOk result (λ copy. copy ≡ label.now) }
{
    Ok(LabelAt {
        label: label.label.clone()?,
        span: label.span,
    })
}

pub(crate) fn labels(alloc: Global, labels: &[LabelAt]) -> Result<Items<LabelAt>, NoMemory> {
    let mut list = Items::new(alloc);
    for one in labels {
        list.push(label(one)?)?;
    }
    Ok(list)
}

pub(crate) fn type_vars(alloc: Global, vars: &[TypeVar]) -> Result<Items<TypeVar>, NoMemory> {
    let mut list = Items::new(alloc);
    for var in vars {
        list.push(type_var(alloc, var)?)?;
    }
    Ok(list)
}

fn type_var(alloc: Global, var: &TypeVar) -> Result<TypeVar, NoMemory> {
    let name = ident(&var.name)?;
    match written_kind(alloc, &var.kind) {
        Ok(kind) => Ok(TypeVar {
            name,
            kind,
            span: var.span,
        }),
        Err(error) => Err(error),
    }
}

fn written_kind(alloc: Global, tree: &Option<KindTree>) -> Result<Option<KindTree>, NoMemory> {
    match tree {
        Some(tree) => Ok(Some(kind(alloc, tree)?)),
        None => Ok(None),
    }
}

#[cycle(kinds)]
pub(crate) fn kind(alloc: Global, tree: &KindTree) -> Result<KindTree, NoMemory> {
    match tree {
        KindTree::XType { span } => Ok(KindTree::XType { span: *span }),
        KindTree::Constraint { span } => Ok(KindTree::Constraint { span: *span }),
        KindTree::Symbol { span } => Ok(KindTree::Symbol { span: *span }),
        KindTree::Row { rows, of, span } => {
            let of = Boxed::new(alloc, kind(alloc, of.get())?)?;
            Ok(KindTree::Row {
                rows: *rows,
                of,
                span: *span,
            })
        }
        KindTree::Arrow { from, to, span } => {
            let from = kinds(alloc, from.as_slice())?;
            let to = Boxed::new(alloc, kind(alloc, to.get())?)?;
            Ok(KindTree::Arrow {
                from,
                to,
                span: *span,
            })
        }
        KindTree::Paren { inner, span } => {
            let inner = Boxed::new(alloc, kind(alloc, inner.get())?)?;
            Ok(KindTree::Paren { inner, span: *span })
        }
    }
}

#[cycle(kinds)]
fn kinds(alloc: Global, trees: &[KindTree]) -> Result<Items<KindTree>, NoMemory> {
    let mut list = Items::new(alloc);
    for tree in trees {
        list.push(kind(alloc, tree)?)?;
    }
    Ok(list)
}

pub(crate) fn deps(alloc: Global, deps: &[Dep]) -> Result<Items<Dep>, NoMemory> {
    let mut list = Items::new(alloc);
    for one in deps {
        list.push(dep(alloc, one)?)?;
    }
    Ok(list)
}

fn dep(alloc: Global, dep: &Dep) -> Result<Dep, NoMemory> {
    let from = idents(alloc, dep.from.as_slice())?;
    match idents(alloc, dep.to.as_slice()) {
        Ok(to) => Ok(Dep {
            from,
            to,
            span: dep.span,
        }),
        Err(error) => Err(error),
    }
}

fn operator(op: &OpAt) -> Result<OpAt, NoMemory> {
    Ok(OpAt {
        op: op.op.clone()?,
        span: op.span,
    })
}

pub(crate) fn fixity(fixity: &FixityDecl) -> Result<FixityDecl, NoMemory> {
    let op = operator(&fixity.op)?;
    match mention(&fixity.target) {
        Ok(target) => Ok(FixityDecl {
            side: fixity.side,
            power: fixity.power,
            of_types: fixity.of_types,
            target,
            op,
            span: fixity.span,
        }),
        Err(error) => Err(error),
    }
}
