//! Binders with true names, and the names that they bind.

use crate::resolver::{Resolver, ident};
use crate::types::{label, typ};
use psc_ast::{BinderField, BinderStep, BinderTree, IdentAt};
use psc_scope::{Area, Stop};
use psc_text::{NoMemory, Text};
use sqlite_items::{Boxed, Items};
use std::alloc::Global;

/// A binder with true names. The names that it binds come to the end of the list.
#[cycle(binders)]
pub fn binder(
    state: &mut Resolver,
    tree: &BinderTree,
    names: &mut Vec<Text>,
) -> Result<BinderTree, Stop> {
    match tree {
        BinderTree::Chain { .. } | BinderTree::Operation { .. } => operators(state, tree, names),
        BinderTree::Named { .. } | BinderTree::Paren { .. } | BinderTree::Typed { .. } => around(
            state, tree, names,
        ),
        BinderTree::Constructor {
            name,
            arguments,
            span,
        } => {
            let name = state.global(Area::Constructor, name)?;
            let arguments = all_binders(state, arguments.as_slice(), names)?;
            Ok(BinderTree::Constructor {
                name,
                arguments,
                span: *span,
            })
        }
        BinderTree::Variable { name } => {
            names.push(name.name.0.clone()?)?;
            Ok(BinderTree::Variable { name: ident(name)? })
        }
        BinderTree::Array { items, span } => {
            let items = all_binders(state, items.as_slice(), names)?;
            Ok(BinderTree::Array { items, span: *span })
        }
        BinderTree::XRecord { fields, span } => {
            let fields = field_list(state, fields.as_slice(), names)?;
            Ok(BinderTree::XRecord {
                fields,
                span: *span,
            })
        }
        BinderTree::Wild { span } => Ok(BinderTree::Wild { span: *span }),
        BinderTree::Integer { value, span } => Ok(BinderTree::Integer {
            value: *value,
            span: *span,
        }),
        BinderTree::Str { value, span } => Ok(BinderTree::Str {
            value: value.clone()?,
            span: *span,
        }),
        BinderTree::Character { value, span } => Ok(BinderTree::Character {
            value: *value,
            span: *span,
        }),
        BinderTree::Boolean { value, span } => Ok(BinderTree::Boolean {
            value: *value,
            span: *span,
        }),
    }
}

#[cycle(binders)]
fn boxed(
    state: &mut Resolver,
    tree: &Boxed<BinderTree>,
    names: &mut Vec<Text>,
) -> Result<Boxed<BinderTree>, Stop> {
    let alloc = state.alloc;
    let tree = binder(state, tree.get(), names)?;
    Ok(Boxed::new(alloc, tree)?)
}

#[cycle(binders)]
pub fn all_binders(
    state: &mut Resolver,
    trees: &[BinderTree],
    names: &mut Vec<Text>,
) -> Result<Items<BinderTree>, Stop> {
    let mut list = Items::new(state.alloc);
    for tree in trees {
        list.push(binder(state, tree, names)?)?;
    }
    Ok(list)
}

#[cycle(binders)]
fn operators(
    state: &mut Resolver,
    tree: &BinderTree,
    names: &mut Vec<Text>,
) -> Result<BinderTree, Stop> {
    match tree {
        BinderTree::Chain { first, rest, span } => {
            let first = boxed(state, first, names)?;
            let rest = steps(state, rest.as_slice(), names)?;
            Ok(BinderTree::Chain {
                first,
                rest,
                span: *span,
            })
        }
        BinderTree::Operation {
            op,
            left,
            right,
            span,
        } => {
            let left = boxed(state, left, names)?;
            let op = state.operator(Area::ValueOp, op)?;
            let right = boxed(state, right, names)?;
            Ok(BinderTree::Operation {
                op,
                left,
                right,
                span: *span,
            })
        }
        _ => Ok(BinderTree::Wild { span: tree.span() }),
    }
}

#[cycle(binders)]
fn steps(
    state: &mut Resolver,
    steps: &[BinderStep],
    names: &mut Vec<Text>,
) -> Result<Items<BinderStep>, Stop> {
    let mut list = Items::new(state.alloc);
    for step in steps {
        let op = state.operator(Area::ValueOp, &step.op)?;
        let operand = binder(state, &step.operand, names)?;
        list.push(BinderStep { op, operand })?;
    }
    Ok(list)
}

#[cycle(binders)]
fn around(
    state: &mut Resolver,
    tree: &BinderTree,
    names: &mut Vec<Text>,
) -> Result<BinderTree, Stop> {
    let alloc = state.alloc;
    match tree {
        BinderTree::Named {
            names: own,
            inner,
            span,
        } => {
            let own = ident_list(alloc, own.as_slice(), names)?;
            let inner = boxed(state, inner, names)?;
            Ok(BinderTree::Named {
                names: own,
                inner,
                span: *span,
            })
        }
        BinderTree::Paren { inner, span } => {
            let inner = boxed(state, inner, names)?;
            Ok(BinderTree::Paren { inner, span: *span })
        }
        BinderTree::Typed {
            inner,
            x_type,
            span,
        } => {
            let inner = boxed(state, inner, names)?;
            let x_type = Boxed::new(alloc, typ(state, x_type.get())?)?;
            Ok(BinderTree::Typed {
                inner,
                x_type,
                span: *span,
            })
        }
        _ => Ok(BinderTree::Wild { span: tree.span() }),
    }
}

fn ident_list(
    alloc: Global,
    idents: &[IdentAt],
    names: &mut Vec<Text>,
) -> Result<Items<IdentAt>, NoMemory> {
    let mut list = Items::new(alloc);
    for name in idents {
        names.push(name.name.0.clone()?)?;
        list.push(ident(name)?)?;
    }
    Ok(list)
}

#[cycle(binders)]
fn field_list(
    state: &mut Resolver,
    fields: &[BinderField],
    names: &mut Vec<Text>,
) -> Result<Items<BinderField>, Stop> {
    let mut list = Items::new(state.alloc);
    for field in fields {
        let label = label(&field.label)?;
        let value = match &field.value {
            Some(value) => Some(boxed(state, value, names)?),
            None => {
                names.push(field.label.label.0.clone()?)?;
                None
            }
        };
        list.push(BinderField { label, value })?;
    }
    Ok(list)
}

/// The names that a binder binds, in the order of the source.
#[cycle(bound)]
pub fn bound_names(tree: &BinderTree, names: &mut Vec<Text>) -> Result<(), NoMemory> {
    match tree {
        BinderTree::Chain { .. } | BinderTree::Operation { .. } => operand_names(tree, names),
        BinderTree::Constructor { arguments, .. } => all_bound(arguments.as_slice(), names),
        BinderTree::Variable { name } => {
            names.push(name.name.0.clone()?)?;
            Ok(())
        }
        BinderTree::Named {
            names: own,
            inner,
            ..
        } => {
            for name in own.as_slice() {
                names.push(name.name.0.clone()?)?;
            }
            bound_names(inner.get(), names)
        }
        BinderTree::Paren { inner, .. } | BinderTree::Typed { inner, .. } => bound_names(
            inner.get(),
            names,
        ),
        BinderTree::Array { items, .. } => all_bound(items.as_slice(), names),
        BinderTree::XRecord { fields, .. } => field_names(fields.as_slice(), names),
        BinderTree::Wild { .. }
        | BinderTree::Integer { .. }
        | BinderTree::Str { .. }
        | BinderTree::Character { .. }
        | BinderTree::Boolean { .. } => Ok(()),
    }
}

#[cycle(bound)]
fn operand_names(tree: &BinderTree, names: &mut Vec<Text>) -> Result<(), NoMemory> {
    match tree {
        BinderTree::Chain { first, rest, .. } => {
            bound_names(first.get(), names)?;
            for step in rest.as_slice() {
                bound_names(&step.operand, names)?;
            }
            Ok(())
        }
        BinderTree::Operation { left, right, .. } => {
            bound_names(left.get(), names)?;
            bound_names(right.get(), names)
        }
        _ => Ok(()),
    }
}

#[cycle(bound)]
fn all_bound(trees: &[BinderTree], names: &mut Vec<Text>) -> Result<(), NoMemory> {
    for tree in trees {
        bound_names(tree, names)?;
    }
    Ok(())
}

#[cycle(bound)]
fn field_names(fields: &[BinderField], names: &mut Vec<Text>) -> Result<(), NoMemory> {
    for field in fields {
        match &field.value {
            Some(value) => bound_names(value.get(), names)?,
            None => names.push(field.label.label.0.clone()?)?,
        }
    }
    Ok(())
}
