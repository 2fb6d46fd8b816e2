//! The names that binders bind.

use psc_ast::{BinderField, BinderStep, BinderTree, IdentAt, LabelAt};
use psc_text::{NoMemory, Text};

/// Adds the names that a binder binds.
#[cycle(binders)]
pub(crate) fn bound_names(tree: &BinderTree, names: &mut Vec<Text>) -> Result<(), NoMemory> {
    match tree {
        BinderTree::Variable { name } => add_name(name, names),
        BinderTree::Named {
            names: outer,
            inner,
            ..
        } => {
            add_names(outer.as_slice(), names)?;
            bound_names(inner.get(), names)
        }
        BinderTree::Chain { first, rest, .. } => {
            bound_names(first.get(), names)?;
            bound_in_steps(rest.as_slice(), names)
        }
        BinderTree::Operation { left, right, .. } => {
            bound_names(left.get(), names)?;
            bound_names(right.get(), names)
        }
        BinderTree::Paren { inner, .. } | BinderTree::Typed { inner, .. } => bound_names(
            inner.get(),
            names,
        ),
        BinderTree::Constructor { arguments, .. } => all_bound(arguments.as_slice(), names),
        BinderTree::Array { items, .. } => all_bound(items.as_slice(), names),
        BinderTree::XRecord { fields, .. } => bound_in_fields(fields.as_slice(), names),
        BinderTree::Wild { .. }
        | BinderTree::Integer { .. }
        | BinderTree::Str { .. }
        | BinderTree::Character { .. }
        | BinderTree::Boolean { .. } => Ok(()),
    }
}

fn add_name(name: &IdentAt, names: &mut Vec<Text>) -> Result<(), NoMemory> {
    names.push(name.name.0.clone()?)?;
    Ok(())
}

fn add_names(list: &[IdentAt], names: &mut Vec<Text>) -> Result<(), NoMemory> {
    for name in list {
        add_name(name, names)?;
    }
    Ok(())
}

/// A label alone binds the variable of its name.
fn pun(label: &LabelAt, names: &mut Vec<Text>) -> Result<(), NoMemory> {
    names.push(label.label.0.clone()?)?;
    Ok(())
}

#[cycle(binders)]
fn bound_in_steps(steps: &[BinderStep], names: &mut Vec<Text>) -> Result<(), NoMemory> {
    for step in steps {
        bound_names(&step.operand, names)?;
    }
    Ok(())
}

#[cycle(binders)]
fn bound_in_fields(fields: &[BinderField], names: &mut Vec<Text>) -> Result<(), NoMemory> {
    for field in fields {
        match &field.value {
            Some(value) => bound_names(value.get(), names)?,
            None => pun(&field.label, names)?,
        }
    }
    Ok(())
}

/// Adds the names that binders bind.
#[cycle(binders)]
pub(crate) fn all_bound(trees: &[BinderTree], names: &mut Vec<Text>) -> Result<(), NoMemory> {
    for tree in trees {
        bound_names(tree, names)?;
    }
    Ok(())
}
