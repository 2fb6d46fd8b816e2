//! Binders without chains.

use crate::copies::{ident, idents, label, mention};
use crate::state::{Bracketing, FUEL, Reading, Space};
use crate::types::boxed as boxed_type;
use psc_ast::{BinderField, BinderStep, BinderTree};
use psc_chain::{Size, levels};
use psc_text::{NoMemory, Span};
use sqlite_items::{Boxed, Items};

/// A binder with its chains as trees.
#[cycle(binders)]
pub(crate) fn binder(
    state: &mut Bracketing,
    tree: &BinderTree,
    fuel: u32,
    size: &mut Size,
) -> Result<BinderTree, NoMemory> {
    if fuel == 0 {
        state.too_deep = true;
        return Ok(wild(tree.span()));
    }
    let fuel = fuel - 1;
    match tree {
        BinderTree::Chain { .. } | BinderTree::Operation { .. } => operators(
            state, tree, fuel, size,
        ),
        BinderTree::Constructor { .. } | BinderTree::Named { .. } => named(state, tree, fuel, size),
        BinderTree::Paren { .. } | BinderTree::Typed { .. } => around(state, tree, fuel, size),
        BinderTree::Array { .. } | BinderTree::XRecord { .. } => brackets(state, tree, fuel, size),
        BinderTree::Variable { .. }
        | BinderTree::Wild { .. }
        | BinderTree::Integer { .. }
        | BinderTree::Str { .. }
        | BinderTree::Character { .. }
        | BinderTree::Boolean { .. } => leaf(tree),
    }
}

/// What stands for a tree that a function is not for, which no caller hands it, and for one that is too deep.
fn wild(span: Span) -> BinderTree {
    BinderTree::Wild { span }
}

fn leaf(tree: &BinderTree) -> Result<BinderTree, NoMemory> {
    match tree {
        BinderTree::Variable { name } => Ok(BinderTree::Variable { name: ident(name)? }),
        BinderTree::Integer { value, span } => Ok(BinderTree::Integer {
            value: *value,
            span: *span,
        }),
        BinderTree::Str { value, span } => Ok(BinderTree::Str {
            value: value.clone()?,
            span: *span,
        }),
        BinderTree::Character { value, span } => Ok(BinderTree::Character {
            value: *value,
            span: *span,
        }),
        BinderTree::Boolean { value, span } => Ok(BinderTree::Boolean {
            value: *value,
            span: *span,
        }),
        _ => Ok(wild(tree.span())),
    }
}

#[cycle(binders)]
fn boxed(
    state: &mut Bracketing,
    tree: &Boxed<BinderTree>,
    fuel: u32,
    size: &mut Size,
) -> Result<Boxed<BinderTree>, NoMemory> {
    let alloc = state.alloc;
    let tree = binder(state, tree.get(), fuel, size)?;
    Ok(Boxed::new(alloc, tree)?)
}

#[cycle(binders)]
fn operators(
    state: &mut Bracketing,
    tree: &BinderTree,
    fuel: u32,
    size: &mut Size,
) -> Result<BinderTree, NoMemory> {
    match tree {
        BinderTree::Chain { span, .. } => {
            let reading = chain(state, tree, fuel)?;
            state.bracketed(Space::Values, reading, *span, size)
        }
        BinderTree::Operation {
            op,
            left,
            right,
            span,
        } => {
            let left = boxed(state, left, fuel, size)?;
            let right = boxed(state, right, fuel, size)?;
            Ok(BinderTree::Operation {
                op: mention(op)?,
                left,
                right,
                span: *span,
            })
        }
        _ => Ok(wild(tree.span())),
    }
}

/// The operands of a chain, in which there is none any more, and the operators between them.
#[cycle(binders)]
fn chain(
    state: &mut Bracketing,
    tree: &BinderTree,
    fuel: u32,
) -> Result<Reading<BinderTree>, NoMemory> {
    let mut inside = Size::NONE;
    match tree {
        BinderTree::Chain { first, rest, .. } => {
            let first = binder(state, first.get(), fuel, &mut inside)?;
            let mut reading = Reading::start(state.alloc, first, inside);
            steps(state, rest.as_slice(), fuel, &mut reading)?;
            Ok(reading)
        }
        _ => Ok(Reading::start(state.alloc, wild(tree.span()), inside)),
    }
}

#[cycle(binders)]
fn steps(
    state: &mut Bracketing,
    steps: &[BinderStep],
    fuel: u32,
    reading: &mut Reading<BinderTree>,
) -> Result<(), NoMemory> {
    for step in steps {
        add_step(state, step, fuel, reading)?;
    }
    Ok(())
}

#[cycle(binders)]
fn add_step(
    state: &mut Bracketing,
    step: &BinderStep,
    fuel: u32,
    reading: &mut Reading<BinderTree>,
) -> Result<(), NoMemory> {
    let mut inside = Size::NONE;
    let operand = binder(state, &step.operand, fuel, &mut inside)?;
    match mention(&step.op) {
        Ok(op) => reading.add(op, operand, inside),
        Err(error) => Err(error),
    }
}

#[cycle(binders)]
fn named(
    state: &mut Bracketing,
    tree: &BinderTree,
    fuel: u32,
    size: &mut Size,
) -> Result<BinderTree, NoMemory> {
    match tree {
        BinderTree::Constructor {
            name,
            arguments,
            span,
        } => {
            let name = mention(name)?;
            let arguments = binder_arguments(state, arguments.as_slice(), fuel, size)?;
            Ok(BinderTree::Constructor {
                name,
                arguments,
                span: *span,
            })
        }
        BinderTree::Named { names, inner, span } => {
            let names = idents(state.alloc, names.as_slice())?;
            let inner = boxed(state, inner, fuel, size)?;
            Ok(BinderTree::Named {
                names,
                inner,
                span: *span,
            })
        }
        _ => Ok(wild(tree.span())),
    }
}

#[cycle(binders)]
fn around(
    state: &mut Bracketing,
    tree: &BinderTree,
    fuel: u32,
    size: &mut Size,
) -> Result<BinderTree, NoMemory> {
    let mut inside = Size::NONE;
    match tree {
        BinderTree::Paren { inner, span } => {
            let inner = boxed(state, inner, fuel, &mut inside)?;
            *size = size.then(inside.enclosed());
            Ok(BinderTree::Paren { inner, span: *span })
        }
        BinderTree::Typed {
            inner,
            x_type,
            span,
        } => {
            let inner = boxed(state, inner, fuel, &mut inside)?;
            let x_type = boxed_type(state, x_type, fuel, &mut inside)?;
            *size = size.then(inside.enclosed());
            Ok(BinderTree::Typed {
                inner,
                x_type,
                span: *span,
            })
        }
        _ => Ok(wild(tree.span())),
    }
}

/// The arguments of a constructor, each under as many levels more as there are up to it.
#[cycle(binders)]
fn binder_arguments(
    state: &mut Bracketing,
    trees: &[BinderTree],
    fuel: u32,
    size: &mut Size,
) -> Result<Items<BinderTree>, NoMemory> {
    let mut list = Items::new(state.alloc);
    for tree in trees {
        let mut inside = Size::NONE;
        list.push(binder(state, tree, fuel, &mut inside)?)?;
        *size = size.then(inside.under(levels(list.len())));
    }
    Ok(list)
}

#[cycle(binders)]
fn brackets(
    state: &mut Bracketing,
    tree: &BinderTree,
    fuel: u32,
    size: &mut Size,
) -> Result<BinderTree, NoMemory> {
    match tree {
        BinderTree::Array { items, span } => Ok(BinderTree::Array {
            items: beside(state, items.as_slice(), fuel, size)?,
            span: *span,
        }),
        BinderTree::XRecord { fields, span } => Ok(BinderTree::XRecord {
            fields: field_list(state, fields.as_slice(), fuel, size)?,
            span: *span,
        }),
        _ => Ok(wild(tree.span())),
    }
}

/// Binders in brackets with commas between them.
#[cycle(binders)]
fn beside(
    state: &mut Bracketing,
    trees: &[BinderTree],
    fuel: u32,
    size: &mut Size,
) -> Result<Items<BinderTree>, NoMemory> {
    let mut list = Items::new(state.alloc);
    let mut all = Size::NONE;
    for tree in trees {
        let mut inside = Size::NONE;
        list.push(binder(state, tree, fuel, &mut inside)?)?;
        all = all.beside(inside);
    }
    *size = size.then(all.enclosed());
    Ok(list)
}

#[cycle(binders)]
fn field_list(
    state: &mut Bracketing,
    fields: &[BinderField],
    fuel: u32,
    size: &mut Size,
) -> Result<Items<BinderField>, NoMemory> {
    let mut list = Items::new(state.alloc);
    let mut all = Size::NONE;
    for next in fields {
        let mut inside = Size::NONE;
        list.push(field(state, next, fuel, &mut inside)?)?;
        all = all.beside(inside);
    }
    *size = size.then(all.enclosed());
    Ok(list)
}

#[cycle(binders)]
fn field(
    state: &mut Bracketing,
    field: &BinderField,
    fuel: u32,
    size: &mut Size,
) -> Result<BinderField, NoMemory> {
    let label = label(&field.label)?;
    match field_value(state, field, fuel, size) {
        Ok(value) => Ok(BinderField { label, value }),
        Err(error) => Err(error),
    }
}

/// The binder behind a label, if one is written.
#[cycle(binders)]
fn field_value(
    state: &mut Bracketing,
    field: &BinderField,
    fuel: u32,
    size: &mut Size,
) -> Result<Option<Boxed<BinderTree>>, NoMemory> {
    match &field.value {
        Some(value) => Ok(Some(boxed(state, value, fuel, size)?)),
        None => Ok(None),
    }
}

/// Binders behind one another: of a lambda, a clause or an alternative.
pub(crate) fn binder_list(
    state: &mut Bracketing,
    trees: &[BinderTree],
    size: &mut Size,
) -> Result<Items<BinderTree>, NoMemory> {
    let mut list = Items::new(state.alloc);
    for tree in trees {
        list.push(binder(state, tree, FUEL, size)?)?;
    }
    Ok(list)
}
