//! Binders in plain forms.
//!
//! The names that a binder binds come into scope at once, and are counted in the list in which it stands.

ghost use Rattle.std.specs.Prelude.{◌≡◌};
ghost use Rattle.std.specs.List.{list_all};
ghost use Rattle.psc_plain_parts.specs.Forms as spec;

use crate::scope::Scope;
use crate::seen::Names;
use crate::state::Desugar;
use crate::stop::Stop;
use crate::types::typ;
use psc_ast::{BinderField, BinderTree, IdentAt, Mention, TypeTree};
use psc_plain::{PlainBinder, PlainBinderField};
use psc_text::{Ident, NoMemory, Span, Text};
use sqlite_items::{Boxed, Items};
use std::alloc::Global;

/// Counts a name in its binder list, and brings it into scope.
fn bind(state: &mut Desugar, names: &mut Names, name: &Text, span: Span) -> Result<(), Stop> {
    names.add(name, span)?;
    state.scope.enter(name)?;
    Ok(())
}

/// A binder in plain forms. Wrong with OverlappingNamesInLet at a name that stands in the list already.
#[cycle(binders)]
pub fn binder(
    state: &mut Desugar,
    tree: &BinderTree,
    names: &mut Names,
) -> Result<PlainBinder, Stop> {
    match tree {
        BinderTree::Operation { .. } | BinderTree::Constructor { .. } => constructor(
            state, tree, names,
        ),
        BinderTree::Variable { name } => variable(state, name, names),
        BinderTree::Named { .. } => named(state, tree, names),
        BinderTree::Paren { inner, .. } => binder(state, inner.get(), names),
        BinderTree::Typed { .. } => typed(state, tree, names),
        BinderTree::Array { items, span } => {
            let items = binders(state, items.as_slice(), names)?;
            Ok(PlainBinder::Array { items, span: *span })
        }
        BinderTree::XRecord { fields, span } => {
            let fields = field_list(state, fields.as_slice(), names)?;
            Ok(PlainBinder::XRecord {
                fields,
                span: *span,
            })
        }
        // Bracketing left no chain.
        BinderTree::Chain { first, .. } => binder(state, first.get(), names),
        _ => Ok(literal(tree)?),
    }
}

/// A literal or `_`.
fn literal(tree: &BinderTree) -> Result<PlainBinder, NoMemory> {
    match tree {
        BinderTree::Integer { value, span } => Ok(PlainBinder::Integer {
            value: *value,
            span: *span,
        }),
        BinderTree::Str { value, span } => Ok(PlainBinder::Str {
            value: value.clone()?,
            span: *span,
        }),
        BinderTree::Character { value, span } => Ok(PlainBinder::Character {
            value: *value,
            span: *span,
        }),
        BinderTree::Boolean { value, span } => Ok(PlainBinder::Boolean {
            value: *value,
            span: *span,
        }),
        _ => Ok(PlainBinder::Wild { span: tree.span() }),
    }
}

fn variable(state: &mut Desugar, name: &IdentAt, names: &mut Names) -> Result<PlainBinder, Stop> {
    bind(state, names, &name.name.0, name.span)?;
    Ok(PlainBinder::Variable {
        name: name.name.clone()?,
        span: name.span,
    })
}

fn boxed(alloc: Global, binder: PlainBinder) -> Result<Boxed<PlainBinder>, NoMemory> {
    match Boxed::new(alloc, binder) {
        Ok(binder) => Ok(binder),
        Err(_) => Err(NoMemory),
    }
}

/// `(b :: t)`
#[cycle(binders)]
fn typed(state: &mut Desugar, tree: &BinderTree, names: &mut Names) -> Result<PlainBinder, Stop> {
    match tree {
        BinderTree::Typed {
            inner,
            x_type,
            span,
        } => {
            let inner = binder(state, inner.get(), names)?;
            Ok(with_type(state.alloc, inner, x_type.get(), *span)?)
        }
        _ => Ok(PlainBinder::Wild { span: tree.span() }),
    }
}

fn with_type(
    alloc: Global,
    inner: PlainBinder,
    x_type: &TypeTree,
    span: Span,
) -> Result<PlainBinder, NoMemory> {
    match boxed(alloc, inner) {
        Ok(inner) => boxed_with_type(alloc, inner, x_type, span),
        Err(error) => Err(error),
    }
}

fn boxed_with_type(
    alloc: Global,
    inner: Boxed<PlainBinder>,
    x_type: &TypeTree,
    span: Span,
) -> Result<PlainBinder, NoMemory> {
    match typ(alloc, x_type) {
        Ok(x_type) => Ok(PlainBinder::Typed {
            inner,
            x_type: Boxed::new(alloc, x_type)?,
            span,
        }),
        Err(error) => Err(error),
    }
}

/// A binder that is a list of its own. Its names are in no scope behind it.
pub fn binder_alone(state: &mut Desugar, tree: &BinderTree) -> Result<PlainBinder, Stop> {
    let mark = state.scope.mark();
    let mut names = state.names();
    let plain = binder(state, tree, &mut names);
    state.scope.leave(mark);
    plain
}

/// Binders that are a list of their own, and whose names come into scope.
pub fn binder_list(state: &mut Desugar, trees: &[BinderTree]) -> Result<Items<PlainBinder>, Stop> {
    let mut names = state.names();
    binders(state, trees, &mut names)
}

/// Binders of one list.
#[cycle(binders)]
fn binders(
    state: &mut Desugar,
    trees: &[BinderTree],
    names: &mut Names,
) -> Result<Items<PlainBinder>, Stop> {
    let mut list = Items::new(state.alloc);
    for tree in trees {
        add_binder(state, tree, names, &mut list)?;
    }
    Ok(list)
}

/// A binder behind those of a list.
#[cycle(binders)]
pub fn add_binder(
    state: &mut Desugar,
    tree: &BinderTree,
    names: &mut Names,
    list: &mut Items<PlainBinder>,
) -> Result<(), Stop> {
    let one = binder(state, tree, names)?;
    list.push(one)?;
    Ok(())
}

/// A constructor with its arguments; an operator is one with two.
#[cycle(binders)]
fn constructor(
    state: &mut Desugar,
    tree: &BinderTree,
    names: &mut Names,
) -> Result<PlainBinder, Stop> {
    match tree {
        BinderTree::Constructor {
            name,
            arguments,
            span,
        } => {
            let arguments = binders(state, arguments.as_slice(), names)?;
            Ok(constructor_of(name, arguments, *span)?)
        }
        BinderTree::Operation { op, span, .. } => {
            let arguments = operands(state, tree, names)?;
            Ok(constructor_of(op, arguments, *span)?)
        }
        _ => Ok(PlainBinder::Wild { span: tree.span() }),
    }
}

fn constructor_of(
    name: &Mention,
    arguments: Items<PlainBinder>,
    span: Span,
) -> Result<PlainBinder, NoMemory> {
    match name.name.clone() {
        Ok(made) => Ok(PlainBinder::Constructor {
            name: made,
            name_span: name.span,
            arguments,
            span,
        }),
        Err(_) => Err(NoMemory),
    }
}

/// Both operands of an operator.
#[cycle(binders)]
fn operands(
    state: &mut Desugar,
    tree: &BinderTree,
    names: &mut Names,
) -> Result<Items<PlainBinder>, Stop> {
    let mut list = Items::new(state.alloc);
    if let BinderTree::Operation { left, right, .. } = tree {
        add_binder(state, left.get(), names, &mut list)?;
        add_binder(state, right.get(), names, &mut list)?;
    }
    Ok(list)
}

/// `x@y@b`, one name at a time.
#[cycle(binders)]
fn named(state: &mut Desugar, tree: &BinderTree, names: &mut Names) -> Result<PlainBinder, Stop> {
    match tree {
        BinderTree::Named {
            names: own,
            inner,
            span,
        } => {
            bind_all(state, own.as_slice(), names)?;
            let inner = binder(state, inner.get(), names)?;
            Ok(with_names(state.alloc, own.as_slice(), inner, *span)?)
        }
        _ => Ok(PlainBinder::Wild { span: tree.span() }),
    }
}

fn bind_all(state: &mut Desugar, own: &[IdentAt], names: &mut Names) -> Result<(), Stop> {
    for name in own {
        bind(state, names, &name.name.0, name.span)?;
    }
    Ok(())
}

fn with_names(
    alloc: Global,
    own: &[IdentAt],
    inner: PlainBinder,
    span: Span,
) -> Result<PlainBinder, NoMemory> {
    let mut whole = inner;
    for name in own.iter().rev() {
        whole = with_name(alloc, name, whole, span)?;
    }
    Ok(whole)
}

fn with_name(
    alloc: Global,
    name: &IdentAt,
    inner: PlainBinder,
    span: Span,
) -> Result<PlainBinder, NoMemory> {
    match boxed(alloc, inner) {
        Ok(inner) => Ok(PlainBinder::Named {
            name: name.name.clone()?,
            name_span: name.span,
            inner,
            span: name.span.to(span),
        }),
        Err(error) => Err(error),
    }
}

#[cycle(binders)]
fn field_list(
    state: &mut Desugar,
    fields: &[BinderField],
    names: &mut Names,
) -> Result<Items<PlainBinderField>, Stop> {
    let mut list = Items::new(state.alloc);
    for field in fields {
        add_field(state, field, names, &mut list)?;
    }
    Ok(list)
}

#[cycle(binders)]
fn add_field(
    state: &mut Desugar,
    field: &BinderField,
    names: &mut Names,
    list: &mut Items<PlainBinderField>,
) -> Result<(), Stop> {
    let value = field_value(state, field, names)?;
    let one = field_of(field, value)?;
    list.push(one)?;
    Ok(())
}

fn field_of(field: &BinderField, value: PlainBinder) -> Result<PlainBinderField, NoMemory> {
    match field.label.label.clone() {
        Ok(label) => Ok(PlainBinderField {
            label,
            label_span: field.label.span,
            value,
        }),
        Err(_) => Err(NoMemory),
    }
}

/// The binder of a field; a label alone binds the variable of its name.
#[cycle(binders)]
fn field_value(
    state: &mut Desugar,
    field: &BinderField,
    names: &mut Names,
) -> Result<PlainBinder, Stop> {
    match &field.value {
        Some(value) => binder(state, value.get(), names),
        None => {
            let name = &field.label.label.0;
            bind(state, names, name, field.label.span)?;
            Ok(PlainBinder::Variable {
                name: Ident(name.clone()?),
                span: field.label.span,
            })
        }
    }
}

/// Whether a binder is a variable without parentheses round it.
pub fn is_variable(tree: &BinderTree) -> bool
    ensures { result ≡ spec.is_variable tree.now }
{
    match tree {
        BinderTree::Variable { .. } => true,
        BinderTree::Operation { .. }
        | BinderTree::Constructor { .. }
        | BinderTree::Named { .. }
        | BinderTree::Paren { .. }
        | BinderTree::Typed { .. }
        | BinderTree::Array { .. }
        | BinderTree::XRecord { .. }
        | BinderTree::Chain { .. }
        | BinderTree::Wild { .. }
        | BinderTree::Integer { .. }
        | BinderTree::Str { .. }
        | BinderTree::Character { .. }
        | BinderTree::Boolean { .. } => false,
    }
}

/// Whether all binders are variables, and no parentheses stand round them.
pub fn all_variables(trees: &[BinderTree]) -> bool
    ensures { result ≡ list_all spec.is_variable trees.now }
{
    trees.iter().all(|tree| is_variable(tree))
}

/// Brings the names that a binder binds into scope.
#[cycle(entering)]
pub fn enter_names(scope: &mut Scope, tree: &BinderTree) -> Result<(), NoMemory> {
    match tree {
        BinderTree::Variable { name } => scope.enter(&name.name.0),
        BinderTree::Named { names, inner, .. } => {
            enter_own(scope, names.as_slice())?;
            enter_names(scope, inner.get())
        }
        BinderTree::Paren { inner, .. } | BinderTree::Typed { inner, .. } => {
            enter_names(scope, inner.get())
        }
        BinderTree::Constructor { arguments, .. } => enter_all_names(scope, arguments.as_slice()),
        BinderTree::Operation { left, right, .. } => {
            enter_names(scope, left.get())?;
            enter_names(scope, right.get())
        }
        BinderTree::Array { items, .. } => enter_all_names(scope, items.as_slice()),
        BinderTree::XRecord { fields, .. } => enter_field_names(scope, fields.as_slice()),
        // Bracketing left no chain.
        BinderTree::Chain { first, .. } => enter_names(scope, first.get()),
        BinderTree::Wild { .. }
        | BinderTree::Integer { .. }
        | BinderTree::Str { .. }
        | BinderTree::Character { .. }
        | BinderTree::Boolean { .. } => Ok(()),
    }
}

fn enter_own(scope: &mut Scope, names: &[IdentAt]) -> Result<(), NoMemory> {
    for name in names {
        scope.enter(&name.name.0)?;
    }
    Ok(())
}

#[cycle(entering)]
fn enter_all_names(scope: &mut Scope, trees: &[BinderTree]) -> Result<(), NoMemory> {
    for tree in trees {
        enter_names(scope, tree)?;
    }
    Ok(())
}

#[cycle(entering)]
fn enter_field_names(scope: &mut Scope, fields: &[BinderField]) -> Result<(), NoMemory> {
    for field in fields {
        match &field.value {
            Some(value) => enter_names(scope, value.get())?,
            None => scope.enter(&field.label.label.0)?,
        }
    }
    Ok(())
}
