//! Types in plain forms.
//!
//! An arrow is `Prim.Function` applied to two types, braces are `Prim.Record` applied to a row, and an operator is what it stands
//! for applied to both operands. Only want of memory refuses a type; a head may have a name twice.

use crate::kinds::kind_of_var;
use crate::state::{Desugar, prim};
use crate::stop::Stop;
use psc_ast::{Constr, Mention, RowField, RowTree, Sig, TypePrefix, TypeTree, TypeVar};
use psc_plain::{PlainConstraint, PlainRowField, PlainSignature, PlainType, PlainVar};
use psc_text::{Ident, NoMemory, Span};
use psc_type::Kind;
use sqlite_items::{Boxed, Items};
use std::alloc::Global;

/// The variables of a head, no two of which have one name.
pub fn head_vars(state: &Desugar, vars: &[TypeVar]) -> Result<Items<PlainVar>, Stop> {
    check_vars(state, vars)?;
    Ok(plain_vars(state.alloc, vars)?)
}

/// Wrong with OverlappingNamesInLet at a name that stands in the head already.
fn check_vars(state: &Desugar, vars: &[TypeVar]) -> Result<(), Stop> {
    let mut names = state.names();
    for var in vars {
        names.add(&var.name.name.0, var.name.span)?;
    }
    Ok(())
}

fn plain_vars(alloc: Global, vars: &[TypeVar]) -> Result<Items<PlainVar>, NoMemory> {
    let mut list = Items::new(alloc);
    for var in vars {
        let one = plain_var(alloc, var)?;
        list.push(one)?;
    }
    Ok(list)
}

fn plain_var(alloc: Global, var: &TypeVar) -> Result<PlainVar, NoMemory> {
    match kind_of_var(alloc, var) {
        Ok(kind) => Ok(PlainVar {
            name: var.name.name.clone()?,
            kind,
            span: var.span,
        }),
        Err(error) => Err(error),
    }
}

/// A type in plain forms.
#[cycle(types)]
pub fn typ(alloc: Global, tree: &TypeTree) -> Result<PlainType, NoMemory> {
    match tree {
        TypeTree::Prefixed { .. } => prefixed(alloc, tree),
        TypeTree::Operation { .. } => operation(alloc, tree),
        TypeTree::Application { .. } => applied(alloc, tree),
        TypeTree::Variable { name } => Ok(PlainType::Variable {
            name: name.name.clone()?,
            span: name.span,
        }),
        TypeTree::Constructor { name } => constructor(name),
        TypeTree::Function { span } => built_in(alloc, "Function", *span),
        TypeTree::Str { value, span } => Ok(PlainType::Symbol {
            value: value.clone()?,
            span: *span,
        }),
        TypeTree::Paren { inner, .. } => typ(alloc, inner.get()),
        TypeTree::Row { row: fields, span } => row(alloc, fields, *span),
        TypeTree::XRecord { row: fields, span } => {
            let fields = row(alloc, fields, *span)?;
            let function = built_in(alloc, "Record", *span)?;
            application(alloc, function, fields, *span)
        }
        // Bracketing left no chain.
        TypeTree::Chain { first, .. } => typ(alloc, first.get()),
    }
}

/// A type, a synonym or a class by its name.
fn constructor(name: &Mention) -> Result<PlainType, NoMemory> {
    Ok(PlainType::Constructor {
        name: name.name.clone()?,
        span: name.span,
    })
}

/// A type of `Prim`.
fn built_in(alloc: Global, name: &str, span: Span) -> Result<PlainType, NoMemory> {
    Ok(PlainType::Constructor {
        name: prim(alloc, name)?,
        span,
    })
}

fn boxed(alloc: Global, tree: PlainType) -> Result<Boxed<PlainType>, NoMemory> {
    match Boxed::new(alloc, tree) {
        Ok(tree) => Ok(tree),
        Err(_) => Err(NoMemory),
    }
}

fn application(
    alloc: Global,
    function: PlainType,
    argument: PlainType,
    span: Span,
) -> Result<PlainType, NoMemory> {
    match boxed(alloc, function) {
        Ok(function) => with_argument(alloc, function, argument, span),
        Err(error) => Err(error),
    }
}

fn with_argument(
    alloc: Global,
    function: Boxed<PlainType>,
    argument: PlainType,
    span: Span,
) -> Result<PlainType, NoMemory> {
    match boxed(alloc, argument) {
        Ok(argument) => Ok(PlainType::Application {
            function,
            argument,
            span,
        }),
        Err(error) => Err(error),
    }
}

/// What is applied to a type that is written. The written one stands first, since the recursion is by it.
#[cycle(types)]
fn applied_to(
    alloc: Global,
    argument: &TypeTree,
    function: PlainType,
    span: Span,
) -> Result<PlainType, NoMemory> {
    match typ(alloc, argument) {
        Ok(argument) => application(alloc, function, argument, span),
        Err(error) => Err(error),
    }
}

#[cycle(types)]
fn operation(alloc: Global, tree: &TypeTree) -> Result<PlainType, NoMemory> {
    match tree {
        TypeTree::Operation {
            op,
            left,
            right,
            span,
        } => {
            let function = constructor(op)?;
            let one = applied_to(alloc, left.get(), function, *span)?;
            applied_to(alloc, right.get(), one, *span)
        }
        _ => built_in(alloc, "Function", tree.span()),
    }
}

/// A type and its arguments, one application each, which all begin where the type does.
#[cycle(types)]
fn applied(alloc: Global, tree: &TypeTree) -> Result<PlainType, NoMemory> {
    match tree {
        TypeTree::Application {
            function,
            arguments,
            ..
        } => {
            let start = function.get().span();
            let mut whole = typ(alloc, function.get())?;
            for argument in arguments.as_slice() {
                let span = start.to(argument.span());
                whole = applied_to(alloc, argument, whole, span)?;
            }
            Ok(whole)
        }
        _ => built_in(alloc, "Function", tree.span()),
    }
}

/// Types in plain forms.
#[cycle(types)]
pub fn typs(alloc: Global, trees: &[TypeTree]) -> Result<Items<PlainType>, NoMemory> {
    let mut list = Items::new(alloc);
    for tree in trees {
        add_type(alloc, tree, &mut list)?;
    }
    Ok(list)
}

#[cycle(types)]
fn add_type(alloc: Global, tree: &TypeTree, list: &mut Items<PlainType>) -> Result<(), NoMemory> {
    let one = typ(alloc, tree)?;
    list.push(one)?;
    Ok(())
}

#[cycle(types)]
fn row(alloc: Global, tree: &RowTree, span: Span) -> Result<PlainType, NoMemory> {
    match row_tail(alloc, tree) {
        Ok(tail) => Ok(PlainType::Row {
            fields: row_fields(alloc, tree.fields.as_slice())?,
            tail,
            span,
        }),
        Err(error) => Err(error),
    }
}

#[cycle(types)]
fn row_tail(alloc: Global, tree: &RowTree) -> Result<Option<Boxed<PlainType>>, NoMemory> {
    match &tree.tail {
        Some(tail) => {
            let tail = typ(alloc, tail.get())?;
            Ok(Some(boxed(alloc, tail)?))
        }
        None => Ok(None),
    }
}

#[cycle(types)]
fn row_fields(alloc: Global, fields: &[RowField]) -> Result<Items<PlainRowField>, NoMemory> {
    let mut list = Items::new(alloc);
    for field in fields {
        let one = row_field(alloc, field)?;
        list.push(one)?;
    }
    Ok(list)
}

#[cycle(types)]
fn row_field(alloc: Global, field: &RowField) -> Result<PlainRowField, NoMemory> {
    match typ(alloc, &field.x_type) {
        Ok(x_type) => Ok(PlainRowField {
            label: field.label.label.clone()?,
            label_span: field.label.span,
            x_type,
        }),
        Err(error) => Err(error),
    }
}

/// What stands before a type, one at a time. Its place begins with that of what is written.
#[derive(Drop)]
enum Front {
    Forall {
        name: Ident,
        kind: Option<Kind>,
        span: Span,
    },
    Given {
        constraint: PlainConstraint,
        span: Span,
    },
    Argument {
        x_type: PlainType,
        span: Span,
    },
}

/// A type behind what stands before it, which is put round it from the last to the first.
#[cycle(types)]
fn prefixed(alloc: Global, tree: &TypeTree) -> Result<PlainType, NoMemory> {
    match tree {
        TypeTree::Prefixed {
            prefixes,
            result,
            ..
        } => match fronts(alloc, prefixes.as_slice()) {
            Ok(list) => {
                let end = result.get().span();
                let behind = typ(alloc, result.get())?;
                behind_all(alloc, list, behind, end)
            }
            Err(error) => Err(error),
        },
        _ => built_in(alloc, "Function", tree.span()),
    }
}

#[cycle(types)]
fn fronts(alloc: Global, prefixes: &[TypePrefix]) -> Result<Vec<Front>, NoMemory> {
    let mut list = Vec::new(alloc);
    for prefix in prefixes {
        add_fronts(alloc, prefix, &mut list)?;
    }
    Ok(list)
}

#[cycle(types)]
fn add_fronts(alloc: Global, prefix: &TypePrefix, list: &mut Vec<Front>) -> Result<(), NoMemory> {
    match prefix {
        TypePrefix::Forall { vars, span } => add_vars(alloc, vars.as_slice(), *span, list),
        TypePrefix::Given { constraints, span } => {
            for one in constraints.as_slice() {
                add_given(alloc, one, *span, list)?;
            }
            Ok(())
        }
        TypePrefix::Argument { x_type, span } => {
            let x_type = typ(alloc, x_type)?;
            list.push(Front::Argument {
                x_type,
                span: *span,
            })?;
            Ok(())
        }
    }
}

fn add_vars(
    alloc: Global,
    vars: &[TypeVar],
    span: Span,
    list: &mut Vec<Front>,
) -> Result<(), NoMemory> {
    for var in vars {
        let PlainVar { name, kind, .. } = plain_var(alloc, var)?;
        list.push(Front::Forall { name, kind, span })?;
    }
    Ok(())
}

#[cycle(types)]
fn add_given(
    alloc: Global,
    constraint: &Constr,
    span: Span,
    list: &mut Vec<Front>,
) -> Result<(), NoMemory> {
    let constraint = constraint_of(alloc, constraint)?;
    list.push(Front::Given { constraint, span })?;
    Ok(())
}

fn behind_all(
    alloc: Global,
    list: Vec<Front>,
    behind: PlainType,
    end: Span,
) -> Result<PlainType, NoMemory> {
    let mut list = list;
    let mut whole = behind;
    for _ in 0..list.len() {
        if let Some(front) = list.pop() {
            whole = behind_one(alloc, front, whole, end)?;
        }
    }
    Ok(whole)
}

fn behind_one(
    alloc: Global,
    front: Front,
    behind: PlainType,
    end: Span,
) -> Result<PlainType, NoMemory> {
    match front {
        Front::Forall { name, kind, span } => match boxed(alloc, behind) {
            Ok(body) => Ok(PlainType::Forall {
                name,
                kind,
                body,
                span: span.to(end),
            }),
            Err(error) => Err(error),
        },
        Front::Given { constraint, span } => match boxed(alloc, behind) {
            Ok(body) => Ok(PlainType::Given {
                constraint,
                body,
                span: span.to(end),
            }),
            Err(error) => Err(error),
        },
        Front::Argument { x_type, span } => arrow(alloc, x_type, behind, span.to(end)),
    }
}

/// The type of functions from one type to another.
fn arrow(alloc: Global, from: PlainType, to: PlainType, span: Span) -> Result<PlainType, NoMemory> {
    match arrow_from(alloc, from, span) {
        Ok(function) => application(alloc, function, to, span),
        Err(error) => Err(error),
    }
}

fn arrow_from(alloc: Global, from: PlainType, span: Span) -> Result<PlainType, NoMemory> {
    match built_in(alloc, "Function", span) {
        Ok(function) => application(alloc, function, from, span),
        Err(error) => Err(error),
    }
}

#[cycle(types)]
fn constraint_of(alloc: Global, constraint: &Constr) -> Result<PlainConstraint, NoMemory> {
    match typs(alloc, constraint.arguments.as_slice()) {
        Ok(arguments) => Ok(PlainConstraint {
            class: constraint.class.name.clone()?,
            class_span: constraint.class.span,
            arguments,
            span: constraint.span,
        }),
        Err(error) => Err(error),
    }
}

/// Constraints in plain forms.
pub fn constraints(alloc: Global, list: &[Constr]) -> Result<Items<PlainConstraint>, NoMemory> {
    let mut all = Items::new(alloc);
    for constraint in list {
        let one = constraint_of(alloc, constraint)?;
        all.push(one)?;
    }
    Ok(all)
}

/// A signature in plain forms.
pub fn signature(alloc: Global, sig: &Sig) -> Result<PlainSignature, NoMemory> {
    Ok(PlainSignature {
        x_type: typ(alloc, &sig.x_type)?,
        span: sig.span,
    })
}
