//! Types with true names.

use crate::resolver::{Resolver, ident};
use psc_ast::{
    Constr, KindTree, LabelAt, RowField, RowTree, Sig, TypePrefix, TypeStep, TypeTree, TypeVar,
};
use psc_scope::{Area, Stop};
use psc_text::{NoMemory, Text};
use sqlite_items::{Boxed, Items};
use std::alloc::Global;

/// A type with true names. Its `forall`s bind in it.
#[cycle(types)]
pub fn typ(state: &mut Resolver, tree: &TypeTree) -> Result<TypeTree, Stop> {
    match tree {
        TypeTree::Prefixed { .. } => prefixed(state, tree),
        TypeTree::Chain { .. } | TypeTree::Operation { .. } => operators(state, tree),
        TypeTree::Application {
            function,
            arguments,
            span,
        } => {
            let function = boxed(state, function)?;
            let arguments = typs(state, arguments.as_slice())?;
            Ok(TypeTree::Application {
                function,
                arguments,
                span: *span,
            })
        }
        TypeTree::Variable { name } => Ok(TypeTree::Variable {
            name: state.type_var(name)?,
        }),
        TypeTree::Constructor { name } => Ok(TypeTree::Constructor {
            name: state.global(Area::XType, name)?,
        }),
        TypeTree::Function { span } => Ok(TypeTree::Function { span: *span }),
        TypeTree::Str { value, span } => Ok(TypeTree::Str {
            value: value.clone()?,
            span: *span,
        }),
        TypeTree::Paren { inner, span } => Ok(TypeTree::Paren {
            inner: boxed(state, inner)?,
            span: *span,
        }),
        TypeTree::Row { row: fields, span } => Ok(TypeTree::Row {
            row: row(state, fields)?,
            span: *span,
        }),
        TypeTree::XRecord { row: fields, span } => Ok(TypeTree::XRecord {
            row: row(state, fields)?,
            span: *span,
        }),
    }
}

#[cycle(types)]
fn boxed(state: &mut Resolver, tree: &Boxed<TypeTree>) -> Result<Boxed<TypeTree>, Stop> {
    let alloc = state.alloc;
    let tree = typ(state, tree.get())?;
    Ok(Boxed::new(alloc, tree)?)
}

#[cycle(types)]
pub fn typs(state: &mut Resolver, trees: &[TypeTree]) -> Result<Items<TypeTree>, Stop> {
    let mut list = Items::new(state.alloc);
    for tree in trees {
        list.push(typ(state, tree)?)?;
    }
    Ok(list)
}

#[cycle(types)]
fn operators(state: &mut Resolver, tree: &TypeTree) -> Result<TypeTree, Stop> {
    match tree {
        TypeTree::Chain { first, rest, span } => {
            let first = boxed(state, first)?;
            let rest = steps(state, rest.as_slice())?;
            Ok(TypeTree::Chain {
                first,
                rest,
                span: *span,
            })
        }
        TypeTree::Operation {
            op,
            left,
            right,
            span,
        } => {
            let left = boxed(state, left)?;
            let op = state.operator(Area::TypeOp, op)?;
            let right = boxed(state, right)?;
            Ok(TypeTree::Operation {
                op,
                left,
                right,
                span: *span,
            })
        }
        _ => Ok(TypeTree::Function { span: tree.span() }),
    }
}

#[cycle(types)]
fn steps(state: &mut Resolver, steps: &[TypeStep]) -> Result<Items<TypeStep>, Stop> {
    let mut list = Items::new(state.alloc);
    for step in steps {
        let op = state.operator(Area::TypeOp, &step.op)?;
        let operand = typ(state, &step.operand)?;
        list.push(TypeStep { op, operand })?;
    }
    Ok(list)
}

#[cycle(types)]
fn prefixed(state: &mut Resolver, tree: &TypeTree) -> Result<TypeTree, Stop> {
    match tree {
        TypeTree::Prefixed {
            prefixes,
            result,
            span,
        } => {
            let mark = state.type_vars.mark();
            let prefixes = prefix_list(state, prefixes.as_slice())?;
            let result = boxed(state, result)?;
            state.type_vars.leave(mark)?;
            Ok(TypeTree::Prefixed {
                prefixes,
                result,
                span: *span,
            })
        }
        _ => Ok(TypeTree::Function { span: tree.span() }),
    }
}

#[cycle(types)]
fn prefix_list(state: &mut Resolver, prefixes: &[TypePrefix]) -> Result<Items<TypePrefix>, Stop> {
    let mut list = Items::new(state.alloc);
    for next in prefixes {
        list.push(prefix(state, next)?)?;
    }
    Ok(list)
}

/// What stands before a type. The variables of a `forall` are bound from there on.
#[cycle(types)]
fn prefix(state: &mut Resolver, next: &TypePrefix) -> Result<TypePrefix, Stop> {
    match next {
        TypePrefix::Forall { vars, span } => {
            let vars = bind_vars(state, vars.as_slice())?;
            Ok(TypePrefix::Forall { vars, span: *span })
        }
        TypePrefix::Given { constraints, span } => {
            let constraints = constraint_list(state, constraints.as_slice())?;
            Ok(TypePrefix::Given {
                constraints,
                span: *span,
            })
        }
        TypePrefix::Argument { x_type, span } => {
            let x_type = typ(state, x_type)?;
            Ok(TypePrefix::Argument {
                x_type,
                span: *span,
            })
        }
    }
}

/// Constraints with true names.
#[cycle(types)]
pub fn constraint_list(
    state: &mut Resolver,
    constraints: &[Constr],
) -> Result<Items<Constr>, Stop> {
    let mut list = Items::new(state.alloc);
    for constraint in constraints {
        let class = state.global(Area::XType, &constraint.class)?;
        let arguments = typs(state, constraint.arguments.as_slice())?;
        list.push(Constr {
            class,
            arguments,
            span: constraint.span,
        })?;
    }
    Ok(list)
}

#[cycle(types)]
fn row(state: &mut Resolver, tree: &RowTree) -> Result<RowTree, Stop> {
    let mut fields = Items::new(state.alloc);
    for field in tree.fields.as_slice() {
        let label = label(&field.label)?;
        let x_type = typ(state, &field.x_type)?;
        fields.push(RowField { label, x_type })?;
    }
    let tail = match &tree.tail {
        Some(tail) => Some(boxed(state, tail)?),
        None => None,
    };
    Ok(RowTree { fields, tail })
}

pub fn label(label: &LabelAt) -> Result<LabelAt, NoMemory> {
    Ok(LabelAt {
        label: label.label.clone()?,
        span: label.span,
    })
}

/// Binds type variables from here on, and copies them.
pub fn bind_vars(state: &mut Resolver, vars: &[TypeVar]) -> Result<Items<TypeVar>, Stop> {
    let mut list = Items::new(state.alloc);
    for var in vars {
        state.type_vars.enter(&var.name.name.0)?;
        list.push(type_var(state.alloc, var)?)?;
    }
    Ok(list)
}

fn type_var(alloc: Global, var: &TypeVar) -> Result<TypeVar, NoMemory> {
    let name = ident(&var.name)?;
    let kind = match &var.kind {
        Some(written) => Some(kind(alloc, written)?),
        None => None,
    };
    Ok(TypeVar {
        name,
        kind,
        span: var.span,
    })
}

/// A copy of a kind, in which no names stand.
#[cycle(kinds)]
pub fn kind(alloc: Global, tree: &KindTree) -> Result<KindTree, NoMemory> {
    match tree {
        KindTree::XType { span } => Ok(KindTree::XType { span: *span }),
        KindTree::Constraint { span } => Ok(KindTree::Constraint { span: *span }),
        KindTree::Symbol { span } => Ok(KindTree::Symbol { span: *span }),
        KindTree::Row { rows, of, span } => {
            let of = Boxed::new(alloc, kind(alloc, of.get())?)?;
            Ok(KindTree::Row {
                rows: *rows,
                of,
                span: *span,
            })
        }
        KindTree::Arrow { from, to, span } => {
            let from = kinds(alloc, from.as_slice())?;
            let to = Boxed::new(alloc, kind(alloc, to.get())?)?;
            Ok(KindTree::Arrow {
                from,
                to,
                span: *span,
            })
        }
        KindTree::Paren { inner, span } => {
            let inner = Boxed::new(alloc, kind(alloc, inner.get())?)?;
            Ok(KindTree::Paren { inner, span: *span })
        }
    }
}

#[cycle(kinds)]
fn kinds(alloc: Global, trees: &[KindTree]) -> Result<Items<KindTree>, NoMemory> {
    let mut list = Items::new(alloc);
    for tree in trees {
        list.push(kind(alloc, tree)?)?;
    }
    Ok(list)
}

/// A signature with true names.
pub fn signature(state: &mut Resolver, sig: &Sig) -> Result<Sig, Stop> {
    let name = ident(&sig.name)?;
    let x_type = typ(state, &sig.x_type)?;
    Ok(Sig {
        name,
        x_type,
        span: sig.span,
    })
}

/// The variables of the `forall`s at the front of a signature, those right of its arrows among them.
pub fn front_vars(tree: &TypeTree, out: &mut Vec<Text>) -> Result<(), NoMemory> {
    match tree {
        TypeTree::Paren { inner, .. } => front_vars(inner.get(), out),
        TypeTree::Prefixed {
            prefixes,
            result,
            ..
        } => {
            for prefix in prefixes.as_slice() {
                if let TypePrefix::Forall { vars, .. } = prefix {
                    for var in vars.as_slice() {
                        out.push(var.name.name.0.clone()?)?;
                    }
                }
            }
            front_vars(result.get(), out)
        }
        _ => Ok(()),
    }
}

/// The variables that stand in types.
///
/// In the head of an instance these are its variables: a `forall` cannot stand there.
#[cycle(vars)]
pub fn add_vars(tree: &TypeTree, out: &mut Vec<Text>) -> Result<(), NoMemory> {
    match tree {
        TypeTree::Variable { name } => {
            out.push(name.name.0.clone()?)?;
            Ok(())
        }
        TypeTree::Paren { inner, .. } => add_vars(inner.get(), out),
        TypeTree::Application {
            function,
            arguments,
            ..
        } => {
            add_vars(function.get(), out)?;
            add_all_vars(arguments.as_slice(), out)
        }
        TypeTree::Row { row, .. } | TypeTree::XRecord { row, .. } => add_row_vars(row, out),
        _ => add_part_vars(tree, out),
    }
}

/// The same of types with prefixes and with operators.
#[cycle(vars)]
fn add_part_vars(tree: &TypeTree, out: &mut Vec<Text>) -> Result<(), NoMemory> {
    match tree {
        TypeTree::Prefixed {
            prefixes,
            result,
            ..
        } => {
            for prefix in prefixes.as_slice() {
                if let TypePrefix::Argument { x_type, .. } = prefix {
                    add_vars(x_type, out)?;
                }
            }
            add_vars(result.get(), out)
        }
        TypeTree::Chain { first, rest, .. } => {
            add_vars(first.get(), out)?;
            for step in rest.as_slice() {
                add_vars(&step.operand, out)?;
            }
            Ok(())
        }
        TypeTree::Operation { left, right, .. } => {
            add_vars(left.get(), out)?;
            add_vars(right.get(), out)
        }
        _ => Ok(()),
    }
}

#[cycle(vars)]
pub fn add_all_vars(trees: &[TypeTree], out: &mut Vec<Text>) -> Result<(), NoMemory> {
    for tree in trees {
        add_vars(tree, out)?;
    }
    Ok(())
}

#[cycle(vars)]
fn add_row_vars(row: &RowTree, out: &mut Vec<Text>) -> Result<(), NoMemory> {
    for field in row.fields.as_slice() {
        add_vars(&field.x_type, out)?;
    }
    match &row.tail {
        Some(tail) => add_vars(tail.get(), out),
        None => Ok(()),
    }
}
