//! The own types, synonyms and classes that a type mentions.

use crate::tables::Tables;
use psc_ast::{Constr, RowTree, TypePrefix, TypeTree};
use psc_text::NoMemory;

/// Adds the numbers of what a type mentions.
#[cycle(types)]
pub(crate) fn type_mentions(
    tables: &Tables,
    tree: &TypeTree,
    found: &mut Vec<u32>,
) -> Result<(), NoMemory> {
    match tree {
        TypeTree::Prefixed {
            prefixes,
            result,
            ..
        } => {
            for prefix in prefixes.as_slice() {
                prefix_mentions(tables, prefix, found)?;
            }
            type_mentions(tables, result.get(), found)
        }
        TypeTree::Chain { first, rest, .. } => {
            type_mentions(tables, first.get(), found)?;
            for step in rest.as_slice() {
                add(found, tables.type_of(&step.op))?;
                type_mentions(tables, &step.operand, found)?;
            }
            Ok(())
        }
        TypeTree::Operation {
            op,
            left,
            right,
            ..
        } => {
            type_mentions(tables, left.get(), found)?;
            add(found, tables.type_of(op))?;
            type_mentions(tables, right.get(), found)
        }
        TypeTree::Application {
            function,
            arguments,
            ..
        } => {
            type_mentions(tables, function.get(), found)?;
            all_mentions(tables, arguments.as_slice(), found)
        }
        TypeTree::Constructor { name } => add(found, tables.type_of(name)),
        TypeTree::Paren { inner, .. } => type_mentions(tables, inner.get(), found),
        TypeTree::Row { row, .. } | TypeTree::XRecord { row, .. } => row_mentions(
            tables, row, found,
        ),
        TypeTree::Variable { .. } | TypeTree::Function { .. } | TypeTree::Str { .. } => Ok(()),
    }
}

/// Adds the numbers of what types mention.
#[cycle(types)]
pub(crate) fn all_mentions(
    tables: &Tables,
    trees: &[TypeTree],
    found: &mut Vec<u32>,
) -> Result<(), NoMemory> {
    for tree in trees {
        type_mentions(tables, tree, found)?;
    }
    Ok(())
}

#[cycle(types)]
fn prefix_mentions(
    tables: &Tables,
    prefix: &TypePrefix,
    found: &mut Vec<u32>,
) -> Result<(), NoMemory> {
    match prefix {
        TypePrefix::Forall { .. } => Ok(()),
        TypePrefix::Given { constraints, .. } => constraint_mentions(
            tables,
            constraints.as_slice(),
            found,
        ),
        TypePrefix::Argument { x_type, .. } => type_mentions(tables, x_type, found),
    }
}

/// Adds the numbers of what constraints mention, their classes among them.
#[cycle(types)]
pub(crate) fn constraint_mentions(
    tables: &Tables,
    constraints: &[Constr],
    found: &mut Vec<u32>,
) -> Result<(), NoMemory> {
    for constraint in constraints {
        add(found, tables.type_of(&constraint.class))?;
        all_mentions(tables, constraint.arguments.as_slice(), found)?;
    }
    Ok(())
}

#[cycle(types)]
fn row_mentions(tables: &Tables, row: &RowTree, found: &mut Vec<u32>) -> Result<(), NoMemory> {
    for field in row.fields.as_slice() {
        type_mentions(tables, &field.x_type, found)?;
    }
    match &row.tail {
        Some(tail) => type_mentions(tables, tail.get(), found),
        None => Ok(()),
    }
}

fn add(found: &mut Vec<u32>, number: Option<u32>) -> Result<(), NoMemory> {
    if let Some(number) = number {
        found.push(number)?;
    }
    Ok(())
}
