//! The names of instances.
//!
//! An instance without a written name is called `$`, its class, and for each constructor of its head in reading order `_` and
//! its name. The second of equal names ends with `$1`, the third with `$2`.

use itoa::Buffer;
use psc_ast::{Decl, InstanceDecl, RowTree, TypePrefix, TypeTree};
use psc_text::{Ident, NoMemory, Text};
use std::alloc::Global;
use std::collections::BTreeMap;

/// The names of all instances, in the order of the source.
pub fn instance_names(alloc: Global, decls: &[Decl]) -> Result<Vec<Ident>, NoMemory> {
    let mut names = Vec::new(alloc);
    let mut counts = BTreeMap::new(alloc);
    for decl in decls {
        if let Decl::Instance(instance) = decl {
            add_name(alloc, instance, &mut counts, &mut names)?;
        }
    }
    Ok(names)
}

fn add_name(
    alloc: Global,
    instance: &InstanceDecl,
    counts: &mut BTreeMap<Text, u32>,
    names: &mut Vec<Ident>,
) -> Result<(), NoMemory> {
    let name = name_of(alloc, instance, counts)?;
    names.push(name)?;
    Ok(())
}

fn name_of(
    alloc: Global,
    instance: &InstanceDecl,
    counts: &mut BTreeMap<Text, u32>,
) -> Result<Ident, NoMemory> {
    match &instance.name {
        Some(name) => Ok(name.name.clone()?),
        None => {
            let name = made_name(alloc, instance)?;
            numbered(alloc, counts, &name)
        }
    }
}

/// How many equal names stand before this one, which counts from now on.
fn count(counts: &mut BTreeMap<Text, u32>, name: &Text) -> Result<u32, NoMemory> {
    let before = match counts.get(name) {
        Some(count) => *count,
        None => 0,
    };
    let _before = counts.insert(name.clone()?, before.saturating_add(1))?;
    Ok(before)
}

/// The made name, with its number among equal ones behind it from the second on.
fn numbered(
    alloc: Global,
    counts: &mut BTreeMap<Text, u32>,
    name: &Text,
) -> Result<Ident, NoMemory> {
    let before = count(counts, name)?;
    if before == 0 {
        return Ok(Ident(name.clone()?));
    }
    with_number(alloc, name, before)
}

fn with_number(alloc: Global, name: &Text, number: u32) -> Result<Ident, NoMemory> {
    let mut text = String::from_str(alloc, name.as_str())?;
    text.push('$')?;
    text.push_str(Buffer::new().format(number))?;
    Ok(Ident(Text::from_string(text)?))
}

fn made_name(alloc: Global, instance: &InstanceDecl) -> Result<Text, NoMemory> {
    let mut text = String::from_str(alloc, "$")?;
    text.push_str(instance.class.name.name.as_str())?;
    for argument in instance.arguments.as_slice() {
        add_constructors(argument, &mut text)?;
    }
    Text::from_string(text)
}

fn add(name: &str, text: &mut String) -> Result<(), NoMemory> {
    text.push('_')?;
    text.push_str(name)?;
    Ok(())
}

/// Adds the constructors of a type in reading order; an arrow is `Function` and braces are `Record`.
#[cycle(names)]
fn add_constructors(tree: &TypeTree, text: &mut String) -> Result<(), NoMemory> {
    match tree {
        TypeTree::Constructor { name } => add(name.name.name.as_str(), text),
        TypeTree::Function { .. } => add("Function", text),
        TypeTree::Paren { inner, .. } => add_constructors(inner.get(), text),
        TypeTree::Application { .. } | TypeTree::Operation { .. } => add_applied(tree, text),
        TypeTree::Row { row, .. } => add_row(row, text),
        TypeTree::XRecord { row, .. } => {
            add("Record", text)?;
            add_row(row, text)
        }
        TypeTree::Prefixed { .. } => add_prefixed(tree, text),
        TypeTree::Variable { .. } | TypeTree::Str { .. } | TypeTree::Chain { .. } => Ok(()),
    }
}

#[cycle(names)]
fn add_applied(tree: &TypeTree, text: &mut String) -> Result<(), NoMemory> {
    match tree {
        TypeTree::Application {
            function,
            arguments,
            ..
        } => {
            add_constructors(function.get(), text)?;
            for argument in arguments.as_slice() {
                add_constructors(argument, text)?;
            }
            Ok(())
        }
        TypeTree::Operation {
            op,
            left,
            right,
            ..
        } => {
            add_constructors(left.get(), text)?;
            add(op.name.name.as_str(), text)?;
            add_constructors(right.get(), text)
        }
        _ => Ok(()),
    }
}

#[cycle(names)]
fn add_prefixed(tree: &TypeTree, text: &mut String) -> Result<(), NoMemory> {
    match tree {
        TypeTree::Prefixed {
            prefixes,
            result,
            ..
        } => {
            for prefix in prefixes.as_slice() {
                add_prefix(prefix, text)?;
            }
            add_constructors(result.get(), text)
        }
        _ => Ok(()),
    }
}

#[cycle(names)]
fn add_prefix(prefix: &TypePrefix, text: &mut String) -> Result<(), NoMemory> {
    match prefix {
        TypePrefix::Argument { x_type, .. } => {
            add_constructors(x_type, text)?;
            add("Function", text)
        }
        TypePrefix::Forall { .. } | TypePrefix::Given { .. } => Ok(()),
    }
}

#[cycle(names)]
fn add_row(row: &RowTree, text: &mut String) -> Result<(), NoMemory> {
    for field in row.fields.as_slice() {
        add_constructors(&field.x_type, text)?;
    }
    match &row.tail {
        Some(tail) => add_constructors(tail.get(), text),
        None => Ok(()),
    }
}
