//! Modules, export lists and imports.

use crate::decls::decl;
use crate::printer::Printer;
use psc_ast::{Ctors, Export, ImportList, ImportTree, Module, ModuleAt, Ref, UpperAt};
use psc_text::{NoMemory, Span};
use std::alloc::Global;

fn module_name(out: &mut Printer, name: &ModuleAt) -> Result<(), NoMemory> {
    out.named(name.name.as_str(), name.span)
}

fn upper(out: &mut Printer, name: &UpperAt) -> Result<(), NoMemory> {
    out.named(name.name.as_str(), name.span)
}

fn ctors(out: &mut Printer, tree: &Ctors) -> Result<(), NoMemory> {
    match tree {
        Ctors::Absent => Ok(()),
        Ctors::All => out.word(".."),
        Ctors::Listed(names) => {
            out.word(":")?;
            for name in names.as_slice() {
                upper(out, name)?;
            }
            Ok(())
        }
    }
}

/// A node of one name.
fn one_name(
    out: &mut Printer,
    word: &str,
    span: Span,
    name: &str,
    at: Span,
) -> Result<(), NoMemory> {
    out.open(word, span)?;
    out.named(name, at)?;
    out.close()
}

fn reference(out: &mut Printer, tree: &Ref) -> Result<(), NoMemory> {
    match tree {
        Ref::Value { name } => out.ident(name),
        Ref::Operator { op, span } => one_name(out, "operator", *span, op.op.0.as_str(), op.span),
        Ref::TypeOperator { op, span } => one_name(
            out,
            "type-operator",
            *span,
            op.op.0.as_str(),
            op.span,
        ),
        Ref::Class { name, span } => one_name(out, "class", *span, name.name.as_str(), name.span),
        Ref::XType {
            name,
            ctors: listed,
            span,
        } => {
            out.open("type", *span)?;
            upper(out, name)?;
            ctors(out, listed)?;
            out.close()
        }
    }
}

fn refs(out: &mut Printer, word: &str, trees: &[Ref]) -> Result<(), NoMemory> {
    out.group(word)?;
    for one in trees {
        reference(out, one)?;
    }
    out.close()
}

fn import(out: &mut Printer, tree: &ImportTree) -> Result<(), NoMemory> {
    out.open("import", tree.span)?;
    module_name(out, &tree.module)?;
    match &tree.list {
        ImportList::All => {}
        ImportList::Only(found) => refs(out, "only", found.as_slice())?,
        ImportList::Hiding(found) => refs(out, "hiding", found.as_slice())?,
    }
    if let Some(alias) = &tree.alias {
        out.word("as")?;
        module_name(out, alias)?;
    }
    out.close()
}

fn exports(out: &mut Printer, trees: &[Export]) -> Result<(), NoMemory> {
    out.group("exports")?;
    for one in trees {
        match one {
            Export::Ref(found) => reference(out, found)?,
            Export::Module { name, span } => one_name(
                out,
                "module",
                *span,
                name.name.as_str(),
                name.span,
            )?,
        }
    }
    out.close()
}

fn module(out: &mut Printer, tree: &Module) -> Result<(), NoMemory> {
    out.open("module", tree.span)?;
    module_name(out, &tree.name)?;
    if let Some(listed) = &tree.exports {
        exports(out, listed.as_slice())?;
    }
    for one in tree.imports.as_slice() {
        import(out, one)?;
    }
    for one in tree.decls.as_slice() {
        decl(out, one)?;
    }
    out.close()
}

/// A module as a text, with the places of its parts or without.
pub fn module_text(alloc: Global, tree: &Module, places: bool) -> Result<String, NoMemory> {
    let mut out = Printer::new(alloc, places);
    module(&mut out, tree)?;
    Ok(out.into_text())
}
