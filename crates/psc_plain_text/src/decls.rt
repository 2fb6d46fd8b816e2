//! Declarations and modules.

use crate::exprs::{expr, signature_if};
use crate::names::{kind, kind_if, qualified};
use crate::types::{constraint, typ};
use psc_ast_text::Printer;
use psc_plain::{
    Plain, PlainClass, PlainConstraint, PlainCtor, PlainData, PlainDep, PlainForeign,
    PlainInstance, PlainMember, PlainSynonym, PlainType, PlainTypeDecl, PlainValue, PlainVar,
};
use psc_text::NoMemory;
use std::alloc::Global;

fn vars(out: &mut Printer, list: &[PlainVar]) -> Result<(), NoMemory> {
    for one in list {
        out.open("var", one.span)?;
        out.word(one.name.0.as_str())?;
        kind_if(out, &one.kind)?;
        out.close()?;
    }
    Ok(())
}

fn types(alloc: Global, out: &mut Printer, list: &[PlainType]) -> Result<(), NoMemory> {
    for one in list {
        typ(alloc, out, one)?;
    }
    Ok(())
}

fn constraints(alloc: Global, out: &mut Printer, list: &[PlainConstraint]) -> Result<(), NoMemory> {
    for one in list {
        constraint(alloc, out, one)?;
    }
    Ok(())
}

fn ctors(alloc: Global, out: &mut Printer, list: &[PlainCtor]) -> Result<(), NoMemory> {
    for one in list {
        out.open("ctor", one.span)?;
        out.named(one.name.as_str(), one.name_span)?;
        types(alloc, out, one.fields.as_slice())?;
        out.close()?;
    }
    Ok(())
}

fn x_data(alloc: Global, out: &mut Printer, tree: &PlainData) -> Result<(), NoMemory> {
    out.open(if tree.is_newtype { "newtype" } else { "data" }, tree.span)?;
    out.named(tree.name.as_str(), tree.name_span)?;
    kind_if(out, &tree.kind)?;
    vars(out, tree.vars.as_slice())?;
    ctors(alloc, out, tree.ctors.as_slice())?;
    out.close()
}

fn synonym(alloc: Global, out: &mut Printer, tree: &PlainSynonym) -> Result<(), NoMemory> {
    out.open("type", tree.span)?;
    out.named(tree.name.as_str(), tree.name_span)?;
    kind_if(out, &tree.kind)?;
    vars(out, tree.vars.as_slice())?;
    typ(alloc, out, &tree.body)?;
    out.close()
}

fn places(alloc: Global, out: &mut Printer, list: &[u32]) -> Result<(), NoMemory> {
    for one in list {
        let digits = format!(in alloc; "{}", *one)?;
        out.word(digits.as_str())?;
    }
    Ok(())
}

fn deps(alloc: Global, out: &mut Printer, list: &[PlainDep]) -> Result<(), NoMemory> {
    for one in list {
        out.group("dep")?;
        places(alloc, out, one.from.as_slice())?;
        out.word("->")?;
        places(alloc, out, one.to.as_slice())?;
        out.close()?;
    }
    Ok(())
}

fn members(alloc: Global, out: &mut Printer, list: &[PlainMember]) -> Result<(), NoMemory> {
    for one in list {
        out.open("sig", one.span)?;
        out.named(one.name.0.as_str(), one.name_span)?;
        typ(alloc, out, &one.x_type)?;
        out.close()?;
    }
    Ok(())
}

fn class(alloc: Global, out: &mut Printer, tree: &PlainClass) -> Result<(), NoMemory> {
    out.open("class", tree.span)?;
    out.named(tree.name.as_str(), tree.name_span)?;
    kind_if(out, &tree.kind)?;
    constraints(alloc, out, tree.supers.as_slice())?;
    vars(out, tree.vars.as_slice())?;
    deps(alloc, out, tree.deps.as_slice())?;
    members(alloc, out, tree.members.as_slice())?;
    out.close()
}

fn type_decl(alloc: Global, out: &mut Printer, tree: &PlainTypeDecl) -> Result<(), NoMemory> {
    match tree {
        PlainTypeDecl::XData(decl) => x_data(alloc, out, decl),
        PlainTypeDecl::Synonym(decl) => synonym(alloc, out, decl),
        PlainTypeDecl::Class(decl) => class(alloc, out, decl),
        PlainTypeDecl::Foreign {
            name,
            name_span,
            kind: stated,
            span,
        } => {
            out.open("foreign", *span)?;
            out.named(name.as_str(), *name_span)?;
            kind(out, stated)?;
            out.close()
        }
    }
}

fn values(alloc: Global, out: &mut Printer, list: &[PlainValue]) -> Result<(), NoMemory> {
    for one in list {
        out.open("=", one.span)?;
        out.named(one.name.0.as_str(), one.name_span)?;
        signature_if(alloc, out, &one.signature)?;
        expr(alloc, out, &one.body)?;
        out.close()?;
    }
    Ok(())
}

fn foreign(alloc: Global, out: &mut Printer, tree: &PlainForeign) -> Result<(), NoMemory> {
    out.open("foreign", tree.span)?;
    out.named(tree.name.0.as_str(), tree.name_span)?;
    typ(alloc, out, &tree.x_type)?;
    out.close()
}

fn instance(alloc: Global, out: &mut Printer, tree: &PlainInstance) -> Result<(), NoMemory> {
    let word = if tree.goes_on { "else" } else { "instance" };
    out.open(word, tree.span)?;
    out.word(tree.name.0.as_str())?;
    constraints(alloc, out, tree.context.as_slice())?;
    qualified(alloc, out, &tree.class, tree.class_span)?;
    types(alloc, out, tree.head.as_slice())?;
    values(alloc, out, tree.members.as_slice())?;
    out.close()
}

/// The declarations of a plain module: types, foreign values, instances and values, each list in its order.
pub fn plain_text(alloc: Global, module: &Plain, places: bool) -> Result<String, NoMemory> {
    let mut out = Printer::new(alloc, places);
    for one in module.types.as_slice() {
        type_decl(alloc, &mut out, one)?;
    }
    for one in module.foreigns.as_slice() {
        foreign(alloc, &mut out, one)?;
    }
    for one in module.instances.as_slice() {
        instance(alloc, &mut out, one)?;
    }
    values(alloc, &mut out, module.values.as_slice())?;
    Ok(out.into_text())
}
