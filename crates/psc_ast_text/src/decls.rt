//! Declarations.

use crate::exprs::clause;
use crate::kinds::{kind, variables};
use crate::printer::Printer;
use crate::types::{context, sig, typ, types};
use psc_ast::{
    ClassDecl, Ctor, DataDecl, Decl, Dep, FixityDecl, IdentAt, InstanceDecl, KindOf, Side,
    SynonymDecl, UpperAt,
};
use psc_text::NoMemory;

fn upper(out: &mut Printer, name: &UpperAt) -> Result<(), NoMemory> {
    out.named(name.name.as_str(), name.span)
}

fn ctor(out: &mut Printer, tree: &Ctor) -> Result<(), NoMemory> {
    out.open("ctor", tree.span)?;
    upper(out, &tree.name)?;
    types(out, tree.fields.as_slice())?;
    out.close()
}

fn x_data(out: &mut Printer, word: &str, tree: &DataDecl) -> Result<(), NoMemory> {
    out.open(word, tree.span)?;
    upper(out, &tree.name)?;
    variables(out, tree.vars.as_slice())?;
    for one in tree.ctors.as_slice() {
        ctor(out, one)?;
    }
    out.close()
}

fn synonym(out: &mut Printer, tree: &SynonymDecl) -> Result<(), NoMemory> {
    out.open("type", tree.span)?;
    upper(out, &tree.name)?;
    variables(out, tree.vars.as_slice())?;
    out.word("=")?;
    typ(out, &tree.body)?;
    out.close()
}

fn keyword(of: KindOf) -> &'static str {
    match of {
        KindOf::XData => "data",
        KindOf::Newtype => "newtype",
        KindOf::Synonym => "type",
        KindOf::Class => "class",
    }
}

fn idents(out: &mut Printer, names: &[IdentAt]) -> Result<(), NoMemory> {
    for name in names {
        out.ident(name)?;
    }
    Ok(())
}

fn dep(out: &mut Printer, tree: &Dep) -> Result<(), NoMemory> {
    out.open("dep", tree.span)?;
    idents(out, tree.from.as_slice())?;
    out.word("->")?;
    idents(out, tree.to.as_slice())?;
    out.close()
}

fn class(out: &mut Printer, tree: &ClassDecl) -> Result<(), NoMemory> {
    out.open("class", tree.span)?;
    context(out, tree.supers.as_slice())?;
    upper(out, &tree.name)?;
    variables(out, tree.vars.as_slice())?;
    for one in tree.deps.as_slice() {
        dep(out, one)?;
    }
    for one in tree.members.as_slice() {
        sig(out, one)?;
    }
    out.close()
}

fn instance(out: &mut Printer, tree: &InstanceDecl) -> Result<(), NoMemory> {
    out.open(
        if tree.goes_on {
            "else-instance"
        } else {
            "instance"
        },
        tree.span,
    )?;
    if let Some(name) = &tree.name {
        out.ident(name)?;
        out.word("::")?;
    }
    context(out, tree.context.as_slice())?;
    out.mention(&tree.class)?;
    types(out, tree.arguments.as_slice())?;
    for one in tree.members.as_slice() {
        clause(out, one)?;
    }
    out.close()
}

fn fixity(out: &mut Printer, tree: &FixityDecl) -> Result<(), NoMemory> {
    let word = match tree.side {
        Side::Left => "infixl",
        Side::Right => "infixr",
        Side::Neither => "infix",
    };
    out.open(word, tree.span)?;
    out.integer(i32::from(tree.power))?;
    if tree.of_types {
        out.word("type")?;
    }
    out.mention(&tree.target)?;
    out.named(tree.op.op.0.as_str(), tree.op.span)?;
    out.close()
}

/// A declaration.
pub fn decl(out: &mut Printer, tree: &Decl) -> Result<(), NoMemory> {
    match tree {
        Decl::XData(one) => x_data(out, "data", one),
        Decl::Newtype(one) => x_data(out, "newtype", one),
        Decl::Synonym(one) => synonym(out, one),
        Decl::KindSig {
            of,
            name,
            kind: written,
            span,
        } => {
            out.open("kind", *span)?;
            out.word(keyword(*of))?;
            upper(out, name)?;
            kind(out, written)?;
            out.close()
        }
        Decl::ForeignValue { sig: one, span } => {
            out.open("foreign", *span)?;
            sig(out, one)?;
            out.close()
        }
        Decl::ForeignData {
            name,
            kind: written,
            span,
        } => {
            out.open("foreign-data", *span)?;
            upper(out, name)?;
            kind(out, written)?;
            out.close()
        }
        Decl::Class(one) => class(out, one),
        Decl::Instance(one) => instance(out, one),
        Decl::Fixity(one) => fixity(out, one),
        Decl::Sig(one) => sig(out, one),
        Decl::Clause(one) => clause(out, one),
    }
}
