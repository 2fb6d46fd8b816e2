//! Types.

use crate::kinds::variables;
use crate::printer::Printer;
use psc_ast::{Constr, RowTree, Sig, TypePrefix, TypeTree};
use psc_text::{NoMemory, Span};

#[cycle(types)]
pub fn typ(out: &mut Printer, tree: &TypeTree) -> Result<(), NoMemory> {
    match tree {
        TypeTree::Prefixed {
            prefixes,
            result,
            span,
        } => {
            out.open("to", *span)?;
            for one in prefixes.as_slice() {
                prefix(out, one)?;
            }
            typ(out, result.get())?;
            out.close()
        }
        TypeTree::Chain { first, rest, span } => {
            out.open("ops", *span)?;
            typ(out, first.get())?;
            for step in rest.as_slice() {
                out.mention(&step.op)?;
                typ(out, &step.operand)?;
            }
            out.close()
        }
        TypeTree::Operation {
            op,
            left,
            right,
            span,
        } => {
            out.open("op", *span)?;
            out.mention(op)?;
            typ(out, left.get())?;
            typ(out, right.get())?;
            out.close()
        }
        TypeTree::Application {
            function,
            arguments,
            span,
        } => {
            out.open("app", *span)?;
            typ(out, function.get())?;
            types(out, arguments.as_slice())?;
            out.close()
        }
        TypeTree::Variable { name } => out.ident(name),
        TypeTree::Constructor { name } => out.mention(name),
        TypeTree::Function { span } => out.named("(->)", *span),
        TypeTree::Str { value, .. } => out.quoted(value.as_str()),
        TypeTree::Paren { inner, span } => {
            out.open("paren", *span)?;
            typ(out, inner.get())?;
            out.close()
        }
        TypeTree::Row { row: fields, span } => row(out, "row", fields, *span),
        TypeTree::XRecord { row: fields, span } => row(out, "record", fields, *span),
    }
}

#[cycle(types)]
fn row(out: &mut Printer, word: &str, tree: &RowTree, span: Span) -> Result<(), NoMemory> {
    out.open(word, span)?;
    for field in tree.fields.as_slice() {
        out.label(&field.label)?;
        typ(out, &field.x_type)?;
    }
    if let Some(tail) = &tree.tail {
        out.word("|")?;
        typ(out, tail.get())?;
    }
    out.close()
}

#[cycle(types)]
fn prefix(out: &mut Printer, tree: &TypePrefix) -> Result<(), NoMemory> {
    match tree {
        TypePrefix::Forall { vars, span } => {
            out.open("forall", *span)?;
            variables(out, vars.as_slice())?;
            out.close()
        }
        TypePrefix::Given { constraints, span } => {
            out.open("given", *span)?;
            for one in constraints.as_slice() {
                constraint(out, one)?;
            }
            out.close()
        }
        TypePrefix::Argument { x_type, .. } => typ(out, x_type),
    }
}

#[cycle(types)]
fn constraint(out: &mut Printer, tree: &Constr) -> Result<(), NoMemory> {
    out.open("constraint", tree.span)?;
    out.mention(&tree.class)?;
    types(out, tree.arguments.as_slice())?;
    out.close()
}

#[cycle(types)]
pub fn types(out: &mut Printer, trees: &[TypeTree]) -> Result<(), NoMemory> {
    for one in trees {
        typ(out, one)?;
    }
    Ok(())
}

/// Constraints in a node of their own, if there are any.
pub fn context(out: &mut Printer, trees: &[Constr]) -> Result<(), NoMemory> {
    if trees.is_empty() {
        return Ok(());
    }
    out.group("given")?;
    for one in trees {
        constraint(out, one)?;
    }
    out.close()
}

pub fn sig(out: &mut Printer, tree: &Sig) -> Result<(), NoMemory> {
    out.open("sig", tree.span)?;
    out.ident(&tree.name)?;
    typ(out, &tree.x_type)?;
    out.close()
}
