//! Expressions, local bindings and statements.

use crate::binders::{binder, binders};
use crate::printer::Printer;
use crate::types::{sig, typ};
use psc_ast::{Alt, Bind, Branch, Clause, ExprTree, Field, Guard, Rhs, Stmt, Test, Update};
use psc_text::NoMemory;

#[cycle(exprs)]
fn expr(out: &mut Printer, tree: &ExprTree) -> Result<(), NoMemory> {
    match tree {
        ExprTree::Chain { .. } | ExprTree::Ticks { .. } | ExprTree::Call { .. } => flat(out, tree),
        ExprTree::Typed { .. } | ExprTree::Operation { .. } | ExprTree::Negate { .. } => applied(
            out, tree,
        ),
        ExprTree::Lambda { .. } | ExprTree::If { .. } | ExprTree::Case { .. } => form(out, tree),
        ExprTree::Let { .. } | ExprTree::Do { .. } | ExprTree::Ado { .. } => blocks(out, tree),
        ExprTree::Access { .. } | ExprTree::Update { .. } | ExprTree::Paren { .. } => part(
            out, tree,
        ),
        ExprTree::Array { .. } | ExprTree::XRecord { .. } => brackets(out, tree),
        _ => atom(out, tree),
    }
}

#[cycle(exprs)]
fn exprs(out: &mut Printer, trees: &[ExprTree]) -> Result<(), NoMemory> {
    for one in trees {
        expr(out, one)?;
    }
    Ok(())
}

/// An expression of one token, or an operator in parentheses.
fn atom(out: &mut Printer, tree: &ExprTree) -> Result<(), NoMemory> {
    match tree {
        ExprTree::Integer { value, .. } => out.integer(*value),
        ExprTree::Str { value, .. } => out.quoted(value.as_str()),
        ExprTree::Character { value, .. } => out.character(*value),
        ExprTree::Boolean { value, span } => out.named(
            if *value { "true" } else { "false" },
            *span,
        ),
        ExprTree::Variable { name } | ExprTree::Constructor { name } => out.mention(name),
        ExprTree::Operator { name, span } => {
            out.open("operator", *span)?;
            out.mention(name)?;
            out.close()
        }
        ExprTree::Hole { span } => out.named("_", *span),
        _ => Ok(()),
    }
}

/// A list of operands.
#[cycle(exprs)]
fn flat(out: &mut Printer, tree: &ExprTree) -> Result<(), NoMemory> {
    match tree {
        ExprTree::Chain { first, rest, span } => {
            out.open("ops", *span)?;
            expr(out, first.get())?;
            for step in rest.as_slice() {
                out.mention(&step.op)?;
                expr(out, &step.operand)?;
            }
            out.close()
        }
        ExprTree::Ticks { first, rest, span } => {
            out.open("ticks", *span)?;
            expr(out, first.get())?;
            for step in rest.as_slice() {
                out.mention(&step.name)?;
                expr(out, &step.operand)?;
            }
            out.close()
        }
        ExprTree::Call {
            function,
            arguments,
            span,
        } => {
            out.open("call", *span)?;
            expr(out, function.get())?;
            exprs(out, arguments.as_slice())?;
            out.close()
        }
        _ => Ok(()),
    }
}

#[cycle(exprs)]
fn applied(out: &mut Printer, tree: &ExprTree) -> Result<(), NoMemory> {
    match tree {
        ExprTree::Typed {
            value,
            x_type,
            span,
        } => {
            out.open("::", *span)?;
            expr(out, value.get())?;
            typ(out, x_type.get())?;
            out.close()
        }
        ExprTree::Operation {
            op,
            left,
            right,
            span,
        } => {
            out.open("op", *span)?;
            out.mention(op)?;
            expr(out, left.get())?;
            expr(out, right.get())?;
            out.close()
        }
        ExprTree::Negate {
            minus,
            operand,
            span,
        } => {
            out.open("negate", *span)?;
            out.named("-", *minus)?;
            expr(out, operand.get())?;
            out.close()
        }
        _ => Ok(()),
    }
}

#[cycle(exprs)]
fn form(out: &mut Printer, tree: &ExprTree) -> Result<(), NoMemory> {
    match tree {
        ExprTree::Lambda {
            binders: names,
            body,
            span,
        } => {
            out.open("\\", *span)?;
            binders(out, names.as_slice())?;
            out.word("->")?;
            expr(out, body.get())?;
            out.close()
        }
        ExprTree::If {
            test,
            then,
            otherwise,
            span,
        } => {
            out.open("if", *span)?;
            expr(out, test.get())?;
            expr(out, then.get())?;
            expr(out, otherwise.get())?;
            out.close()
        }
        ExprTree::Case {
            scrutinees,
            alternatives,
            span,
        } => {
            out.open("case", *span)?;
            exprs(out, scrutinees.as_slice())?;
            for one in alternatives.as_slice() {
                alt(out, one)?;
            }
            out.close()
        }
        _ => Ok(()),
    }
}

#[cycle(exprs)]
fn blocks(out: &mut Printer, tree: &ExprTree) -> Result<(), NoMemory> {
    match tree {
        ExprTree::Let {
            binds: locals,
            body,
            span,
        } => {
            out.open("let", *span)?;
            binds(out, locals.as_slice())?;
            expr(out, body.get())?;
            out.close()
        }
        ExprTree::Do { statements, span } => {
            out.open("do", *span)?;
            stmts(out, statements.as_slice())?;
            out.close()
        }
        ExprTree::Ado {
            statements,
            result,
            span,
        } => {
            out.open("ado", *span)?;
            stmts(out, statements.as_slice())?;
            expr(out, result.get())?;
            out.close()
        }
        _ => Ok(()),
    }
}

#[cycle(exprs)]
fn part(out: &mut Printer, tree: &ExprTree) -> Result<(), NoMemory> {
    match tree {
        ExprTree::Access {
            subject,
            labels,
            span,
        } => {
            out.open(".", *span)?;
            expr(out, subject.get())?;
            for label in labels.as_slice() {
                out.label(label)?;
            }
            out.close()
        }
        ExprTree::Update {
            subject,
            updates,
            span,
        } => {
            out.open("update", *span)?;
            expr(out, subject.get())?;
            for one in updates.as_slice() {
                update(out, one)?;
            }
            out.close()
        }
        ExprTree::Paren { inner, span } => {
            out.open("paren", *span)?;
            expr(out, inner.get())?;
            out.close()
        }
        _ => Ok(()),
    }
}

#[cycle(exprs)]
fn brackets(out: &mut Printer, tree: &ExprTree) -> Result<(), NoMemory> {
    match tree {
        ExprTree::Array { items, span } => {
            out.open("array", *span)?;
            exprs(out, items.as_slice())?;
            out.close()
        }
        ExprTree::XRecord { fields, span } => {
            out.open("record", *span)?;
            for one in fields.as_slice() {
                field(out, one)?;
            }
            out.close()
        }
        _ => Ok(()),
    }
}

#[cycle(exprs)]
fn field(out: &mut Printer, tree: &Field) -> Result<(), NoMemory> {
    let Some(value) = &tree.value else {
        return out.label(&tree.label);
    };
    out.group(":")?;
    out.label(&tree.label)?;
    expr(out, value.get())?;
    out.close()
}

#[cycle(exprs)]
fn update(out: &mut Printer, tree: &Update) -> Result<(), NoMemory> {
    out.group("=")?;
    out.label(&tree.label)?;
    expr(out, tree.value.get())?;
    out.close()
}

#[cycle(exprs)]
fn alt(out: &mut Printer, tree: &Alt) -> Result<(), NoMemory> {
    out.open("of", tree.span)?;
    binders(out, tree.binders.as_slice())?;
    rhs(out, &tree.rhs)?;
    out.close()
}

#[cycle(exprs)]
fn rhs(out: &mut Printer, tree: &Rhs) -> Result<(), NoMemory> {
    match tree {
        Rhs::Plain(one) => {
            out.word("=")?;
            branch(out, one)
        }
        Rhs::Guarded(guards) => {
            for one in guards.as_slice() {
                guard(out, one)?;
            }
            Ok(())
        }
    }
}

#[cycle(exprs)]
fn guard(out: &mut Printer, tree: &Guard) -> Result<(), NoMemory> {
    out.open("|", tree.span)?;
    for one in tree.tests.as_slice() {
        test(out, one)?;
    }
    out.word("=")?;
    branch(out, &tree.branch)?;
    out.close()
}

#[cycle(exprs)]
fn branch(out: &mut Printer, tree: &Branch) -> Result<(), NoMemory> {
    expr(out, tree.body.get())?;
    if let Some(locals) = &tree.locals {
        out.open("where", locals.span)?;
        binds(out, locals.binds.as_slice())?;
        out.close()?;
    }
    Ok(())
}

#[cycle(exprs)]
fn test(out: &mut Printer, tree: &Test) -> Result<(), NoMemory> {
    match tree {
        Test::Holds { value } => expr(out, value),
        Test::Binds {
            binder: to,
            value,
            span,
        } => {
            out.open("<-", *span)?;
            binder(out, to)?;
            expr(out, value)?;
            out.close()
        }
    }
}

#[cycle(exprs)]
fn binds(out: &mut Printer, trees: &[Bind]) -> Result<(), NoMemory> {
    for one in trees {
        bind(out, one)?;
    }
    Ok(())
}

#[cycle(exprs)]
fn bind(out: &mut Printer, tree: &Bind) -> Result<(), NoMemory> {
    match tree {
        Bind::Sig(one) => sig(out, one),
        Bind::Clause(one) => clause(out, one),
        Bind::Value {
            binder: to,
            rhs: side,
            span,
        } => {
            out.open("value", *span)?;
            binder(out, to)?;
            rhs(out, side)?;
            out.close()
        }
    }
}

#[cycle(exprs)]
pub fn clause(out: &mut Printer, tree: &Clause) -> Result<(), NoMemory> {
    out.open("clause", tree.span)?;
    out.ident(&tree.name)?;
    binders(out, tree.arguments.as_slice())?;
    rhs(out, &tree.rhs)?;
    out.close()
}

#[cycle(exprs)]
fn stmts(out: &mut Printer, trees: &[Stmt]) -> Result<(), NoMemory> {
    for one in trees {
        stmt(out, one)?;
    }
    Ok(())
}

#[cycle(exprs)]
fn stmt(out: &mut Printer, tree: &Stmt) -> Result<(), NoMemory> {
    match tree {
        Stmt::Run { value } => expr(out, value),
        Stmt::Binds {
            binder: to,
            value,
            span,
        } => {
            out.open("<-", *span)?;
            binder(out, to)?;
            expr(out, value)?;
            out.close()
        }
        Stmt::Let {
            binds: locals,
            span,
        } => {
            out.open("let", *span)?;
            binds(out, locals.as_slice())?;
            out.close()
        }
    }
}
