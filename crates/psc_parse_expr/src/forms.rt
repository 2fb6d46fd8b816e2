//! Lambdas, `if`, `case`, `let`, `do` and `ado`.

use crate::exprs::Exprs;
use psc_ast::{Alt, ExprTree, Stmt};
use psc_lex::Sign;
use psc_parse_atom::{Holes, made};
use psc_parse_base::{Fault, Parsed, Sym, expect, span_of};
use psc_parse_binder::some_atoms;
use sqlite_items::Boxed;

/// Whether the last statement is an expression.
fn ends_in_run(statements: &[Stmt]) -> bool {
    matches!(statements, [.., Stmt::Run { .. }])
}

/// Whether each alternative has as many binders.
fn have_width(alternatives: &[Alt], width: usize) -> bool {
    alternatives.iter().all(|alt| alt.binders.len() == width)
}

impl Exprs {
    #[cycle(exprs)]
    pub(crate) fn lambda<'a>(&self, syms: &'a [Sym]) -> Parsed<'a, Boxed<ExprTree>> {
        let (binders, rest) = some_atoms(self.alloc, expect(syms, Sign::Backslash)?)?;
        let (body, rest) = self.expr(expect(rest, Sign::Arrow)?, Holes::Refused)?;
        made(
            self.alloc,
            ExprTree::Lambda {
                binders,
                body,
                span: span_of(syms, rest),
            },
            rest,
        )
    }

    #[cycle(exprs)]
    pub(crate) fn choice<'a>(&self, syms: &'a [Sym]) -> Parsed<'a, Boxed<ExprTree>> {
        let (test, rest) = self.expr(expect(syms, Sign::If)?, Holes::Refused)?;
        let (then, rest) = self.expr(expect(rest, Sign::Then)?, Holes::Refused)?;
        let (otherwise, rest) = self.expr(expect(rest, Sign::Else)?, Holes::Refused)?;
        made(
            self.alloc,
            ExprTree::If {
                test,
                then,
                otherwise,
                span: span_of(syms, rest),
            },
            rest,
        )
    }

    #[cycle(exprs)]
    pub(crate) fn case<'a>(&self, syms: &'a [Sym]) -> Parsed<'a, Boxed<ExprTree>> {
        let (scrutinees, rest) = self.listed(expect(syms, Sign::Case)?, Holes::Allowed)?;
        let (alternatives, rest) = self.alts(expect(rest, Sign::Of)?)?;
        if !have_width(alternatives.as_slice(), scrutinees.len()) {
            return Err(Fault::Grammar);
        }
        let span = span_of(syms, rest);
        made(
            self.alloc,
            ExprTree::Case {
                scrutinees,
                alternatives,
                span,
            },
            rest,
        )
    }

    #[cycle(exprs)]
    pub(crate) fn let_in<'a>(&self, syms: &'a [Sym]) -> Parsed<'a, Boxed<ExprTree>> {
        let (binds, rest) = self.locals(expect(syms, Sign::Let)?)?;
        let (body, rest) = self.expr(expect(rest, Sign::In)?, Holes::Refused)?;
        made(
            self.alloc,
            ExprTree::Let {
                binds,
                body,
                span: span_of(syms, rest),
            },
            rest,
        )
    }

    #[cycle(exprs)]
    pub(crate) fn steps_of_do<'a>(&self, syms: &'a [Sym]) -> Parsed<'a, Boxed<ExprTree>> {
        let (statements, rest) = self.stmts(expect(syms, Sign::Do)?)?;
        if !ends_in_run(statements.as_slice()) {
            return Err(Fault::Grammar);
        }
        made(
            self.alloc,
            ExprTree::Do {
                statements,
                span: span_of(syms, rest),
            },
            rest,
        )
    }

    #[cycle(exprs)]
    pub(crate) fn steps_of_ado<'a>(&self, syms: &'a [Sym]) -> Parsed<'a, Boxed<ExprTree>> {
        let (statements, rest) = self.stmts(expect(syms, Sign::Ado)?)?;
        let (result, rest) = self.expr(expect(rest, Sign::In)?, Holes::Refused)?;
        made(
            self.alloc,
            ExprTree::Ado {
                statements,
                result,
                span: span_of(syms, rest),
            },
            rest,
        )
    }
}
