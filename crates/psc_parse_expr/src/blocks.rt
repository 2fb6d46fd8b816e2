//! Alternatives, local bindings and statements, and the blocks of them.

use crate::exprs::{Exprs, rules};
use crate::sides::Draw;
use psc_ast::{Alt, Bind, Clause, ExprTree, Stmt};
use psc_lex::Sign;
use psc_parse_atom::Holes;
use psc_parse_base::{
    Fault, Next, Parsed, Sym, eat, expect, goes_on, ident, lower, opens_block, peek_second, sees,
    span_of,
};
use psc_parse_binder::{atoms, list, one_binder};
use psc_parse_type::sig;
use psc_text::Span;
use sqlite_items::Items;
use std::alloc::Global;

fn stmt_of(draw: Draw, span: Span) -> Stmt {
    let Draw { binder, value } = draw;
    match binder {
        None => Stmt::Run {
            value: value.into_inner(),
        },
        Some(binder) => Stmt::Binds {
            binder: binder.into_inner(),
            value: value.into_inner(),
            span,
        },
    }
}

/// A signature among bindings.
fn local_sig(alloc: Global, syms: &[Sym]) -> Parsed<'_, Bind> {
    let (sig, rest) = sig(alloc, syms)?;
    Ok((Bind::Sig(sig), rest))
}

/// Whether what comes behind a lower name makes a binding a pattern, and not a clause.
fn begins_pattern(syms: &[Sym]) -> bool {
    !lower(syms) || peek_second(syms) == Next::Token(Sign::At)
}

impl Exprs {
    /// The block of a `case`.
    #[cycle(exprs)]
    pub(crate) fn alts<'a>(&self, syms: &'a [Sym]) -> Parsed<'a, Items<Alt>> {
        let mut found = Items::new(self.alloc);
        let (mut more, mut rest) = opens_block(syms)?;
        for _turn in 0..syms.len() {
            if !more {
                return Ok((found, rest));
            }
            let (binders, after) = list(self.alloc, rest)?;
            let (rhs, after) = self.rhs(after, Sign::Arrow)?;
            found.push(Alt {
                binders,
                rhs,
                span: span_of(rest, after),
            })?;
            (more, rest) = goes_on(after)?;
        }
        if more {
            Err(Fault::Grammar)
        } else {
            Ok((found, rest))
        }
    }

    /// A clause of a function or a value.
    #[cycle(exprs)]
    pub(crate) fn clause<'a>(&self, syms: &'a [Sym]) -> Parsed<'a, Clause> {
        let (name, rest) = ident(syms)?;
        let (arguments, rest) = atoms(self.alloc, rest)?;
        let (rhs, rest) = self.rhs(rest, Sign::Equals)?;
        Ok((
            Clause {
                name,
                arguments,
                rhs,
                span: span_of(syms, rest),
            },
            rest,
        ))
    }

    /// A local binding: what begins with a lower name and no `@` is a signature or a clause, and any other a pattern.
    #[cycle(exprs)]
    fn bind<'a>(&self, syms: &'a [Sym]) -> Parsed<'a, Bind> {
        if begins_pattern(syms) {
            let (binder, rest) = one_binder(self.alloc, syms)?;
            let (rhs, rest) = self.rhs(rest, Sign::Equals)?;
            let (binder, span) = (binder.into_inner(), span_of(syms, rest));
            return Ok((Bind::Value { binder, rhs, span }, rest));
        }
        if peek_second(syms) == Next::Token(Sign::DoubleColon) {
            return local_sig(self.alloc, syms);
        }
        let (clause, rest) = self.clause(syms)?;
        Ok((Bind::Clause(clause), rest))
    }

    /// The block of a `let` or `where` inside an expression.
    #[cycle(exprs)]
    pub(crate) fn locals<'a>(&self, syms: &'a [Sym]) -> Parsed<'a, Items<Bind>> {
        if self.depth == 0 {
            return Err(Fault::Grammar);
        }
        let deeper = Exprs {
            alloc: self.alloc,
            depth: self.depth - 1,
        };
        let mut found = Items::new(self.alloc);
        let (mut more, mut rest) = opens_block(syms)?;
        for _turn in 0..syms.len() {
            if !more {
                return Ok((found, rest));
            }
            let (next, after) = deeper.bind(rest)?;
            found.push(next)?;
            (more, rest) = goes_on(after)?;
        }
        if more {
            Err(Fault::Grammar)
        } else {
            Ok((found, rest))
        }
    }

    /// A `let` that begins a statement; with an `in` it is an expression.
    #[cycle(exprs)]
    fn let_step<'a>(&self, syms: &'a [Sym]) -> Parsed<'a, Stmt> {
        let (binds, rest) = self.locals(expect(syms, Sign::Let)?)?;
        let Some(after) = eat(rest, Sign::In) else {
            return Ok((
                Stmt::Let {
                    binds,
                    span: span_of(syms, rest),
                },
                rest,
            ));
        };
        let (body, rest) = self.expr(after, Holes::Refused)?;
        let value = ExprTree::Let {
            binds,
            body,
            span: span_of(syms, rest),
        };
        Ok((Stmt::Run { value }, rest))
    }

    #[cycle(exprs)]
    fn stmt<'a>(&self, syms: &'a [Sym]) -> Parsed<'a, Stmt> {
        if sees(syms, Sign::Let) {
            return self.let_step(syms);
        }
        let (draw, rest) = self.draw(syms)?;
        Ok((stmt_of(draw, span_of(syms, rest)), rest))
    }

    #[cycle(exprs)]
    pub(crate) fn stmts<'a>(&self, syms: &'a [Sym]) -> Parsed<'a, Items<Stmt>> {
        let mut found = Items::new(self.alloc);
        let (mut more, mut rest) = opens_block(syms)?;
        for _turn in 0..syms.len() {
            if !more {
                return Ok((found, rest));
            }
            let (next, after) = self.stmt(rest)?;
            found.push(next)?;
            (more, rest) = goes_on(after)?;
        }
        if more {
            Err(Fault::Grammar)
        } else {
            Ok((found, rest))
        }
    }
}

/// A clause, as it stands at the top of a module or in an instance.
pub fn one_clause(alloc: Global, syms: &[Sym]) -> Parsed<'_, Clause> {
    rules(alloc, syms).clause(syms)
}
