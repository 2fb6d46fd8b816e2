//! Right sides: guards, branches and their `where`.

use crate::exprs::Exprs;
use psc_ast::{BinderTree, Branch, ExprTree, Guard, Locals, Rhs, Test};
use psc_lex::Sign;
use psc_parse_atom::Holes;
use psc_parse_base::{Fault, Parsed, Sym, comes, eat, expect, sees, span_of};
use psc_parse_binder::one_binder;
use psc_text::Span;
use sqlite_items::{Boxed, Items};

/// `binder <- value`, or a value alone: a test of a guard, or a statement.
#[derive(Drop)]
pub(crate) struct Draw {
    pub(crate) binder: Option<Boxed<BinderTree>>,
    pub(crate) value: Boxed<ExprTree>,
}

fn test_of(draw: Draw, span: Span) -> Test {
    let Draw { binder, value } = draw;
    match binder {
        None => Test::Holds {
            value: value.into_inner(),
        },
        Some(binder) => Test::Binds {
            binder: binder.into_inner(),
            value: value.into_inner(),
            span,
        },
    }
}

impl Exprs {
    #[cycle(exprs)]
    pub(crate) fn draw<'a>(&self, syms: &'a [Sym]) -> Parsed<'a, Draw> {
        if !comes(syms, Sign::LeftArrow) {
            let (value, rest) = self.expr(syms, Holes::Refused)?;
            return Ok((
                Draw {
                    binder: None,
                    value,
                },
                rest,
            ));
        }
        let (binder, rest) = one_binder(self.alloc, syms)?;
        let (value, rest) = self.expr(expect(rest, Sign::LeftArrow)?, Holes::Refused)?;
        Ok((
            Draw {
                binder: Some(binder),
                value,
            },
            rest,
        ))
    }

    /// Tests with commas between them.
    #[cycle(exprs)]
    fn tests<'a>(&self, syms: &'a [Sym]) -> Parsed<'a, Items<Test>> {
        let mut found = Items::new(self.alloc);
        let mut rest = syms;
        for _turn in 0..syms.len() {
            let (next, after) = self.draw(rest)?;
            found.push(test_of(next, span_of(rest, after)))?;
            let Some(after) = eat(after, Sign::Comma) else {
                return Ok((found, after));
            };
            rest = after;
        }
        Err(Fault::Grammar)
    }

    /// An expression behind the token `by`, and the bindings of its `where`, if that comes.
    #[cycle(exprs)]
    fn branch<'a>(&self, syms: &'a [Sym], by: Sign) -> Parsed<'a, Branch> {
        let (body, rest) = self.expr(expect(syms, by)?, Holes::Refused)?;
        let Some(after) = eat(rest, Sign::Where) else {
            return Ok((Branch { body, locals: None }, rest));
        };
        let (binds, end) = self.locals(after)?;
        let locals = Some(Locals {
            binds,
            span: span_of(rest, end),
        });
        Ok((Branch { body, locals }, end))
    }

    /// Guards, as many as come.
    #[cycle(exprs)]
    fn guards<'a>(&self, syms: &'a [Sym], by: Sign) -> Parsed<'a, Items<Guard>> {
        let mut found = Items::new(self.alloc);
        let mut rest = syms;
        for _turn in 0..syms.len() {
            let Some(after) = eat(rest, Sign::Bar) else {
                return Ok((found, rest));
            };
            let (tests, after) = self.tests(after)?;
            let (branch, after) = self.branch(after, by)?;
            found.push(Guard {
                tests,
                branch,
                span: span_of(rest, after),
            })?;
            rest = after;
        }
        Ok((found, rest))
    }

    /// A right side, whose expressions stand behind the token `by`.
    #[cycle(exprs)]
    pub(crate) fn rhs<'a>(&self, syms: &'a [Sym], by: Sign) -> Parsed<'a, Rhs> {
        if sees(syms, Sign::Bar) {
            let (guards, rest) = self.guards(syms, by)?;
            return Ok((Rhs::Guarded(guards), rest));
        }
        let (branch, rest) = self.branch(syms, by)?;
        Ok((Rhs::Plain(branch), rest))
    }
}
