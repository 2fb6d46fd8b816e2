//! Chains, operands and calls.

use psc_ast::{ChainStep, ExprTree, TickStep};
use psc_lex::{Sign, Tok};
use psc_parse_atom::{
    Holes, bare_hole, begins_part, hole, is_operator, made, minus_alone, ticked, typed,
};
use psc_parse_base::{
    Fault, Next, Parsed, Sym, content, mention, peek, sees, span_of, symbols, whole,
};
use psc_text::NoMemory;
use sqlite_items::{Boxed, Items};
use std::alloc::Global;

/// The rules of expressions. `depth` falls with each step into an expression or a block inside an expression.
#[derive(Clone, Copy)]
pub(crate) struct Exprs {
    pub(crate) alloc: Global,
    pub(crate) depth: usize,
}

impl Exprs {
    /// An expression, in which the operands of the chain may be a `_` where `holes` says so.
    #[cycle(exprs)]
    pub(crate) fn expr<'a>(&self, syms: &'a [Sym], holes: Holes) -> Parsed<'a, Boxed<ExprTree>> {
        if self.depth == 0 {
            return Err(Fault::Grammar);
        }
        let deeper = Exprs {
            alloc: self.alloc,
            depth: self.depth - 1,
        };
        let (value, rest) = deeper.chain(syms, holes)?;
        typed(self.alloc, syms, value, rest)
    }

    /// Parts, as many as come.
    #[cycle(exprs)]
    fn arguments<'a>(&self, syms: &'a [Sym]) -> Parsed<'a, Items<ExprTree>> {
        let mut found = Items::new(self.alloc);
        let mut rest = syms;
        for _turn in 0..syms.len() {
            if !begins_part(peek(rest)) {
                return Ok((found, rest));
            }
            let (next, after) = self.part(rest)?;
            found.push(next.into_inner())?;
            rest = after;
        }
        Ok((found, rest))
    }

    /// A part and its arguments.
    #[cycle(exprs)]
    fn call<'a>(&self, syms: &'a [Sym], holes: Holes) -> Parsed<'a, Boxed<ExprTree>> {
        if bare_hole(syms) {
            return hole(self.alloc, syms, holes);
        }
        let (function, rest) = self.part(syms)?;
        let (arguments, rest) = self.arguments(rest)?;
        if arguments.is_empty() {
            return Ok((function, rest));
        }
        made(
            self.alloc,
            ExprTree::Call {
                function,
                arguments,
                span: span_of(syms, rest),
            },
            rest,
        )
    }

    /// Names in backticks and the calls behind them, as many as come.
    #[cycle(exprs)]
    fn tick_steps<'a>(&self, syms: &'a [Sym], holes: Holes) -> Parsed<'a, Items<TickStep>> {
        let mut found = Items::new(self.alloc);
        let mut rest = syms;
        for _turn in 0..syms.len() {
            if !sees(rest, Sign::Tick) {
                return Ok((found, rest));
            }
            let (name, after) = ticked(self.alloc, rest)?;
            let (operand, after) = self.call(after, holes)?;
            found.push(TickStep {
                name,
                operand: operand.into_inner(),
            })?;
            rest = after;
        }
        Ok((found, rest))
    }

    /// Calls joined by backticks.
    #[cycle(exprs)]
    fn ticks<'a>(&self, syms: &'a [Sym], holes: Holes) -> Parsed<'a, Boxed<ExprTree>> {
        let (first, rest) = self.call(syms, holes)?;
        let (steps, rest) = self.tick_steps(rest, holes)?;
        if steps.is_empty() {
            return Ok((first, rest));
        }
        made(
            self.alloc,
            ExprTree::Ticks {
                first,
                rest: steps,
                span: span_of(syms, rest),
            },
            rest,
        )
    }

    /// Calls joined by backticks, and the `-` before them that is no part of a literal.
    #[cycle(exprs)]
    fn operand<'a>(&self, syms: &'a [Sym], holes: Holes) -> Parsed<'a, Boxed<ExprTree>> {
        let Some(after) = minus_alone(syms)? else {
            return self.ticks(syms, holes);
        };
        let (operand, rest) = self.ticks(after, holes)?;
        let (minus, span) = (span_of(syms, after), span_of(syms, rest));
        made(
            self.alloc,
            ExprTree::Negate {
                minus,
                operand,
                span,
            },
            rest,
        )
    }

    /// Operators and the operands behind them, as many as come.
    #[cycle(exprs)]
    fn steps<'a>(&self, syms: &'a [Sym], holes: Holes) -> Parsed<'a, Items<ChainStep>> {
        let mut found = Items::new(self.alloc);
        let mut rest = syms;
        for _turn in 0..syms.len() {
            if !is_operator(peek(rest)) {
                return Ok((found, rest));
            }
            let (op, after) = mention(self.alloc, rest)?;
            let (operand, after) = self.operand(after, holes)?;
            found.push(ChainStep {
                op,
                operand: operand.into_inner(),
            })?;
            rest = after;
        }
        Ok((found, rest))
    }

    #[cycle(exprs)]
    fn chain<'a>(&self, syms: &'a [Sym], holes: Holes) -> Parsed<'a, Boxed<ExprTree>> {
        let (first, rest) = self.operand(syms, holes)?;
        let (steps, rest) = self.steps(rest, holes)?;
        if steps.is_empty() {
            return Ok((first, rest));
        }
        made(
            self.alloc,
            ExprTree::Chain {
                first,
                rest: steps,
                span: span_of(syms, rest),
            },
            rest,
        )
    }

    #[cycle(exprs)]
    fn part<'a>(&self, syms: &'a [Sym]) -> Parsed<'a, Boxed<ExprTree>> {
        match peek(syms) {
            Next::Token(Sign::Backslash) => self.lambda(syms),
            Next::Token(Sign::If) => self.choice(syms),
            Next::Token(Sign::Case) => self.case(syms),
            Next::Token(Sign::Let) => self.let_in(syms),
            Next::Token(Sign::Do) => self.steps_of_do(syms),
            Next::Token(Sign::Ado) => self.steps_of_ado(syms),
            _ => self.updated(syms),
        }
    }
}

/// The rules, with room for as many steps inwards as there are symbols, and the first one.
pub(crate) fn rules(alloc: Global, syms: &[Sym]) -> Exprs {
    Exprs {
        alloc,
        depth: syms.len().saturating_add(1),
    }
}

/// An expression.
pub fn one_expr(alloc: Global, syms: &[Sym]) -> Parsed<'_, Boxed<ExprTree>> {
    rules(alloc, syms).expr(syms, Holes::Refused)
}

/// The expression that the tokens are.
///
/// None exactly where they are not of the grammar. Tokens nest no deeper than the limit on items, which the caller has seen.
pub fn parse_expr(alloc: Global, toks: &[Tok]) -> Result<Option<ExprTree>, NoMemory> {
    let syms = symbols(alloc, toks)?;
    match whole(one_expr(alloc, content(syms.as_slice())))? {
        Some(found) => Ok(Some(found.into_inner())),
        None => Ok(None),
    }
}
