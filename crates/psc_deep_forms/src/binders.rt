//! Steps in binders.

use crate::goal::Goal;
use crate::read::{Reader, behind_label, is_label, tail, tail_if};
use psc_lex::Sign;
use psc_parse_atom::is_operator;
use psc_parse_base::{Fault, Next, Sym, eat, expect, lower, peek, peek_second, sees};

/// Whether a binder of one token comes.
fn is_token(next: Next) -> bool {
    match next {
        Next::Token(sign) => {
            sign.is_lower()
                || sign.is_upper()
                || matches!(
                    sign,
                    Sign::Underscore
                        | Sign::Integer
                        | Sign::Str
                        | Sign::Character
                        | Sign::True
                        | Sign::False
                )
        }
        _ => false,
    }
}

/// Whether a binder comes that may stand among others without parentheses.
pub(crate) fn begins_binder(next: Next) -> bool {
    is_token(next)
        || matches!(
            next,
            Next::Token(Sign::LeftParen | Sign::LeftBracket | Sign::LeftBrace)
        )
}

/// What stands behind `-` and an integer.
fn behind_negative(syms: &[Sym]) -> Result<&[Sym], Fault> {
    expect(tail(syms)?, Sign::Integer)
}

impl Reader {
    pub(crate) fn more_binder_operands<'a>(&mut self, syms: &'a [Sym]) -> Result<&'a [Sym], Fault> {
        if is_operator(peek(syms)) {
            return self.skip(syms, &[Goal::BinderOperand, Goal::MoreBinderOperands]);
        }
        Ok(syms)
    }

    pub(crate) fn binder_operand<'a>(&mut self, syms: &'a [Sym]) -> Result<&'a [Sym], Fault> {
        match peek(syms) {
            Next::Token(Sign::Minus) => behind_negative(syms),
            Next::Token(Sign::Upper | Sign::QualifiedUpper) => {
                self.skip(syms, &[Goal::BinderAtoms])
            }
            _ => self.stay(syms, &[Goal::BinderAtom]),
        }
    }

    pub(crate) fn binder_atoms<'a>(&mut self, syms: &'a [Sym]) -> Result<&'a [Sym], Fault> {
        if begins_binder(peek(syms)) {
            self.then(&[Goal::BinderAtom, Goal::BinderAtoms])?;
        }
        Ok(syms)
    }

    /// Behind the left bracket of an array.
    fn binder_array<'a>(&mut self, open: &'a [Sym]) -> Result<&'a [Sym], Fault> {
        if let Some(rest) = eat(open, Sign::RightBracket) {
            return Ok(rest);
        }
        let end = Goal::Token(Sign::RightBracket);
        self.stay(open, &[Goal::Binder, Goal::MoreBinders, end])
    }

    /// Behind the left brace of a record.
    fn binder_record<'a>(&mut self, open: &'a [Sym]) -> Result<&'a [Sym], Fault> {
        let end = Goal::Token(Sign::RightBrace);
        if is_label(peek(open)) {
            return self.stay(open, &[Goal::BinderField, end]);
        }
        self.stay(open, &[end])
    }

    pub(crate) fn binder_atom<'a>(&mut self, syms: &'a [Sym]) -> Result<&'a [Sym], Fault> {
        if lower(syms) && peek_second(syms) == Next::Token(Sign::At) {
            let rest = expect(tail(syms)?, Sign::At)?;
            return self.stay(rest, &[Goal::BinderAtom]);
        }
        match peek(syms) {
            Next::Token(Sign::LeftParen) => self.skip(syms, &[Goal::Binder, Goal::BinderEnd]),
            Next::Token(Sign::LeftBracket) => self.binder_array(tail(syms)?),
            Next::Token(Sign::LeftBrace) => self.binder_record(tail(syms)?),
            next => tail_if(is_token(next), syms),
        }
    }

    pub(crate) fn binder_end<'a>(&mut self, syms: &'a [Sym]) -> Result<&'a [Sym], Fault> {
        let end = Goal::Token(Sign::RightParen);
        if sees(syms, Sign::DoubleColon) {
            return self.skip(syms, &[Goal::WholeType, end]);
        }
        self.stay(syms, &[end])
    }

    pub(crate) fn binder_field<'a>(&mut self, syms: &'a [Sym]) -> Result<&'a [Sym], Fault> {
        let rest = behind_label(syms)?;
        if sees(rest, Sign::Colon) {
            return self.skip(rest, &[Goal::Binder, Goal::MoreBinderFields]);
        }
        self.stay(rest, &[Goal::MoreBinderFields])
    }
}
