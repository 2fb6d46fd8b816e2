//! Steps in atoms of expressions, and in the fields of records and updates. A nested update and a `_` as a field's value are
//! forms that this compiler does not have.

use crate::exprs::EXPR;
use crate::goal::{Goal, Holes};
use crate::read::{Reader, behind_label, tail, tail_if};
use psc_lex::Sign;
use psc_parse_atom::{begins_part, is_field_hole, is_operator_alone, update_comes};
use psc_parse_base::{Fault, Next, Sym, eat, expect, peek, sees};

/// What stands behind an atom of one token, or behind an integer with its `-`.
fn behind_token(syms: &[Sym]) -> Result<&[Sym], Fault> {
    if sees(syms, Sign::Minus) {
        return expect(tail(syms)?, Sign::Integer);
    }
    tail_if(begins_part(peek(syms)), syms)
}

impl Reader {
    /// Behind the left bracket of an array.
    fn array<'a>(&mut self, open: &'a [Sym]) -> Result<&'a [Sym], Fault> {
        if let Some(rest) = eat(open, Sign::RightBracket) {
            return self.stay(rest, &[Goal::Behind]);
        }
        let end = Goal::Token(Sign::RightBracket);
        self.stay(open, &[EXPR, Goal::MoreExprs, end, Goal::Behind])
    }

    /// Behind the left brace of a record.
    fn record<'a>(&mut self, open: &'a [Sym]) -> Result<&'a [Sym], Fault> {
        if let Some(rest) = eat(open, Sign::RightBrace) {
            return self.stay(rest, &[Goal::Behind]);
        }
        let end = Goal::Token(Sign::RightBrace);
        self.stay(open, &[Goal::Field, end, Goal::Behind])
    }

    /// Behind a left parenthesis.
    fn in_parens<'a>(&mut self, open: &'a [Sym]) -> Result<&'a [Sym], Fault> {
        let end = Goal::Token(Sign::RightParen);
        if is_operator_alone(open) {
            return self.skip(open, &[end, Goal::Behind]);
        }
        self.stay(open, &[Goal::Expr(Holes::Allowed), end, Goal::Behind])
    }

    pub(crate) fn atom<'a>(&mut self, syms: &'a [Sym]) -> Result<&'a [Sym], Fault> {
        match peek(syms) {
            Next::Token(Sign::LeftParen) => self.in_parens(tail(syms)?),
            Next::Token(Sign::LeftBracket) => self.array(tail(syms)?),
            Next::Token(Sign::LeftBrace) => self.record(tail(syms)?),
            _ => {
                let rest = behind_token(syms)?;
                self.stay(rest, &[Goal::Behind])
            }
        }
    }

    /// A label behind a dot, an update, or nothing more of an atom.
    pub(crate) fn behind_atom<'a>(&mut self, syms: &'a [Sym]) -> Result<&'a [Sym], Fault> {
        if let Some(rest) = eat(syms, Sign::Dot) {
            let rest = behind_label(rest)?;
            return self.stay(rest, &[Goal::Behind]);
        }
        if update_comes(syms)? {
            return self.skip(syms, &[Goal::Update, Goal::Token(Sign::RightBrace)]);
        }
        Ok(syms)
    }

    pub(crate) fn field<'a>(&mut self, syms: &'a [Sym]) -> Result<&'a [Sym], Fault> {
        let rest = behind_label(syms)?;
        let Some(value) = eat(rest, Sign::Colon) else {
            return self.stay(rest, &[Goal::MoreFields]);
        };
        if is_field_hole(value) {
            return Err(Fault::Outside);
        }
        self.stay(value, &[EXPR, Goal::MoreFields])
    }

    pub(crate) fn update<'a>(&mut self, syms: &'a [Sym]) -> Result<&'a [Sym], Fault> {
        let rest = behind_label(syms)?;
        if sees(rest, Sign::LeftBrace) {
            return Err(Fault::Outside);
        }
        let value = expect(rest, Sign::Equals)?;
        if is_field_hole(value) {
            return Err(Fault::Outside);
        }
        self.stay(value, &[EXPR, Goal::MoreUpdates])
    }
}
