//! Steps in kinds and types. A `_`, an integer or a kind inside a type is a form that this compiler does not have.

use crate::goal::Goal;
use crate::read::{
    Reader, behind_label, behind_name, behind_upper, is_label, is_upper, tail, tail_if,
};
use psc_lex::Sign;
use psc_parse_atom::is_operator;
use psc_parse_base::{Fault, Next, Sym, eat, expect, lower, peek, peek_second, sees};

/// Whether an upper name comes that is this one.
fn sees_word(syms: &[Sym], word: &str) -> bool {
    match syms {
        [first, ..] => first.next == Next::Token(Sign::Upper) && first.text.as_str() == word,
        [] => false,
    }
}

/// Whether a kind of one word comes, other than `Row`.
fn sees_kind_word(syms: &[Sym]) -> bool {
    sees_word(syms, "Type") || sees_word(syms, "Constraint") || sees_word(syms, "Symbol")
}

/// Whether an argument of a type comes, or a form that would be one if this compiler had it.
fn begins_atom(next: Next) -> bool {
    match next {
        Next::Token(sign) => {
            sign.is_lower()
                || sign.is_upper()
                || matches!(
                    sign,
                    Sign::Str | Sign::LeftParen | Sign::LeftBrace | Sign::Underscore | Sign::Integer
                )
        }
        _ => false,
    }
}

/// Whether a row comes behind `(`, and not a type.
fn begins_row(syms: &[Sym]) -> bool {
    match peek(syms) {
        Next::Token(Sign::RightParen | Sign::Bar) => true,
        next => is_label(next) && peek_second(syms) == Next::Token(Sign::DoubleColon),
    }
}

/// What stands behind a type of one token.
fn behind_token(syms: &[Sym]) -> Result<&[Sym], Fault> {
    match peek(syms) {
        Next::Token(Sign::Upper | Sign::QualifiedUpper | Sign::Str) => tail(syms),
        Next::Token(Sign::Underscore | Sign::Integer) => Err(Fault::Outside),
        _ => behind_name(syms),
    }
}

impl Reader {
    pub(crate) fn kind_atom<'a>(&mut self, syms: &'a [Sym]) -> Result<&'a [Sym], Fault> {
        if sees_word(syms, "Row") {
            return self.skip(syms, &[Goal::KindAtom]);
        }
        if sees(syms, Sign::LeftParen) {
            return self.skip(syms, &[Goal::Kind, Goal::Token(Sign::RightParen)]);
        }
        tail_if(sees_kind_word(syms), syms)
    }

    pub(crate) fn variable<'a>(&mut self, syms: &'a [Sym]) -> Result<&'a [Sym], Fault> {
        let Some(open) = eat(syms, Sign::LeftParen) else {
            return behind_name(syms);
        };
        let rest = expect(behind_name(open)?, Sign::DoubleColon)?;
        self.stay(rest, &[Goal::Kind, Goal::Token(Sign::RightParen)])
    }

    pub(crate) fn variables<'a>(&mut self, syms: &'a [Sym]) -> Result<&'a [Sym], Fault> {
        if lower(syms) || sees(syms, Sign::LeftParen) {
            self.then(&[Goal::Variable, Goal::Variables])?;
        }
        Ok(syms)
    }

    /// Whether `forall` comes as a quantifier, and not as the name of a variable.
    fn begins_quantifier(&self, syms: &[Sym]) -> bool {
        match eat(syms, Sign::Forall) {
            Some(rest) => self.ahead(rest).dot,
            None => false,
        }
    }

    /// A quantifier, constraints, or what stands before an arrow.
    pub(crate) fn whole_type<'a>(&mut self, syms: &'a [Sym]) -> Result<&'a [Sym], Fault> {
        if self.begins_quantifier(syms) {
            let dot = Goal::Token(Sign::Dot);
            return self.skip(
                syms,
                &[Goal::Variable, Goal::Variables, dot, Goal::WholeType],
            );
        }
        if self.ahead(syms).fat_arrow {
            let arrow = Goal::Token(Sign::FatArrow);
            return self.stay(syms, &[Goal::Context, arrow, Goal::WholeType]);
        }
        let chain = [
            Goal::TypeAtom,
            Goal::TypeAtoms,
            Goal::MoreOperands,
            Goal::TypeArrow,
        ];
        self.stay(syms, &chain)
    }

    /// Operators and operands. A kind behind them is a form of PureScript.
    pub(crate) fn more_operands<'a>(&mut self, syms: &'a [Sym]) -> Result<&'a [Sym], Fault> {
        if is_operator(peek(syms)) {
            return self.skip(syms, &[Goal::TypeAtom, Goal::TypeAtoms, Goal::MoreOperands]);
        }
        if sees(syms, Sign::DoubleColon) {
            return Err(Fault::Outside);
        }
        Ok(syms)
    }

    pub(crate) fn type_atoms<'a>(&mut self, syms: &'a [Sym]) -> Result<&'a [Sym], Fault> {
        if begins_atom(peek(syms)) {
            self.then(&[Goal::TypeAtom, Goal::TypeAtoms])?;
        }
        Ok(syms)
    }

    pub(crate) fn type_atom<'a>(&mut self, syms: &'a [Sym]) -> Result<&'a [Sym], Fault> {
        if sees(syms, Sign::LeftBrace) {
            return self.skip(syms, &[Goal::Row, Goal::Token(Sign::RightBrace)]);
        }
        let Some(open) = eat(syms, Sign::LeftParen) else {
            return behind_token(syms);
        };
        let end = Goal::Token(Sign::RightParen);
        if let Some(rest) = eat(open, Sign::Arrow) {
            return self.stay(rest, &[end]);
        }
        if begins_row(open) {
            return self.stay(open, &[Goal::Row, end]);
        }
        self.stay(open, &[Goal::WholeType, end])
    }

    pub(crate) fn row<'a>(&mut self, syms: &'a [Sym]) -> Result<&'a [Sym], Fault> {
        if is_label(peek(syms)) {
            return self.stay(syms, &[Goal::RowField, Goal::RowTail]);
        }
        self.stay(syms, &[Goal::RowTail])
    }

    pub(crate) fn row_field<'a>(&mut self, syms: &'a [Sym]) -> Result<&'a [Sym], Fault> {
        let rest = expect(behind_label(syms)?, Sign::DoubleColon)?;
        self.stay(rest, &[Goal::WholeType, Goal::MoreRowFields])
    }

    pub(crate) fn context<'a>(&mut self, syms: &'a [Sym]) -> Result<&'a [Sym], Fault> {
        let Some(open) = eat(syms, Sign::LeftParen) else {
            return self.stay(syms, &[Goal::Constraint]);
        };
        let end = Goal::Token(Sign::RightParen);
        self.stay(open, &[Goal::Constraint, Goal::MoreConstraints, end])
    }

    pub(crate) fn constraint<'a>(&mut self, syms: &'a [Sym]) -> Result<&'a [Sym], Fault> {
        let rest = behind_upper(syms)?;
        self.stay(rest, &[Goal::TypeAtoms])
    }
}
