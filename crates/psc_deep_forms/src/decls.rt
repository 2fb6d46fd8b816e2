//! Steps in declarations.

use crate::goal::Goal;
use crate::read::{Reader, behind_name, behind_upper};
use psc_lex::Sign;
use psc_parse_base::{Fault, Next, Sym, eat, expect, lower, peek, peek_second, peek_third, sees};

/// Whether a kind signature comes: its keyword, an upper name and `::`.
fn begins_kind_signature(syms: &[Sym]) -> bool {
    let is_keyword = matches!(
        peek(syms),
        Next::Token(Sign::Data | Sign::Newtype | Sign::XType | Sign::Class)
    );
    is_keyword
        && peek_second(syms) == Next::Token(Sign::Upper)
        && peek_third(syms) == Next::Token(Sign::DoubleColon)
}

/// What stands behind the name of an instance, if it has one.
fn behind_instance_name(syms: &[Sym]) -> Result<&[Sym], Fault> {
    if lower(syms) {
        expect(behind_name(syms)?, Sign::DoubleColon)
    } else {
        Ok(syms)
    }
}

const UPPER: Goal = Goal::Token(Sign::Upper);

const COLONS: Goal = Goal::Token(Sign::DoubleColon);

const EQUALS: Goal = Goal::Token(Sign::Equals);

impl Reader {
    pub(crate) fn signature<'a>(&mut self, syms: &'a [Sym]) -> Result<&'a [Sym], Fault> {
        let rest = expect(behind_name(syms)?, Sign::DoubleColon)?;
        self.stay(rest, &[Goal::WholeType])
    }

    /// Behind `foreign`.
    fn foreign<'a>(&mut self, syms: &'a [Sym]) -> Result<&'a [Sym], Fault> {
        let rest = expect(syms, Sign::Import)?;
        if sees(rest, Sign::Data) {
            return self.skip(rest, &[UPPER, COLONS, Goal::Kind]);
        }
        self.stay(rest, &[Goal::Signature])
    }

    /// Behind `class`.
    fn class<'a>(&mut self, syms: &'a [Sym]) -> Result<&'a [Sym], Fault> {
        self.then(&[UPPER, Goal::Variables, Goal::Deps, Goal::ClassMembers])?;
        if self.ahead(syms).less_equal {
            return self.stay(syms, &[Goal::Context, Goal::Token(Sign::LessEqual)]);
        }
        Ok(syms)
    }

    /// An instance, with `else` before it or without.
    fn instance<'a>(&mut self, syms: &'a [Sym]) -> Result<&'a [Sym], Fault> {
        let rest = eat(syms, Sign::Else).unwrap_or(syms);
        let rest = behind_instance_name(expect(rest, Sign::Instance)?)?;
        self.then(&[Goal::ClassName, Goal::TypeAtoms, Goal::Members])?;
        if self.ahead(rest).fat_arrow {
            return self.stay(rest, &[Goal::Context, Goal::Token(Sign::FatArrow)]);
        }
        Ok(rest)
    }

    pub(crate) fn class_name<'a>(&mut self, syms: &'a [Sym]) -> Result<&'a [Sym], Fault> {
        behind_upper(syms)
    }

    /// A member of an instance; a signature is not for this compiler.
    pub(crate) fn member<'a>(&mut self, syms: &'a [Sym]) -> Result<&'a [Sym], Fault> {
        if lower(syms) && peek_second(syms) == Next::Token(Sign::DoubleColon) {
            return Err(Fault::Outside);
        }
        self.clause(syms)
    }

    pub(crate) fn names<'a>(&mut self, syms: &'a [Sym]) -> Result<&'a [Sym], Fault> {
        if lower(syms) {
            return self.skip(syms, &[Goal::Names]);
        }
        Ok(syms)
    }

    /// A signature or a clause.
    fn value<'a>(&mut self, syms: &'a [Sym]) -> Result<&'a [Sym], Fault> {
        if peek_second(syms) == Next::Token(Sign::DoubleColon) {
            return self.signature(syms);
        }
        self.clause(syms)
    }

    /// A declaration. Fixities have none of the forms that are looked for.
    pub(crate) fn decl<'a>(&mut self, syms: &'a [Sym]) -> Result<&'a [Sym], Fault> {
        if begins_kind_signature(syms) {
            return self.skip(syms, &[UPPER, COLONS, Goal::Kind]);
        }
        match peek(syms) {
            Next::Token(Sign::Data) => self.skip(syms, &[UPPER, Goal::Variables, Goal::Ctors]),
            Next::Token(Sign::Newtype) => {
                self.skip(
                    syms,
                    &[UPPER, Goal::Variables, EQUALS, UPPER, Goal::TypeAtom],
                )
            }
            Next::Token(Sign::XType) => {
                self.skip(syms, &[UPPER, Goal::Variables, EQUALS, Goal::WholeType])
            }
            Next::Token(Sign::Foreign) => self.foreign(expect(syms, Sign::Foreign)?),
            Next::Token(Sign::Class) => self.class(expect(syms, Sign::Class)?),
            Next::Token(Sign::Instance | Sign::Else) => self.instance(syms),
            Next::Token(Sign::Infix | Sign::Infixl | Sign::Infixr) => Ok(syms),
            _ => self.value(syms),
        }
    }
}
