//! Steps in chains of operands, calls, and the forms that begin with a keyword.

ghost use Rattle.std.specs.Prelude.{◌≡◌};
ghost use Rattle.psc_deep_forms.specs.Goals as spec;

use crate::goal::{Goal, Holes, Steps};
use crate::read::{Reader, tail, tail_if};
use psc_lex::Sign;
use psc_parse_atom::{bare_hole, begins_part, is_operator, minus_alone, update_comes};
use psc_parse_base::{Fault, Next, Sym, expect, peek, sees};

/// An expression in which no operand may be a `_`.
pub(crate) const EXPR: Goal = Goal::Expr(Holes::Refused);

/// What a further operand of a chain may be.
fn further(holes: Holes) -> Holes
    ensures { result ≡ spec.further holes }
{
    match holes {
        Holes::Refused => Holes::Refused,
        Holes::Allowed | Holes::Seen => Holes::Allowed,
    }
}

/// Whether a variable or constructor comes.
fn begins_ticked(next: Next) -> bool {
    match next {
        Next::Token(sign) => sign.is_lower() || sign.is_upper() || sign == Sign::QualifiedLower,
        _ => false,
    }
}

/// What stands behind a name in backticks, from the first one on. No `-` stands there.
fn behind_ticked(syms: &[Sym]) -> Result<&[Sym], Fault> {
    let inside = expect(syms, Sign::Tick)?;
    let rest = expect(tail_if(begins_ticked(peek(inside)), inside)?, Sign::Tick)?;
    if sees(rest, Sign::Minus) {
        return Err(Fault::Grammar);
    }
    Ok(rest)
}

impl Reader {
    /// Operators and operands, and the type behind the chain. No type stands behind a chain with a `_`.
    pub(crate) fn more_operators<'a>(
        &mut self,
        syms: &'a [Sym],
        holes: Holes,
    ) -> Result<&'a [Sym], Fault> {
        if is_operator(peek(syms)) {
            let operand = Goal::Operand(further(holes));
            return self.skip(syms, &[operand, Goal::MoreOperators(holes)]);
        }
        if holes == Holes::Seen && sees(syms, Sign::DoubleColon) {
            return Err(Fault::Grammar);
        }
        self.optional(syms, Sign::DoubleColon, &[Goal::WholeType])
    }

    pub(crate) fn operand<'a>(
        &mut self,
        syms: &'a [Sym],
        holes: Holes,
    ) -> Result<&'a [Sym], Fault> {
        let rest = minus_alone(syms)?.unwrap_or(syms);
        self.stay(rest, &[Goal::Call(holes), Goal::MoreTicks(holes)])
    }

    pub(crate) fn more_ticks<'a>(
        &mut self,
        syms: &'a [Sym],
        holes: Holes,
    ) -> Result<&'a [Sym], Fault> {
        if sees(syms, Sign::Tick) {
            let rest = behind_ticked(syms)?;
            return self.stay(rest, &[Goal::Call(further(holes)), Goal::MoreTicks(holes)]);
        }
        if holes == Holes::Seen {
            self.replace_next(Goal::MoreOperators(Holes::Seen))?;
        }
        Ok(syms)
    }

    /// A `_` that no `.label` follows, as a call. As the subject of an update it is a form of PureScript.
    fn hole<'a>(&mut self, syms: &'a [Sym], holes: Holes) -> Result<&'a [Sym], Fault> {
        let rest = tail(syms)?;
        if update_comes(rest)? {
            return Err(Fault::Outside);
        }
        if holes == Holes::Refused {
            return Err(Fault::Grammar);
        }
        self.replace_next(Goal::MoreTicks(Holes::Seen))?;
        Ok(rest)
    }

    pub(crate) fn call<'a>(&mut self, syms: &'a [Sym], holes: Holes) -> Result<&'a [Sym], Fault> {
        if bare_hole(syms) {
            return self.hole(syms, holes);
        }
        self.stay(syms, &[Goal::Part, Goal::Parts])
    }

    pub(crate) fn parts<'a>(&mut self, syms: &'a [Sym]) -> Result<&'a [Sym], Fault> {
        if begins_part(peek(syms)) {
            self.then(&[Goal::Part, Goal::Parts])?;
        }
        Ok(syms)
    }

    /// Behind an `if`.
    fn choice<'a>(&mut self, rest: &'a [Sym]) -> Result<&'a [Sym], Fault> {
        let (then, otherwise) = (Goal::Token(Sign::Then), Goal::Token(Sign::Else));
        self.stay(rest, &[EXPR, then, EXPR, otherwise, EXPR])
    }

    /// Behind a `\`.
    fn lambda<'a>(&mut self, rest: &'a [Sym]) -> Result<&'a [Sym], Fault> {
        let arrow = Goal::Token(Sign::Arrow);
        self.stay(rest, &[Goal::BinderAtom, Goal::BinderAtoms, arrow, EXPR])
    }

    /// Behind the first token of a form that begins with this one.
    fn form<'a>(&mut self, sign: Sign, rest: &'a [Sym]) -> Result<&'a [Sym], Fault> {
        let end = Goal::Token(Sign::In);
        match sign {
            Sign::Backslash => self.lambda(rest),
            Sign::If => self.choice(rest),
            Sign::Case => self.stay(rest, &[Goal::Scrutinee(1)]),
            Sign::Let => self.stay(rest, &[Goal::Locals, end, EXPR]),
            Sign::Do => self.stay(rest, &[Goal::Statements(Steps::Do)]),
            _ => self.stay(rest, &[Goal::Statements(Steps::Ado), end, EXPR]),
        }
    }

    pub(crate) fn part<'a>(&mut self, syms: &'a [Sym]) -> Result<&'a [Sym], Fault> {
        match peek(syms) {
            Next::Token(
                sign @ (Sign::Backslash | Sign::If | Sign::Case | Sign::Let | Sign::Do | Sign::Ado),
            ) => self.form(sign, tail(syms)?),
            _ => self.updated(syms),
        }
    }

    /// An atom with its labels and its update.
    fn updated<'a>(&mut self, syms: &'a [Sym]) -> Result<&'a [Sym], Fault> {
        if bare_hole(syms) {
            return self.hole(syms, Holes::Refused);
        }
        self.atom(syms)
    }
}
