//! Steps in `case`, right sides, local bindings and statements.

ghost use Rattle.std.specs.Prelude.{◌≡◌};
ghost use Rattle.psc_deep_forms.specs.Goals as spec;

use crate::exprs::EXPR;
use crate::goal::{Goal, Steps, Widths};
use crate::read::{Reader, behind_name};
use psc_lex::Sign;
use psc_parse_atom::is_scrutinee_hole;
use psc_parse_base::{
    Fault, Next, Sym, eat, expect, goes_on, lower, opens_block, peek_second, sees,
};

/// Whether what comes behind a lower name makes a binding a pattern, and not a clause.
fn begins_pattern(syms: &[Sym]) -> bool {
    !lower(syms) || peek_second(syms) == Next::Token(Sign::At)
}

impl Widths {
    /// Before the first alternative of a `case` with so many scrutinees.
    fn of(scrutinees: usize) -> Widths
        ensures { result ≡ spec.widths_of scrutinees }
    {
        Widths {
            scrutinees,
            binders: 1,
            fit: true,
        }
    }

    fn with_binder(self) -> Widths
        ensures { result ≡ spec.with_binder self }
    {
        Widths {
            scrutinees: self.scrutinees,
            binders: self.binders.saturating_add(1),
            fit: self.fit,
        }
    }

    /// Behind the binders of an alternative.
    fn ended(self) -> Widths
        ensures { result ≡ spec.ended self }
    {
        Widths {
            scrutinees: self.scrutinees,
            binders: 1,
            fit: self.fit && self.binders == self.scrutinees,
        }
    }
}

impl Reader {
    /// One item of a block behind the mark of its beginning, if the block has one, and the goal of the items behind it.
    fn block<'a>(&mut self, syms: &'a [Sym], item: Goal, more: Goal) -> Result<&'a [Sym], Fault> {
        let (has_item, rest) = opens_block(syms)?;
        if has_item {
            self.then(&[item, more])?;
        }
        Ok(rest)
    }

    /// One more item of a block, if one comes, and the goal of the items behind it; else the block's end.
    pub(crate) fn more_items<'a>(
        &mut self,
        syms: &'a [Sym],
        item: Goal,
        more: Goal,
    ) -> Result<&'a [Sym], Fault> {
        let (has_item, rest) = goes_on(syms)?;
        if has_item {
            self.then(&[item, more])?;
        }
        Ok(rest)
    }

    /// A block behind its keyword, if that comes.
    pub(crate) fn optional_block<'a>(
        &mut self,
        syms: &'a [Sym],
        item: Goal,
        more: Goal,
    ) -> Result<&'a [Sym], Fault> {
        match eat(syms, Sign::Where) {
            Some(rest) => self.block(rest, item, more),
            None => Ok(syms),
        }
    }

    pub(crate) fn locals<'a>(&mut self, syms: &'a [Sym]) -> Result<&'a [Sym], Fault> {
        self.block(syms, Goal::Local, Goal::MoreLocals)
    }

    pub(crate) fn scrutinee<'a>(
        &mut self,
        syms: &'a [Sym],
        number: usize,
    ) -> Result<&'a [Sym], Fault> {
        let more = Goal::MoreScrutinees(number);
        if is_scrutinee_hole(syms) {
            return self.skip(syms, &[more]);
        }
        self.stay(syms, &[EXPR, more])
    }

    pub(crate) fn more_scrutinees<'a>(
        &mut self,
        syms: &'a [Sym],
        number: usize,
    ) -> Result<&'a [Sym], Fault> {
        if let Some(rest) = eat(syms, Sign::Comma) {
            return self.stay(rest, &[Goal::Scrutinee(number.saturating_add(1))]);
        }
        let (has_item, rest) = opens_block(expect(syms, Sign::Of)?)?;
        if has_item {
            self.then(&[Goal::Alternative(Widths::of(number))])?;
        }
        Ok(rest)
    }

    pub(crate) fn alternative_end<'a>(
        &mut self,
        syms: &'a [Sym],
        widths: Widths,
    ) -> Result<&'a [Sym], Fault> {
        if let Some(rest) = eat(syms, Sign::Comma) {
            return self.stay(rest, &[Goal::Alternative(widths.with_binder())]);
        }
        let more = Goal::MoreAlternatives(widths.ended());
        self.stay(syms, &[Goal::Side(Sign::Arrow), more])
    }

    pub(crate) fn more_alternatives<'a>(
        &mut self,
        syms: &'a [Sym],
        widths: Widths,
    ) -> Result<&'a [Sym], Fault> {
        let (has_item, rest) = goes_on(syms)?;
        if has_item {
            return self.stay(rest, &[Goal::Alternative(widths)]);
        }
        if widths.fit {
            Ok(rest)
        } else {
            Err(Fault::Grammar)
        }
    }

    /// Guards, or a branch alone, whose expressions stand behind the token `by`.
    pub(crate) fn side<'a>(&mut self, syms: &'a [Sym], by: Sign) -> Result<&'a [Sym], Fault> {
        if sees(syms, Sign::Bar) {
            return self.stay(syms, &[Goal::Guards(by)]);
        }
        self.stay(syms, &[Goal::Branch(by)])
    }

    /// `binder <- value`, or a value alone.
    pub(crate) fn test<'a>(&mut self, syms: &'a [Sym]) -> Result<&'a [Sym], Fault> {
        if self.ahead(syms).left_arrow {
            let arrow = Goal::Token(Sign::LeftArrow);
            return self.stay(syms, &[Goal::Binder, arrow, EXPR]);
        }
        self.stay(syms, &[EXPR])
    }

    /// A clause behind its name.
    pub(crate) fn clause<'a>(&mut self, syms: &'a [Sym]) -> Result<&'a [Sym], Fault> {
        let rest = behind_name(syms)?;
        self.stay(rest, &[Goal::BinderAtoms, Goal::Side(Sign::Equals)])
    }

    /// A local binding: what begins with a lower name and no `@` is a signature or a clause, and any other a pattern.
    pub(crate) fn local<'a>(&mut self, syms: &'a [Sym]) -> Result<&'a [Sym], Fault> {
        if begins_pattern(syms) {
            return self.stay(syms, &[Goal::Binder, Goal::Side(Sign::Equals)]);
        }
        if peek_second(syms) == Next::Token(Sign::DoubleColon) {
            return self.stay(syms, &[Goal::Signature]);
        }
        self.clause(syms)
    }

    /// The statements of a form. Those of `do` are not empty.
    pub(crate) fn statements<'a>(
        &mut self,
        syms: &'a [Sym],
        of: Steps,
    ) -> Result<&'a [Sym], Fault> {
        let (has_item, rest) = opens_block(syms)?;
        if has_item {
            return self.stay(rest, &[Goal::Statement(of)]);
        }
        if of == Steps::Ado {
            Ok(rest)
        } else {
            Err(Fault::Grammar)
        }
    }

    pub(crate) fn statement<'a>(&mut self, syms: &'a [Sym], of: Steps) -> Result<&'a [Sym], Fault> {
        if sees(syms, Sign::Let) {
            return self.skip(syms, &[Goal::Locals, Goal::LetEnd(of)]);
        }
        let is_expr = !self.ahead(syms).left_arrow;
        self.stay(syms, &[Goal::Test, Goal::MoreStatements(of, is_expr)])
    }

    /// Behind the block of a `let` that begins a statement; with an `in` it is an expression.
    pub(crate) fn let_end<'a>(&mut self, syms: &'a [Sym], of: Steps) -> Result<&'a [Sym], Fault> {
        if sees(syms, Sign::In) {
            return self.skip(syms, &[EXPR, Goal::MoreStatements(of, true)]);
        }
        self.stay(syms, &[Goal::MoreStatements(of, false)])
    }

    /// Behind a statement. The last one of `do` is an expression.
    pub(crate) fn more_statements<'a>(
        &mut self,
        syms: &'a [Sym],
        of: Steps,
        is_expr: bool,
    ) -> Result<&'a [Sym], Fault> {
        let (has_item, rest) = goes_on(syms)?;
        if has_item {
            return self.stay(rest, &[Goal::Statement(of)]);
        }
        if of == Steps::Ado || is_expr {
            Ok(rest)
        } else {
            Err(Fault::Grammar)
        }
    }
}
