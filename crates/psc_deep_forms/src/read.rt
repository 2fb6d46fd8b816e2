//! The stack of goals, and how a step puts goals on it.

ghost use Rattle.std.specs.Prelude.{◌≡◌, ◌++◌, ◌<◌, ◌-◌, ◌∷◌, [], length, take, slice_get, IfOk};

use crate::ahead::{Ahead, look_ahead};
use crate::goal::Goal;
use psc_lex::Sign;
use psc_parse_base::{Fault, Next, Sym, eat, expect, peek};
use psc_text::NoMemory;
use std::alloc::Global;

/// What is still to be read of an item.
#[derive(Drop)]
pub(crate) struct Reader {
    /// The goal that comes next is the last one.
    goals: Vec<Goal>,
    /// What comes ahead of each symbol of the item, the last symbol first.
    ahead: Vec<Ahead>,
}

impl Reader {
    pub(crate) fn new(alloc: Global, item: &[Sym]) -> Result<Reader, NoMemory> {
        Ok(Reader {
            goals: Vec::new(alloc),
            ahead: look_ahead(alloc, item)?,
        })
    }

    /// The next goal, taken off the stack.
    pub(crate) fn next(&mut self) -> Option<Goal>
        ensures last { result ≡ slice_get self.old.goals.items (length self.old.goals.items - 1) }
        ensures rest { self.new.goals.items ≡ take (length self.old.goals.items - 1) self.old.goals.items }
    {
        self.goals.pop()
    }

    /// Puts goals before all others; they are read in the order in which they are given.
    pub(crate) fn then(&mut self, goals: &[Goal]) -> Result<(), Fault> {
        for goal in goals.iter().rev() {
            self.goals.push(*goal)?;
        }
        Ok(())
    }

    /// The goal that comes next becomes another one.
    pub(crate) fn replace_next(&mut self, goal: Goal) -> Result<(), Fault>
        ensures next { IfOk result (λ _. self.new.goals.items ≡ take (length self.old.goals.items - 1) self.old.goals.items ++ goal ∷ []) }
    {
        let _old = self.goals.pop();
        self.goals.push(goal)?;
        Ok(())
    }

    /// What comes ahead of these symbols, which are the item's last ones.
    pub(crate) fn ahead(&self, syms: &[Sym]) -> Ahead {
        match self.ahead.get(syms.len().wrapping_sub(1)) {
            Some(ahead) => *ahead,
            None => Ahead::NOTHING,
        }
    }

    /// Goals behind the symbols as they stand.
    pub(crate) fn stay<'a>(&mut self, syms: &'a [Sym], goals: &[Goal]) -> Result<&'a [Sym], Fault> {
        self.then(goals)?;
        Ok(syms)
    }

    /// Goals behind the token, if it comes; else there is nothing to read.
    pub(crate) fn optional<'a>(
        &mut self,
        syms: &'a [Sym],
        sign: Sign,
        goals: &[Goal],
    ) -> Result<&'a [Sym], Fault> {
        match eat(syms, sign) {
            Some(rest) => self.stay(rest, goals),
            None => Ok(syms),
        }
    }

    /// Goals behind the token, which must come.
    pub(crate) fn behind<'a>(
        &mut self,
        syms: &'a [Sym],
        sign: Sign,
        goals: &[Goal],
    ) -> Result<&'a [Sym], Fault> {
        let rest = expect(syms, sign)?;
        self.stay(rest, goals)
    }

    /// Goals behind the first symbol, whichever it is.
    pub(crate) fn skip<'a>(&mut self, syms: &'a [Sym], goals: &[Goal]) -> Result<&'a [Sym], Fault> {
        let rest = tail(syms)?;
        self.stay(rest, goals)
    }
}

/// What stands behind the first symbol.
pub(crate) fn tail(syms: &[Sym]) -> Result<&[Sym], Fault>
    ensures shorter { IfOk result (λ rest. length rest.now < length syms.now) }
{
    match syms {
        [_, rest @ ..] => Ok(rest),
        [] => Err(Fault::Grammar),
    }
}

/// What stands behind the first symbol where `comes` holds, and a fault of the grammar where not.
pub(crate) fn tail_if(comes: bool, syms: &[Sym]) -> Result<&[Sym], Fault> {
    if comes {
        tail(syms)
    } else {
        Err(Fault::Grammar)
    }
}

pub(crate) fn is_lower(next: Next) -> bool {
    match next {
        Next::Token(sign) => sign.is_lower(),
        _ => false,
    }
}

pub(crate) fn is_upper(next: Next) -> bool {
    match next {
        Next::Token(sign) => sign.is_upper(),
        _ => false,
    }
}

pub(crate) fn is_label(next: Next) -> bool {
    match next {
        Next::Token(sign) => sign.is_label(),
        _ => false,
    }
}

/// What stands behind a lower name.
pub(crate) fn behind_name(syms: &[Sym]) -> Result<&[Sym], Fault> {
    tail_if(is_lower(peek(syms)), syms)
}

/// What stands behind a label.
pub(crate) fn behind_label(syms: &[Sym]) -> Result<&[Sym], Fault> {
    tail_if(is_label(peek(syms)), syms)
}

/// What stands behind an upper name, with or without a module.
pub(crate) fn behind_upper(syms: &[Sym]) -> Result<&[Sym], Fault> {
    tail_if(is_upper(peek(syms)), syms)
}
