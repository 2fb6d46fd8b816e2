//! A notation for types, so that an equation is a text.
//!
//! Words stand in prefix order: `@ f t` is an application, `> t u` an arrow, `all a t` a `forall` over a
//! variable of kind `Type`, `all-row a t` one over a row, `when C t u` a constraint of one argument,
//! `+ l t r` a row with a label, `.` the empty row, `any` is `$any`, `?0` an unknown and `"x` a text.
//! Other words are constructors, or variables where they begin with a small letter.
//!
//! The words are read from the last one on, so that the parts of a type lie on a stack.

use crate::fault::Fault;
use psc_items::{Shared, SharedItems};
use psc_text::{Ident, Label, Qualified, Text};
use psc_type::{Constraint, Kind, Ty};
use std::alloc::Global;

/// The fault that the words are none of the notation.
pub fn no_notation(alloc: Global, words: &str) -> Result<Fault, Fault> {
    Ok(Fault::Notation(String::from_str(alloc, words)?))
}

pub fn qualified(alloc: Global, name: &str) -> Result<Qualified, Fault> {
    Ok(Qualified {
        module: None,
        name: Text::new(alloc, name)?,
    })
}

pub fn ident(alloc: Global, name: &str) -> Result<Ident, Fault> {
    Ok(Ident(Text::new(alloc, name)?))
}

pub fn arrow_kind(alloc: Global, from: Kind, to: Kind) -> Result<Kind, Fault> {
    let one = Shared::new(alloc, from)?;
    let two = Shared::new(alloc, to)?;
    Ok(Kind::Arrow(one, two))
}

pub fn row_kind(alloc: Global, of: Kind) -> Result<Kind, Fault> {
    Ok(Kind::RowOf(Shared::new(alloc, of)?))
}

pub fn apply(alloc: Global, function: Ty, argument: Ty) -> Result<Ty, Fault> {
    let one = Shared::new(alloc, function)?;
    let two = Shared::new(alloc, argument)?;
    Ok(Ty::App(one, two))
}

pub fn arrow(alloc: Global, from: Ty, to: Ty) -> Result<Ty, Fault> {
    let function = Ty::Con(qualified(alloc, "->")?);
    let half = apply(alloc, function, from)?;
    apply(alloc, half, to)
}

/// The types that were read and are not part of one yet, the first one on top.
#[derive(Drop)]
pub struct Stack {
    alloc: Global,
    types: Vec<Ty>,
}

impl Stack {
    pub fn new(alloc: Global) -> Stack {
        Stack {
            alloc,
            types: Vec::new(alloc),
        }
    }

    fn put(&mut self, ty: Ty) -> Result<(), Fault> {
        self.types.push(ty)?;
        Ok(())
    }

    fn take(&mut self) -> Result<Ty, Fault> {
        match self.types.pop() {
            Some(ty) => Ok(ty),
            None => Err(no_notation(self.alloc, "a type ends too early")?),
        }
    }

    fn take_shared(&mut self) -> Result<Shared<Ty>, Fault> {
        let ty = self.take()?;
        Ok(Shared::new(self.alloc, ty)?)
    }

    fn take_variable(&mut self) -> Result<Ident, Fault> {
        match self.take()? {
            Ty::Var(name) => Ok(name),
            _ => Err(no_notation(self.alloc, "a variable is missing")?),
        }
    }

    fn take_constructor(&mut self) -> Result<Qualified, Fault> {
        match self.take()? {
            Ty::Con(name) => Ok(name),
            _ => Err(no_notation(self.alloc, "a class is missing")?),
        }
    }

    fn put_application(&mut self) -> Result<(), Fault> {
        let function = self.take_shared()?;
        let argument = self.take_shared()?;
        self.put(Ty::App(function, argument))
    }

    fn put_arrow(&mut self) -> Result<(), Fault> {
        let from = self.take()?;
        let to = self.take()?;
        let ty = arrow(self.alloc, from, to)?;
        self.put(ty)
    }

    fn put_forall(&mut self, kind: Kind) -> Result<(), Fault> {
        let variable = self.take_variable()?;
        let body = self.take_shared()?;
        self.put(Ty::Forall(variable, kind, body))
    }

    fn put_constraint(&mut self) -> Result<(), Fault> {
        let class = self.take_constructor()?;
        let mut args = Vec::new(self.alloc);
        args.push(self.take()?)?;
        let constraint = Constraint {
            class,
            args: SharedItems::from_vec(self.alloc, args)?,
        };
        let body = self.take_shared()?;
        self.put(Ty::Given(constraint, body))
    }

    fn put_row(&mut self) -> Result<(), Fault> {
        let label = self.take_variable()?;
        let head = self.take_shared()?;
        let rest = self.take_shared()?;
        self.put(Ty::RowCons(Label(label.0), head, rest))
    }

    fn put_unknown(&mut self, word: &str) -> Result<(), Fault> {
        match word.parse::<u64>() {
            Ok(number) => self.put(Ty::Unknown(number)),
            Err(_) => Err(no_notation(self.alloc, word)?),
        }
    }

    fn put_name(&mut self, word: &str) -> Result<(), Fault> {
        if let Some(number) = word.strip_prefix("?") {
            return self.put_unknown(number);
        }
        if let Some(text) = word.strip_prefix("\"") {
            return self.put(Ty::Symbol(Text::new(self.alloc, text)?));
        }
        if word.starts_with(|letter: char| letter.is_ascii_lowercase()) {
            let name = ident(self.alloc, word)?;
            return self.put(Ty::Var(name));
        }
        let name = qualified(self.alloc, word)?;
        self.put(Ty::Con(name))
    }

    /// Reads the word in front of what lies on the stack.
    pub fn read(&mut self, word: &str) -> Result<(), Fault> {
        match word {
            "@" => self.put_application(),
            ">" => self.put_arrow(),
            "all" => self.put_forall(Kind::Star),
            "all-row" => {
                let kind = row_kind(self.alloc, Kind::Star)?;
                self.put_forall(kind)
            }
            "when" => self.put_constraint(),
            "+" => self.put_row(),
            "." => self.put(Ty::RowNil),
            "any" => self.put(Ty::Any(Kind::Star)),
            _ => self.put_name(word),
        }
    }

    /// The one type on the stack.
    pub fn end(&mut self) -> Result<Ty, Fault> {
        let ty = self.take()?;
        if self.types.is_empty() {
            Ok(ty)
        } else {
            Err(no_notation(self.alloc, "a type too much")?)
        }
    }
}

/// The type that the text is in the notation.
pub fn read_type(alloc: Global, text: &str) -> Result<Ty, Fault> {
    let words: Vec<&str> = text.split_whitespace().collect(alloc)?;
    let mut stack = Stack::new(alloc);
    for word in words.iter().rev() {
        stack.read(*word)?;
    }
    stack.end()
}
