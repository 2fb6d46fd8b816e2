//! Types as words, each before its parts and with `;` between them: `app;con Maybe;prim Int`.
//!
//! The words are read from the last one on, so that what a type is made of lies on a stack. Words that make no type
//! answer as if memory ran out, and the test that has them fails.

use psc_items::{Shared, SharedItems};
use psc_text::{Ident, Label, NoMemory, Qualified, Text, read_module_name};
use psc_type::{Constraint, Kind, Ty};
use std::alloc::Global;

/// Makes types from their words, over a stack of what was read and is part of no type yet.
#[derive(Clone, Copy)]
pub struct Make {
    pub alloc: Global,
}

impl Make {
    pub fn ident(self, name: &str) -> Result<Ident, NoMemory> {
        Ok(Ident(Text::new(self.alloc, name)?))
    }

    pub fn name(self, module: &str, name: &str) -> Result<Qualified, NoMemory> {
        Ok(Qualified {
            module: read_module_name(self.alloc, module)?,
            name: Text::new(self.alloc, name)?,
        })
    }

    /// The topmost type.
    pub fn take(self, stack: &mut Vec<Shared<Ty>>) -> Result<Shared<Ty>, NoMemory> {
        stack.pop().ok_or(NoMemory)
    }

    pub fn put(self, stack: &mut Vec<Shared<Ty>>, ty: Ty) -> Result<(), NoMemory> {
        let ty = Shared::new(self.alloc, ty)?;
        stack.push(ty)?;
        Ok(())
    }

    pub fn con(
        self,
        stack: &mut Vec<Shared<Ty>>,
        module: &str,
        name: &str,
    ) -> Result<(), NoMemory> {
        let name = self.name(module, name)?;
        self.put(stack, Ty::Con(name))
    }

    fn var(self, stack: &mut Vec<Shared<Ty>>, name: &str) -> Result<(), NoMemory> {
        let name = self.ident(name)?;
        self.put(stack, Ty::Var(name))
    }

    fn symbol(self, stack: &mut Vec<Shared<Ty>>, text: &str) -> Result<(), NoMemory> {
        let text = Text::new(self.alloc, text)?;
        self.put(stack, Ty::Symbol(text))
    }

    pub fn app(self, stack: &mut Vec<Shared<Ty>>) -> Result<(), NoMemory> {
        let function = self.take(stack)?;
        let argument = self.take(stack)?;
        self.put(stack, Ty::App(function, argument))
    }

    pub fn forall(self, stack: &mut Vec<Shared<Ty>>, name: &str) -> Result<(), NoMemory> {
        let name = self.ident(name)?;
        let body = self.take(stack)?;
        self.put(stack, Ty::Forall(name, Kind::Star, body))
    }

    fn row(self, stack: &mut Vec<Shared<Ty>>, label: &str) -> Result<(), NoMemory> {
        let label = Label(Text::new(self.alloc, label)?);
        let first = self.take(stack)?;
        let rest = self.take(stack)?;
        self.put(stack, Ty::RowCons(label, first, rest))
    }

    fn arrow(self, stack: &mut Vec<Shared<Ty>>) -> Result<(), NoMemory> {
        self.con(stack, "Prim", "Function")?;
        self.app(stack)?;
        self.app(stack)
    }

    fn record(self, stack: &mut Vec<Shared<Ty>>) -> Result<(), NoMemory> {
        self.con(stack, "Prim", "Record")?;
        self.app(stack)
    }

    fn constraint(self, class: &str, args: Vec<Ty>) -> Result<Constraint, NoMemory> {
        let args = SharedItems::from_vec(self.alloc, args)?;
        let class = self.name("Data.Sample", class)?;
        Ok(Constraint { class, args })
    }

    /// The topmost type by itself.
    fn taken(self, stack: &mut Vec<Shared<Ty>>) -> Result<Vec<Ty>, NoMemory> {
        let argument = self.take(stack)?;
        let mut args = Vec::new(self.alloc);
        args.push(argument.get().clone()?)?;
        Ok(args)
    }

    fn given(
        self,
        stack: &mut Vec<Shared<Ty>>,
        class: &str,
        args: Vec<Ty>,
    ) -> Result<(), NoMemory> {
        let constraint = self.constraint(class, args)?;
        let body = self.take(stack)?;
        self.put(stack, Ty::Given(constraint, body))
    }

    fn given_one(self, stack: &mut Vec<Shared<Ty>>, class: &str) -> Result<(), NoMemory> {
        let args = self.taken(stack)?;
        self.given(stack, class, args)
    }

    /// What a word without a name makes of its parts.
    fn bare(self, stack: &mut Vec<Shared<Ty>>, word: &str) -> Result<(), NoMemory> {
        match word {
            "nil" => self.put(stack, Ty::RowNil),
            "unknown" => self.put(stack, Ty::Unknown(7)),
            "any" => self.put(stack, Ty::Any(Kind::Star)),
            "record" => self.record(stack),
            "->" => self.arrow(stack),
            "app" => self.app(stack),
            _ => Err(NoMemory),
        }
    }

    /// What a word with a name makes of its parts.
    fn named(self, stack: &mut Vec<Shared<Ty>>, word: &str, name: &str) -> Result<(), NoMemory> {
        match word {
            "var" => self.var(stack, name),
            "con" => self.con(stack, "Data.Sample", name),
            "prim" => self.con(stack, "Prim", name),
            "sym" => self.symbol(stack, name),
            "forall" => self.forall(stack, name),
            "given" => self.given(stack, name, Vec::new(self.alloc)),
            "class" => self.given_one(stack, name),
            "row" => self.row(stack, name),
            _ => Err(NoMemory),
        }
    }

    fn read(self, stack: &mut Vec<Shared<Ty>>, word: &str) -> Result<(), NoMemory> {
        match word.split_once(' ') {
            Some((word, name)) => self.named(stack, word, name),
            None => self.bare(stack, word),
        }
    }

    fn read_all(self, stack: &mut Vec<Shared<Ty>>, words: &str) -> Result<(), NoMemory> {
        for word in words.rsplit(';') {
            self.read(stack, word)?;
        }
        Ok(())
    }

    /// The type that has these words.
    pub fn ty(self, words: &str) -> Result<Shared<Ty>, NoMemory> {
        let mut stack = Vec::new(self.alloc);
        self.read_all(&mut stack, words)?;
        self.take(&mut stack)
    }

    /// The same, held by none else.
    pub fn owned(self, words: &str) -> Result<Ty, NoMemory> {
        let ty = self.ty(words)?;
        Ok(ty.get().clone()?)
    }

    /// What a step made, so that it is let go by one call and not form by form.
    pub fn shared(self, made: Result<Ty, NoMemory>) -> Result<Shared<Ty>, NoMemory> {
        match made {
            Ok(ty) => Ok(Shared::new(self.alloc, ty)?),
            Err(error) => Err(error),
        }
    }

    /// Whether it is the type that has these words.
    pub fn is(self, ty: &Ty, words: &str) -> Result<bool, NoMemory> {
        let want = self.ty(words)?;
        Ok(ty.same(want.get()))
    }
}
