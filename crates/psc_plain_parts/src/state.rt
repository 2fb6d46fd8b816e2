//! What desugaring keeps: the next made name, the holes that are open, and the local names.

ghost use Rattle.std.specs.Prelude.{◌≡◌, ◌+◌, ◌++◌, IfOk, OnOk, codes, decimal};
ghost use Rattle.psc_plain_parts.specs.Made as spec;

use crate::scope::Scope;
use crate::seen::Names;
use itoa::Buffer;
use psc_text::{Ident, ModuleName, NoMemory, Qualified, Text, read_module_name};
use std::alloc::Global;

/// What desugaring keeps of a module.
#[derive(Drop)]
pub struct Desugar {
    pub alloc: Global,
    pub scope: Scope,
    /// The number of the next made name of the declaration.
    pub next: u32,
    /// The numbers of the open holes, the next one last.
    pub holes: Vec<u32>,
}

/// The numbers of made names that follow one another, from the first to before the last.
#[derive(Clone, Copy, Debug, PartialEq, Eq)]
pub struct Numbers {
    pub from: u32,
    pub to: u32,
}

impl Desugar {
    /// Nothing is made yet, and no name is bound.
    pub fn new(alloc: Global) -> Desugar {
        Desugar {
            alloc,
            scope: Scope::new(alloc),
            next: 0,
            holes: Vec::new(alloc),
        }
    }

    /// Begins a declaration, in which made names count from 0.
    pub fn begin(&mut self)
        ensures { self.new.next ≡ 0 }
    {
        self.next = 0;
    }

    /// The numbers of the next made names, so many.
    pub fn numbers(&mut self, count: usize) -> Result<Numbers, NoMemory>
        ensures from { IfOk result (λ numbers. numbers.from ≡ self.old.next) }
        ensures to { IfOk result (λ numbers. numbers.to ≡ self.old.next + count) }
        ensures next { OnOk result (self.new.next ≡ self.old.next + count) }
    {
        let from = self.next;
        let Ok(count) = u32::try_from(count) else {
            return Err(NoMemory);
        };
        let Some(to) = from.checked_add(count) else {
            return Err(NoMemory);
        };
        self.next = to;
        Ok(Numbers { from, to })
    }

    /// The number of the next made name.
    pub fn number(&mut self) -> Result<u32, NoMemory>
        ensures number { IfOk result (λ number. number ≡ self.old.next) }
        ensures next { OnOk result (self.new.next ≡ self.old.next + 1) }
    {
        let number = self.next;
        let Some(next) = number.checked_add(1) else {
            return Err(NoMemory);
        };
        self.next = next;
        Ok(number)
    }

    /// Opens holes, which take these numbers in their order.
    pub fn open_holes(&mut self, numbers: Numbers) -> Result<(), NoMemory> {
        for number in (numbers.from..numbers.to).rev() {
            self.holes.push(number)?;
        }
        Ok(())
    }

    /// The number of the next hole.
    pub fn hole(&mut self) -> u32 {
        match self.holes.pop() {
            Some(number) => number,
            None => 0,
        }
    }

    /// The made name of a number.
    pub fn made(&self, number: u32) -> Result<Ident, NoMemory>
        ensures { IfOk result (λ name. name ≡ spec.name number) }
    {
        made_name(self.alloc, number)
    }

    /// No name yet of a list.
    pub fn names(&self) -> Names {
        Names::none(self.alloc)
    }
}

fn made_name(alloc: Global, number: u32) -> Result<Ident, NoMemory>
    ensures { IfOk result (λ name. name ≡ spec.name number) }
{
    let mut text = String::from_str(alloc, "$")?;
    text.push_str(Buffer::new().format(number))?;
    Ok(Ident(Text::from_string(text)?))
}

/// A type of `Prim`.
pub(crate) fn prim(alloc: Global, name: &str) -> Result<Qualified, NoMemory>
    ensures { IfOk result (λ made. made ≡ spec.prim name.now) }
{
    match prim_module(alloc) {
        Ok(module) => Ok(Qualified {
            module: Some(module),
            name: Text::new(alloc, name)?,
        }),
        Err(error) => Err(error),
    }
}

/// The name of the module that is built in. It is a module's name; only want of memory refuses it.
fn prim_module(alloc: Global) -> Result<ModuleName, NoMemory>
    ensures { IfOk result (λ m. m ≡ codes "Prim") }
{
    match read_module_name(alloc, "Prim")? {
        Some(module) => Ok(module),
        None => Err(NoMemory),
    }
}
