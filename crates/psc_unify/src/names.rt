// Names by number: each name has one number, from 0 in the order in which they come.
ghost use Rattle.std.specs.Prelude.{◌≡◌, ◌↔◌, IsTrue, OnOk, IfOk, IfSome, slice_get, Some};
ghost use Rattle.psc_unify.specs.Tables.{Extends, AreIndexed};
ghost use Rattle.std.proofs.Props.{props};

use psc_text::{Ident, Label, NoMemory, Qualified, Text};
use std::alloc::{AllocError, Global};
use std::collections::BTreeMap;

/// A type without parts that no equation changes. `Any` has the number of its kind.
#[derive(Debug, PartialEq, Eq, PartialOrd, Ord, Drop)]
pub enum Constant {
    Con(Qualified),
    Symbol(Text),
    EmptyRow,
    Any(u64),
}

impl Clone for Constant {
    ghost is_clone = { λ constant copy. copy ≡ constant };

    fn clone(&self) -> Result<Constant, AllocError> {
        match self {
            Constant::Con(name) => Ok(Constant::Con(name.clone()?)),
            Constant::Symbol(text) => Ok(Constant::Symbol(text.clone()?)),
            Constant::EmptyRow => Ok(Constant::EmptyRow),
            Constant::Any(kind) => Ok(Constant::Any(*kind)),
        }
    }
}

impl Constant {
    /// Whether both are one constant.
    pub fn same(&self, other: &Constant) -> bool
        ensures { IsTrue result ↔ (self.now ≡ other.now) }
    {
        match self {
            Constant::Con(name) => match other {
                Constant::Con(second) => name.same(second),
                _ => false,
            },
            Constant::Symbol(text) => match other {
                Constant::Symbol(second) => text.same(second),
                _ => false,
            },
            Constant::EmptyRow => matches!(other, Constant::EmptyRow),
            Constant::Any(kind) => match other {
                Constant::Any(second) => kind == second,
                _ => false,
            },
        }
    }
}

/// Constants with the numbers of their kinds.
#[derive(Drop)]
pub struct Constants {
    numbers: BTreeMap<Constant, u64>,
    pub rows: Vec<(Constant, u64)>,
    ghost indexed: { AreIndexed ⟦<Constant as Ord>⟧.cmp (λ row. row.0) numbers rows.items } by { Prim.hlevel props },
}

impl Constants {
    pub fn new(alloc: Global) -> Constants {
        Constants {
            numbers: BTreeMap::new(alloc),
            rows: Vec::new(alloc),
        }
    }

    /// The number of the kind of a constant that has the number.
    pub fn kind_of(&self, number: u64, constant: &Constant) -> Option<u64>
        ensures { IfSome result (λ k. slice_get self.now.rows.items number ≡ Some (constant.now, k)) }
    {
        match self.rows.get(number as usize) {
            Some(row) => if row.0.same(constant) {
                Some(row.1)
            } else {
                None
            },
            None => None,
        }
    }

    /// The number of a constant with the number of its kind. A new constant has the kind that is given.
    pub fn number(&mut self, constant: Constant, kind: u64) -> Result<(u64, u64), NoMemory>
        ensures row { IfOk result (λ r. slice_get self.new.rows.items r.0 ≡ Some (constant, r.1)) }
        ensures kept { OnOk result (Extends self.old.rows.items self.new.rows.items) }
    {
        if let Some(number) = self.numbers.get(&constant).copied() {
            return match self.kind_of(number, &constant) {
                Some(known) => Ok((number, known)),
                None => Err(NoMemory),
            };
        }
        let number = self.rows.len() as u64;
        let key = constant.clone()?;
        self.numbers.insert(key, number)?;
        self.rows.push((constant, kind))?;
        Ok((number, kind))
    }

    /// The constant with a number.
    pub fn get(&self, number: u64) -> Option<&(Constant, u64)>
        ensures { IfSome result (λ row. slice_get self.now.rows.items number ≡ Some row.now) }
    {
        self.rows.get(number as usize)
    }
}

/// Rigid variables with the numbers of their kinds.
#[derive(Drop)]
pub struct Rigids {
    numbers: BTreeMap<Ident, u64>,
    pub rows: Vec<(Ident, u64)>,
    ghost indexed: { AreIndexed ⟦<Ident as Ord>⟧.cmp (λ row. row.0) numbers rows.items } by { Prim.hlevel props },
}

impl Rigids {
    pub fn new(alloc: Global) -> Rigids {
        Rigids {
            numbers: BTreeMap::new(alloc),
            rows: Vec::new(alloc),
        }
    }

    /// The number of the kind of a rigid variable that has the number.
    pub fn kind_of(&self, number: u64, name: &Ident) -> Option<u64>
        ensures { IfSome result (λ k. slice_get self.now.rows.items number ≡ Some (name.now, k)) }
    {
        match self.rows.get(number as usize) {
            Some(row) => if row.0.same(name) { Some(row.1) } else { None },
            None => None,
        }
    }

    /// The number of a rigid variable with the number of its kind. A new one has the kind that is given.
    pub fn number(&mut self, name: &Ident, kind: u64) -> Result<(u64, u64), NoMemory>
        ensures row { IfOk result (λ r. slice_get self.new.rows.items r.0 ≡ Some (name.now, r.1)) }
        ensures kept { OnOk result (Extends self.old.rows.items self.new.rows.items) }
    {
        if let Some(number) = self.numbers.get(name).copied() {
            return match self.kind_of(number, name) {
                Some(known) => Ok((number, known)),
                None => Err(NoMemory),
            };
        }
        let number = self.rows.len() as u64;
        let row = name.clone()?;
        let key = name.clone()?;
        self.numbers.insert(key, number)?;
        self.rows.push((row, kind))?;
        Ok((number, kind))
    }

    /// The rigid variable with a number.
    pub fn get(&self, number: u64) -> Option<&(Ident, u64)>
        ensures { IfSome result (λ row. slice_get self.now.rows.items number ≡ Some row.now) }
    {
        self.rows.get(number as usize)
    }
}

/// Labels.
#[derive(Drop)]
pub struct Labels {
    numbers: BTreeMap<Label, u64>,
    pub rows: Vec<Label>,
    ghost indexed: { AreIndexed ⟦<Label as Ord>⟧.cmp (λ row. row) numbers rows.items } by { Prim.hlevel props },
}

impl Labels {
    pub fn new(alloc: Global) -> Labels {
        Labels {
            numbers: BTreeMap::new(alloc),
            rows: Vec::new(alloc),
        }
    }

    /// Whether the number is that of the label.
    fn has(&self, number: u64, label: &Label) -> bool
        ensures { IsTrue result → slice_get self.now.rows.items number ≡ Some label.now }
    {
        match self.rows.get(number as usize) {
            Some(row) => row.same(label),
            None => false,
        }
    }

    /// The number of a label.
    pub fn number(&mut self, label: &Label) -> Result<u64, NoMemory>
        ensures row { IfOk result (λ r. slice_get self.new.rows.items r ≡ Some label.now) }
        ensures kept { OnOk result (Extends self.old.rows.items self.new.rows.items) }
    {
        if let Some(number) = self.numbers.get(label).copied() {
            return if self.has(number, label) {
                Ok(number)
            } else {
                Err(NoMemory)
            };
        }
        let number = self.rows.len() as u64;
        let row = label.clone()?;
        let key = label.clone()?;
        self.numbers.insert(key, number)?;
        self.rows.push(row)?;
        Ok(number)
    }

    /// The label with a number.
    pub fn get(&self, number: u64) -> Option<&Label>
        ensures { IfSome result (λ label. slice_get self.now.rows.items number ≡ Some label.now) }
    {
        self.rows.get(number as usize)
    }
}

/// Classes.
#[derive(Drop)]
pub struct Classes {
    numbers: BTreeMap<Qualified, u64>,
}

impl Classes {
    pub fn new(alloc: Global) -> Classes {
        Classes {
            numbers: BTreeMap::new(alloc),
        }
    }

    /// The number of a class.
    pub fn number(&mut self, class: &Qualified) -> Result<u64, NoMemory> {
        if let Some(number) = self.numbers.get(class).copied() {
            return Ok(number);
        }
        let number = self.numbers.len() as u64;
        self.numbers.insert(class.clone()?, number)?;
        Ok(number)
    }
}
