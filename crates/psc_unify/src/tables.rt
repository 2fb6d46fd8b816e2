// The tables of a solver that number kinds and names.
ghost use Rattle.std.specs.Prelude.{◌≡◌, OnOk, IfOk, slice_get, Some};
ghost use Rattle.psc_unify.specs.Solved.{Continues};

use crate::kinds::KindTable;
use crate::names::{Classes, Constant, Constants, Labels, Rigids};
use psc_text::{Ident, Label, NoMemory, Qualified};
use psc_type::Kind;
use std::alloc::Global;

/// Kinds, constants, rigid variables, labels and classes, each with a number.
#[derive(Drop)]
pub struct Names {
    pub kinds: KindTable,
    pub constants: Constants,
    pub rigids: Rigids,
    pub labels: Labels,
    pub classes: Classes,
}

impl Names {
    pub fn new(alloc: Global) -> Result<Names, NoMemory> {
        Ok(Names {
            kinds: KindTable::new(alloc)?,
            constants: Constants::new(alloc),
            rigids: Rigids::new(alloc),
            labels: Labels::new(alloc),
            classes: Classes::new(alloc),
        })
    }

    /// The number of a kind.
    pub fn kind(&mut self, kind: &Kind) -> Result<u64, NoMemory>
        ensures { OnOk result (Continues self.old self.new) }
    {
        let number = self.kinds.number(kind)?;
        Ok(number)
    }

    /// The number of a constant with the number of its kind. A new constant has the kind that is given.
    pub fn constant(&mut self, constant: Constant, kind: u64) -> Result<(u64, u64), NoMemory>
        ensures row { IfOk result (λ r. slice_get self.new.constants.rows.items r.0 ≡ Some (constant, r.1)) }
        ensures kept { OnOk result (Continues self.old self.new) }
    {
        let numbers = self.constants.number(constant, kind)?;
        Ok(numbers)
    }

    /// The number of a rigid variable with the number of its kind. A new one has the kind that is given.
    pub fn rigid(&mut self, name: &Ident, kind: u64) -> Result<(u64, u64), NoMemory>
        ensures row { IfOk result (λ r. slice_get self.new.rigids.rows.items r.0 ≡ Some (name.now, r.1)) }
        ensures kept { OnOk result (Continues self.old self.new) }
    {
        let numbers = self.rigids.number(name, kind)?;
        Ok(numbers)
    }

    /// The number of a label.
    pub fn label(&mut self, label: &Label) -> Result<u64, NoMemory>
        ensures row { IfOk result (λ r. slice_get self.new.labels.rows.items r ≡ Some label.now) }
        ensures kept { OnOk result (Continues self.old self.new) }
    {
        let number = self.labels.number(label)?;
        Ok(number)
    }

    /// The number of a class.
    pub fn class(&mut self, class: &Qualified) -> Result<u64, NoMemory>
        ensures { OnOk result (Continues self.old self.new) }
    {
        let number = self.classes.number(class)?;
        Ok(number)
    }
}
