// An equation whose binders are compared with rigid variables that any unknown may take: where it has a
// solution, only scopes forbid one.
ghost use Rattle.std.specs.Prelude.{◌≡◌, ℕ, OnOk, IsTrue, true};
ghost use Rattle.psc_unify.specs.Meaning.{is_plain};
ghost use Rattle.psc_unify.specs.Solved.{Continues};

use crate::tables::Names;
use psc_items::{Shared, SharedItems};
use psc_text::{Ident, Label, NoMemory, Text};
use psc_type::{Constraint, Kind, Ty};
use std::alloc::Global;
use std::collections::BTreeMap;

/// Whether a `forall` stands in a type.
#[cycle(binder)]
pub fn has_binder(ty: &Ty) -> bool
    ensures { result ≡ true → (n : ℕ) → IsTrue (is_plain n ty.now) → ⊥ }
{
    match ty {
        Ty::App(function, argument) => has_binder(function.get()) || has_binder(argument.get()),
        Ty::Forall(_, _, _) => true,
        Ty::Given(constraint, body) => {
            have_binder(constraint.args.as_slice()) || has_binder(body.get())
        }
        Ty::RowCons(_, head, rest) => has_binder(head.get()) || has_binder(rest.get()),
        Ty::Var(_) | Ty::Unknown(_) | Ty::Con(_) | Ty::RowNil | Ty::Symbol(_) | Ty::Any(_) => false,
    }
}

/// Whether a `forall` stands in one of the types.
#[cycle(binder)]
fn have_binder(types: &[Ty]) -> bool {
    for ty in types {
        if has_binder(ty) {
            return true;
        }
    }
    false
}

/// The variables of binders, set free. A binder's variable gets the name of the binder's place, so that
/// those of two types are one where the binders stand at one place.
#[derive(Drop)]
pub struct Opened {
    alloc: Global,
    places: BTreeMap<Text, u64>,
    binders: Vec<(Ident, Ident)>,
    made: Vec<(Ident, Kind)>,
}

impl Opened {
    pub fn new(alloc: Global) -> Opened {
        Opened {
            alloc,
            places: BTreeMap::new(alloc),
            binders: Vec::new(alloc),
            made: Vec::new(alloc),
        }
    }

    /// The place of a part of what stands at a place. The whole stands at 0.
    fn part(&mut self, whole: u64, part: &str) -> Result<u64, NoMemory> {
        let key = Text::from_string(format!(in self.alloc; "{whole} {part}")?)?;
        if let Some(place) = self.places.get(&key).copied() {
            return Ok(place);
        }
        let place = (self.places.len() as u64).saturating_add(1);
        self.places.insert(key, place)?;
        Ok(place)
    }

    /// The place of a field of a row: equal labels count from the first one on.
    fn field(
        &mut self,
        row: u64,
        label: &Label,
        last: &mut BTreeMap<Text, u64>,
    ) -> Result<u64, NoMemory> {
        let place = match last.get(&label.0).copied() {
            Some(before) => self.part(before, "next")?,
            None => {
                let name = format!(in self.alloc; "label {}", label.0.as_str())?;
                self.part(row, name.as_str())?
            }
        };
        last.insert(label.0.clone()?, place)?;
        Ok(place)
    }

    fn variable(&self, name: &Ident) -> Result<Ident, NoMemory> {
        for binder in self.binders.iter().rev() {
            if binder.0.same(name) {
                let free = binder.1.clone()?;
                return Ok(free);
            }
        }
        let own = name.clone()?;
        Ok(own)
    }

    /// Binds a variable at the place of its binder.
    fn bind(&mut self, name: &Ident, kind: &Kind, place: u64) -> Result<(), NoMemory> {
        let free = Ident(Text::from_string(format!(in self.alloc; "{place}")?)?);
        self.binders.push((name.clone()?, free.clone()?))?;
        self.made.push((free, kind.clone()?))?;
        Ok(())
    }

    /// A name that no variable has.
    fn no_name(&self) -> Result<Ident, NoMemory> {
        Ok(Ident(Text::new(self.alloc, "")?))
    }

    /// A type at a place. `last` has the places of the row's labels so far, where the type is its rest.
    #[cycle(open)]
    fn open(
        &mut self,
        ty: &Ty,
        place: u64,
        last: &mut BTreeMap<Text, u64>,
    ) -> Result<Ty, NoMemory> {
        match ty {
            Ty::Var(name) => Ok(Ty::Var(self.variable(name)?)),
            Ty::App(function, argument) => {
                let left = self.open_part(function.get(), place, "function")?;
                let right = self.open_part(argument.get(), place, "argument")?;
                Ok(Ty::App(left, right))
            }
            Ty::Forall(name, kind, body) => {
                self.bind(name, kind, place)?;
                let inner = self.open_part(body.get(), place, "body")?;
                self.binders.pop();
                Ok(Ty::Forall(self.no_name()?, kind.clone()?, inner))
            }
            Ty::Given(constraint, body) => {
                let asked = self.open_constraint(constraint, place)?;
                let inner = self.open_part(body.get(), place, "body")?;
                Ok(Ty::Given(asked, inner))
            }
            Ty::RowCons(label, head, rest) => {
                let at = self.field(place, label, last)?;
                let first = self.open_part(head.get(), at, "type")?;
                let others = self.open(rest.get(), place, last)?;
                let rest = Shared::new(self.alloc, others)?;
                Ok(Ty::RowCons(label.clone()?, first, rest))
            }
            Ty::Unknown(_) | Ty::Con(_) | Ty::RowNil | Ty::Symbol(_) | Ty::Any(_) => Ok(
                ty.clone()?,
            ),
        }
    }

    #[cycle(open)]
    fn open_part(&mut self, ty: &Ty, whole: u64, part: &str) -> Result<Shared<Ty>, NoMemory> {
        let place = self.part(whole, part)?;
        let mut last = BTreeMap::new(self.alloc);
        let opened = self.open(ty, place, &mut last)?;
        Ok(Shared::new(self.alloc, opened)?)
    }

    #[cycle(open)]
    fn open_constraint(
        &mut self,
        constraint: &Constraint,
        place: u64,
    ) -> Result<Constraint, NoMemory> {
        let mut args = Vec::new(self.alloc);
        let mut at = place;
        for argument in constraint.args.as_slice() {
            at = self.part(at, "next argument")?;
            let mut last = BTreeMap::new(self.alloc);
            args.push(self.open(argument, at, &mut last)?)?;
        }
        Ok(Constraint {
            class: constraint.class.clone()?,
            args: SharedItems::from_vec(self.alloc, args)?,
        })
    }

    /// A whole type.
    pub fn whole(&mut self, ty: &Ty) -> Result<Ty, NoMemory> {
        let mut last = BTreeMap::new(self.alloc);
        self.open(ty, 0, &mut last)
    }

    /// Gives the variables that were set free their numbers and kinds.
    pub fn name_all(&self, names: &mut Names) -> Result<(), NoMemory>
        ensures { OnOk result (Continues names.old names.new) }
    {
        for row in self.made.as_slice() {
            let kind = names.kind(&row.1)?;
            names.rigid(&row.0, kind)?;
        }
        Ok(())
    }
}
