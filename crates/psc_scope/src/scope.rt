//! The candidates of names that are in scope in the whole of a module.
//!
//! Local names are kept apart, since they come and go.

ghost use Rattle.std.specs.Prelude.{◌≡◌, [], ◌∷◌, IfOk, OnOk};
ghost use Rattle.psc_scope.specs.Candidates as spec;
ghost use Rattle.psc_scope.specs.Lookup as lookup;

use crate::keys::{Area, Key};
use psc_text::{ModuleName, NoMemory, Text};
use sqlite_items::Items;
use std::alloc::Global;
use std::collections::{BTreeMap, BTreeSet};

/// Where a candidate comes from.
#[derive(Clone, Copy, PartialEq, Eq)]
pub enum Class {
    /// A declaration of the module itself.
    Own,
    /// An import with a list of names.
    Explicit,
    /// An import of all names, or of all but some.
    Open,
    /// The module that every module sees.
    Prim,
}

/// The modules that declare what a name may stand for, by classes.
#[derive(Drop)]
pub struct Candidates {
    own: BTreeSet<ModuleName>,
    explicit: BTreeSet<ModuleName>,
    open: BTreeSet<ModuleName>,
    prim: BTreeSet<ModuleName>,
}

impl Candidates {
    /// No candidate.
    pub fn none(alloc: Global) -> Candidates
        ensures { spec.classes result ≡ [] ∷ [] ∷ [] ∷ [] ∷ [] }
    {
        Candidates {
            own: BTreeSet::new(alloc),
            explicit: BTreeSet::new(alloc),
            open: BTreeSet::new(alloc),
            prim: BTreeSet::new(alloc),
        }
    }

    /// Adds a candidate to a class. It counts once.
    pub fn add(&mut self, class: Class, declarer: ModuleName) -> Result<(), NoMemory>
        ensures { OnOk result (spec.classes self.new ≡ spec.added class declarer self.old) }
    {
        match class {
            Class::Own => {
                let _new = self.own.insert(declarer)?;
                Ok(())
            }
            Class::Explicit => {
                let _new = self.explicit.insert(declarer)?;
                Ok(())
            }
            Class::Open => {
                let _new = self.open.insert(declarer)?;
                Ok(())
            }
            Class::Prim => {
                let _new = self.prim.insert(declarer)?;
                Ok(())
            }
        }
    }

    /// The first class that has a candidate, or the last one.
    pub fn first(&self) -> &BTreeSet<ModuleName>
        ensures { result.now.keys ≡ spec.first_class (spec.classes self.now) }
    {
        if !self.own.is_empty() {
            &self.own
        } else if !self.explicit.is_empty() {
            &self.explicit
        } else if !self.open.is_empty() {
            &self.open
        } else {
            &self.prim
        }
    }

    /// What the candidates say: the one of the first class that has one.
    pub fn found(&self, alloc: Global) -> Result<Found, NoMemory>
        ensures { IfOk result (λ found. found ≡ spec.verdict (spec.first_class (spec.classes self.now))) }
    {
        let modules = modules_of(alloc, self.first())?;
        verdict(modules)
    }
}

/// What a name stands for.
#[derive(Drop)]
pub enum Found {
    /// No candidate: the name is not known.
    Nothing,
    /// The module that declares it.
    One(ModuleName),
    /// At least two modules, ascending: the name is in conflict.
    Several(Items<ModuleName>),
}

fn modules_of(alloc: Global, modules: &BTreeSet<ModuleName>) -> Result<Items<ModuleName>, NoMemory>
    ensures { IfOk result (λ list. list ≡ modules.now.keys) }
{
    let mut list = Items::new(alloc);
    for module in modules.iter() {
        list.push(module.clone()?)?;
    }
    Ok(list)
}

fn verdict(modules: Items<ModuleName>) -> Result<Found, NoMemory>
    ensures { IfOk result (λ found. found ≡ spec.verdict modules) }
{
    match modules.as_slice() {
        [] => Ok(Found::Nothing),
        [module] => Ok(Found::One(module.clone()?)),
        _ => Ok(Found::Several(modules)),
    }
}

/// All names that are in scope in the whole module.
#[derive(Drop)]
pub struct Scope {
    alloc: Global,
    rows: BTreeMap<Key, Candidates>,
}

impl Scope {
    /// No name in scope.
    pub fn new(alloc: Global) -> Scope {
        Scope {
            alloc,
            rows: BTreeMap::new(alloc),
        }
    }

    /// Brings a name into scope, as a candidate of a class.
    pub fn add(&mut self, class: Class, key: Key, module: ModuleName) -> Result<(), NoMemory> {
        if let Some(candidates) = self.rows.get_mut(&key) {
            return candidates.add(class, module);
        }
        let mut candidates = Candidates::none(self.alloc);
        candidates.add(class, module)?;
        let _before = self.rows.insert(key, candidates)?;
        Ok(())
    }

    /// What a written name stands for.
    pub fn find(
        &self,
        area: Area,
        name: &Text,
        qualifier: &Option<ModuleName>,
    ) -> Result<Found, NoMemory>
        ensures { IfOk result (λ found. found ≡ lookup.found self.now (lookup.key area name.now qualifier.now)) }
    {
        let key = Key::new(area, name, qualifier)?;
        self.said_of(&key)
    }

    /// What the table says of a name.
    fn said_of(&self, key: &Key) -> Result<Found, NoMemory>
        ensures { IfOk result (λ found. found ≡ lookup.found self.now key.now) }
    {
        match self.rows.get(key) {
            Some(candidates) => candidates.found(self.alloc),
            None => Ok(Found::Nothing),
        }
    }
}
