//! Names that are bound inside a declaration: of values by binders, of types by heads and `forall`.

use psc_text::{NoMemory, Text};
use std::alloc::Global;
use std::collections::BTreeMap;

/// The bound names at a place, and how often each is bound.
#[derive(Drop)]
pub struct Locals {
    counts: BTreeMap<Text, u32>,
    /// The bound names, the innermost last.
    names: Vec<Text>,
}

impl Locals {
    pub fn new(alloc: Global) -> Locals {
        Locals {
            counts: BTreeMap::new(alloc),
            names: Vec::new(alloc),
        }
    }

    /// How many names are bound, which tells later how far to leave.
    pub fn mark(&self) -> usize {
        self.names.len()
    }

    pub fn enter(&mut self, name: &Text) -> Result<(), NoMemory> {
        let count = match self.counts.get(name) {
            Some(count) => *count,
            None => 0,
        };
        let _before = self.counts.insert(name.clone()?, count.saturating_add(1))?;
        self.names.push(name.clone()?)?;
        Ok(())
    }

    pub fn enter_all(&mut self, names: &[Text]) -> Result<(), NoMemory> {
        for name in names {
            self.enter(name)?;
        }
        Ok(())
    }

    /// Leaves all names that were bound since the mark.
    pub fn leave(&mut self, mark: usize) -> Result<(), NoMemory> {
        for _ in mark..self.names.len() {
            if let Some(name) = self.names.pop() {
                self.lower(name)?;
            }
        }
        Ok(())
    }

    fn lower(&mut self, name: Text) -> Result<(), NoMemory> {
        let count = match self.counts.get(&name) {
            Some(count) => *count,
            None => 0,
        };
        if count <= 1 {
            let _last = self.counts.remove(&name);
        } else {
            let _before = self.counts.insert(name, count - 1)?;
        }
        Ok(())
    }

    pub fn has(&self, name: &Text) -> bool {
        self.counts.contains_key(name)
    }
}
