//! The local names at a place, and which bindings of a `let` mention which.

use psc_text::{NoMemory, Text};
use std::alloc::Global;
use std::collections::BTreeMap;
use std::mem;

/// A local name: the binding of a `let` by its number there, or what a binder binds.
#[derive(Clone, Copy, Debug, PartialEq, Eq)]
enum Bound {
    ByBinder,
    ByLet { frame: usize, number: u32 },
}

/// The bindings of a `let` that see one another.
#[derive(Debug, Drop)]
struct Frame {
    /// The binding in which the mentions stand that come now.
    current: Option<usize>,
    /// For each binding the numbers of those that it mentions.
    mentions: Vec<Vec<u32>>,
}

/// The local names.
#[derive(Debug, Drop)]
pub struct Scope {
    alloc: Global,
    /// What each name stands for, the innermost last.
    bound: BTreeMap<Text, Vec<Bound>>,
    /// The bound names, the innermost last.
    names: Vec<Text>,
    frames: Vec<Frame>,
}

impl Scope {
    /// No name is bound.
    pub fn new(alloc: Global) -> Scope {
        Scope {
            alloc,
            bound: BTreeMap::new(alloc),
            names: Vec::new(alloc),
            frames: Vec::new(alloc),
        }
    }

    /// How many names are bound, which tells later how far to leave.
    pub fn mark(&self) -> usize {
        self.names.len()
    }

    fn bind(&mut self, name: &Text, bound: Bound) -> Result<(), NoMemory> {
        if self.bound.get(name).is_none() {
            let _before = self.bound.insert(name.clone()?, Vec::new(self.alloc))?;
        }
        if let Some(list) = self.bound.get_mut(name) {
            list.push(bound)?;
        }
        self.names.push(name.clone()?)?;
        Ok(())
    }

    /// Binds a name by a binder.
    pub fn enter(&mut self, name: &Text) -> Result<(), NoMemory> {
        self.bind(name, Bound::ByBinder)
    }

    /// Binds names by binders.
    pub fn enter_all(&mut self, names: &[Text]) -> Result<(), NoMemory> {
        for name in names {
            self.enter(name)?;
        }
        Ok(())
    }

    /// The names that were bound since the mark, behind those of a list.
    pub fn add_since(&self, mark: usize, list: &mut Vec<Text>) -> Result<(), NoMemory> {
        for name in self.names.iter().skip(mark) {
            list.push(name.clone()?)?;
        }
        Ok(())
    }

    /// Leaves all names that were bound since the mark.
    pub fn leave(&mut self, mark: usize) {
        for _ in mark..self.names.len() {
            if let Some(name) = self.names.pop() {
                if let Some(list) = self.bound.get_mut(&name) {
                    let _last = list.pop();
                }
            }
        }
    }

    /// Begins the bindings of a `let` that see one another, and tells their frame.
    pub fn open(&mut self) -> Result<usize, NoMemory> {
        let frame = self.frames.len();
        self.frames.push(Frame {
            current: None,
            mentions: Vec::new(self.alloc),
        })?;
        Ok(frame)
    }

    /// Binds the name of the next binding of a frame.
    pub fn declare(&mut self, frame: usize, name: &Text) -> Result<(), NoMemory> {
        match self.add_binding(frame) {
            Ok(Some(number)) => self.bind(name, Bound::ByLet { frame, number }),
            Ok(None) => Ok(()),
            Err(error) => Err(error),
        }
    }

    /// One binding more of a frame, and its number.
    fn add_binding(&mut self, frame: usize) -> Result<Option<u32>, NoMemory> {
        let alloc = self.alloc;
        let Some(open) = self.frames.get_mut(frame) else {
            return Ok(None);
        };
        let Ok(number) = u32::try_from(open.mentions.len()) else {
            return Err(NoMemory);
        };
        open.mentions.push(Vec::new(alloc))?;
        Ok(Some(number))
    }

    /// Tells in which binding of a frame the next mentions stand.
    pub fn stand_in(&mut self, frame: usize, binding: usize) {
        if let Some(open) = self.frames.get_mut(frame) {
            open.current = Some(binding);
        }
    }

    /// Notes a mention of a local name.
    pub fn mention(&mut self, name: &Text) -> Result<(), NoMemory> {
        let innermost = match self.bound.get(name) {
            Some(list) => list.last().copied(),
            None => None,
        };
        match innermost {
            Some(Bound::ByLet { frame, number }) => self.note(frame, number),
            Some(Bound::ByBinder) | None => Ok(()),
        }
    }

    fn note(&mut self, frame: usize, number: u32) -> Result<(), NoMemory> {
        if let Some(open) = self.frames.get_mut(frame) {
            if let Some(current) = open.current {
                if let Some(list) = open.mentions.get_mut(current) {
                    list.push(number)?;
                }
            }
        }
        Ok(())
    }

    /// Ends the bindings of a frame, and tells what each mentions. Their names stay bound.
    pub fn close(&mut self, frame: usize) -> Vec<Vec<u32>> {
        let alloc = self.alloc;
        match self.frames.get_mut(frame) {
            Some(open) => {
                open.current = None;
                mem::replace(&mut open.mentions, Vec::new(alloc))
            }
            None => Vec::new(alloc),
        }
    }
}
