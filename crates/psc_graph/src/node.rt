// The nodes of the graph, and the tasks of solving. A name stands here by its number, and a kind too.

use psc_text::NoMemory;
use std::alloc::{AllocError, AllocFailed};

/// A type without parts. `Rigid` and `Constant` have a number and the number of their kind. `Bound`
/// is the variable of the `forall` that is so many `forall`s further out, and `NoArgument` ends the
/// arguments of a constraint: these two stand under binders alone.
#[derive(Clone, Copy, Debug, PartialEq, Eq)]
pub enum Leaf {
    Rigid(u64, u64),
    Constant(u64, u64),
    Bound(u64),
    NoArgument,
}

/// What joins two types: an application, by the number of its kind; a `forall`, by the number of its
/// variable's kind, over its body alone; a constraint, by the number of its class, over its arguments
/// and the type that it is asked for; an argument, before the further ones.
#[derive(Clone, Copy, Debug, PartialEq, Eq)]
pub enum Former {
    Apply(u64),
    Forall(u64),
    Given(u64),
    Argument,
}

/// A node. An unknown of a kind is free until it is linked to the node that it equals. A field is a
/// label's number, the field's type and the rest of the row.
#[derive(Clone, Copy, Debug, PartialEq, Eq)]
pub enum Node {
    Free(u64),
    Link(usize),
    Atom(Leaf),
    Join(Former, usize, usize),
    Field(u64, usize, usize),
}

/// Why an equation was not solved.
#[derive(Clone, Copy, Debug, PartialEq, Eq)]
pub enum Stop {
    Clash,
    Memory,
}

/// What is left to do: to make two nodes equal, or to put one in the other's place once their parts
/// are equal.
#[derive(Clone, Copy, Debug, PartialEq, Eq)]
pub enum Task {
    Equal(usize, usize),
    Merge(usize, usize),
}

impl From<AllocError> for Stop {
    fn from(_error: AllocError) -> Stop {
        Stop::Memory
    }
}

impl From<NoMemory> for Stop {
    fn from(_error: NoMemory) -> Stop {
        Stop::Memory
    }
}

impl<T: Drop> From<AllocFailed<T>> for Stop {
    fn from(_error: AllocFailed<T>) -> Stop {
        Stop::Memory
    }
}
