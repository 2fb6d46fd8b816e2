//! Clauses of one name that follow one another.

ghost use Rattle.std.specs.Prelude.{◌≡◌, ◌↔◌, IsTrue, ℕ};
ghost use Rattle.psc_plain_parts.specs.Runs as spec;

use psc_ast::{Bind, Clause, Decl};
use psc_text::NoMemory;
use std::alloc::Global;

/// Where a clause stands among those of its declaration.
#[derive(Clone, Copy, Debug, PartialEq, Eq)]
pub struct Mark {
    /// Whether it is the first one.
    pub begins: bool,
    /// Whether it is the last one.
    pub ends: bool,
}

impl Mark {
    /// The only clause of its declaration.
    pub const ALONE: Mark = Mark {
        begins: true,
        ends: true,
    };

    /// Whether it is the only clause of its declaration.
    pub fn is_alone(self) -> bool {
        self.begins && self.ends
    }
}

/// Whether a clause goes on the declaration that a first clause began: it has its name, and that one has arguments.
fn goes_on(first: &Clause, clause: &Clause) -> bool
    ensures { IsTrue result ↔ spec.GoesOn first.now clause.now }
{
    if first.arguments.is_empty() {
        return false;
    }
    first.name.name.same(&clause.name.name)
}

/// Whether a clause goes on the declaration that goes on at its place, if one does.
fn goes_on_behind(first: Option<&Clause>, clause: &Clause) -> bool {
    match first {
        Some(first) => goes_on(first, clause),
        None => false,
    }
}

/// Marks the next clause. One that goes on takes the end from the one before it.
fn add(marks: &mut Vec<Mark>, is_further: bool) -> Result<(), NoMemory> {
    if is_further {
        if let Some(last) = marks.last_mut() {
            last.ends = false;
        }
    }
    marks.push(Mark {
        begins: !is_further,
        ends: true,
    })?;
    Ok(())
}

/// The marks of local bindings; what is no clause counts as one alone.
pub fn marks_of_binds(alloc: Global, binds: &[Bind]) -> Result<Vec<Mark>, NoMemory> {
    let mut marks = Vec::new(alloc);
    let mut first: Option<&Clause> = None;
    for bind in binds {
        match bind {
            Bind::Clause(clause) => {
                let is_further = goes_on_behind(first, clause);
                add(&mut marks, is_further)?;
                if !is_further {
                    first = Some(clause);
                }
            }
            Bind::Sig(_) | Bind::Value { .. } => {
                add(&mut marks, false)?;
                first = None;
            }
        }
    }
    Ok(marks)
}

/// The marks of an instance's members.
pub fn marks_of_members(alloc: Global, members: &[Clause]) -> Result<Vec<Mark>, NoMemory> {
    let mut marks = Vec::new(alloc);
    let mut first: Option<&Clause> = None;
    for clause in members {
        let is_further = goes_on_behind(first, clause);
        add(&mut marks, is_further)?;
        if !is_further {
            first = Some(clause);
        }
    }
    Ok(marks)
}

/// The marks of declarations; what is no clause counts as one alone.
pub fn marks_of_decls(alloc: Global, decls: &[Decl]) -> Result<Vec<Mark>, NoMemory> {
    let mut marks = Vec::new(alloc);
    let mut first: Option<&Clause> = None;
    for decl in decls {
        if let Decl::Clause(clause) = decl {
            let is_further = goes_on_behind(first, clause);
            add(&mut marks, is_further)?;
            if !is_further {
                first = Some(clause);
            }
        } else {
            add(&mut marks, false)?;
            first = None;
        }
    }
    Ok(marks)
}

/// The mark at a place.
pub fn mark_at(marks: &[Mark], place: usize) -> Mark {
    match marks.get(place) {
        Some(mark) => *mark,
        None => Mark::ALONE,
    }
}
