//! Top-level values and the members of instances.

use crate::clauses::add_clause;
use crate::heads::{Clauses, Head, head_of, value_of};
use psc_ast::Clause;
use psc_plain::{PlainExpr, PlainSignature, PlainValue};
use psc_plain_parts::{Desugar, Mark, Stop, mark_at, marks_of_members};
use psc_text::NoMemory;
use sqlite_items::Items;
use std::alloc::Global;
use std::mem;

/// Values of one list, as their clauses are met.
#[derive(Drop)]
pub(crate) struct Values {
    list: Items<PlainValue>,
    /// The value whose clauses are met.
    head: Option<Head>,
    clauses: Clauses,
}

impl Values {
    /// None yet.
    pub(crate) fn none(alloc: Global) -> Values {
        Values {
            list: Items::new(alloc),
            head: None,
            clauses: Clauses::none(alloc),
        }
    }

    /// The values, after which there is none.
    pub(crate) fn take(&mut self, alloc: Global) -> Items<PlainValue> {
        mem::replace(&mut self.list, Items::new(alloc))
    }

    /// Adds a clause, with the signature that stands directly before it.
    pub(crate) fn add(
        &mut self,
        state: &mut Desugar,
        clause: &Clause,
        mark: Mark,
        signature: Option<PlainSignature>,
    ) -> Result<(), Stop> {
        if mark.begins {
            let head = head_of(clause, signature)?;
            self.head = Some(head);
        }
        add_clause(state, clause, mark, &mut self.clauses)?;
        if mark.ends {
            self.end(state)?;
        }
        Ok(())
    }

    /// Ends the value whose clauses were met.
    fn end(&mut self, state: &Desugar) -> Result<(), NoMemory> {
        match self.head.take() {
            Some(head) => {
                let value = value_with(head, self.clauses.take(state))?;
                self.list.push(value)?;
                Ok(())
            }
            None => Ok(()),
        }
    }
}

fn value_with(head: Head, body: Result<PlainExpr, NoMemory>) -> Result<PlainValue, NoMemory> {
    match body {
        Ok(body) => Ok(value_of(head, body)),
        Err(error) => Err(error),
    }
}

/// The members of an instance.
pub(crate) fn members_of(
    state: &mut Desugar,
    members: &[Clause],
) -> Result<Items<PlainValue>, Stop> {
    let mut values = Values::none(state.alloc);
    add_members(state, members, &mut values)?;
    Ok(values.take(state.alloc))
}

fn add_members(state: &mut Desugar, members: &[Clause], values: &mut Values) -> Result<(), Stop> {
    let marks = marks_of_members(state.alloc, members)?;
    let mut place: usize = 0;
    for clause in members {
        values.add(state, clause, mark_at(&marks, place), None)?;
        place = place.saturating_add(1);
    }
    Ok(())
}
