//! Local bindings in plain forms.
//!
//! Bindings stand in segments, between which binders that are no variables stand: such a one is a case round the rest, so its right
//! side sees what stands before it alone. All names of a `let` are counted in one list.

use crate::clauses::add_clause;
use crate::heads::{Clauses, Head, bind_with, head_of};
use crate::layers::Layer;
use crate::rights::right_value;
use psc_ast::{Bind, Clause, Rhs};
use psc_plain::{PlainBind, PlainBinder, PlainSignature};
use psc_plain_parts::{
    Desugar, Mark, Names, Stop, binder, enter_names, groups_of, mark_at, marks_of_binds, signature,
};
use psc_text::{NoMemory, Span};
use std::alloc::Global;

/// The bindings of a `let` that were met so far.
#[derive(Drop)]
struct Building {
    /// All names of the `let`.
    names: Names,
    layers: Vec<Layer>,
    /// The segment's place among those of the module.
    frame: usize,
    /// The number of the next binding of the segment.
    number: usize,
    /// The bindings of the segment.
    binds: Vec<Option<PlainBind>>,
    /// The signature directly before.
    signature: Option<PlainSignature>,
    /// The binding whose clauses are met.
    head: Option<Head>,
    clauses: Clauses,
}

impl Building {
    fn new(alloc: Global) -> Building {
        Building {
            names: Names::none(alloc),
            layers: Vec::new(alloc),
            frame: 0,
            number: 0,
            binds: Vec::new(alloc),
            signature: None,
            head: None,
            clauses: Clauses::none(alloc),
        }
    }
}

/// The layers of bindings, whose names stay bound.
#[cycle(exprs)]
pub(crate) fn layers_of(state: &mut Desugar, binds: &[Bind]) -> Result<Vec<Layer>, Stop> {
    let mut building = Building::new(state.alloc);
    match add_binds(state, binds, &mut building) {
        Ok(()) => Ok(building.layers),
        Err(stop) => Err(stop),
    }
}

#[cycle(exprs)]
fn add_binds(state: &mut Desugar, binds: &[Bind], building: &mut Building) -> Result<(), Stop> {
    let marks = marks_of_binds(state.alloc, binds)?;
    open_segment(state, binds, &marks, 0, building)?;
    let mut place: usize = 0;
    for bind in binds {
        let mark = mark_at(&marks, place);
        place = place.saturating_add(1);
        add_bind(state, bind, mark, building)?;
        if let Bind::Value { .. } = bind {
            open_segment(state, binds, &marks, place, building)?;
        }
    }
    close_segment(state, building)?;
    Ok(())
}

/// Opens the segment of the bindings from a place on, and brings their names into scope.
fn open_segment(
    state: &mut Desugar,
    binds: &[Bind],
    marks: &[Mark],
    from: usize,
    building: &mut Building,
) -> Result<(), NoMemory> {
    let frame = state.scope.open()?;
    building.frame = frame;
    building.number = 0;
    for (bind, mark) in binds.iter().zip(marks.iter()).skip(from) {
        match bind {
            Bind::Value { .. } => return Ok(()),
            Bind::Clause(clause) => {
                if mark.begins {
                    state.scope.declare(frame, &clause.name.name.0)?;
                }
            }
            Bind::Sig(_) => {}
        }
    }
    Ok(())
}

/// Ends the segment: its bindings become a layer, if there are any.
fn close_segment(state: &mut Desugar, building: &mut Building) -> Result<(), NoMemory> {
    let mentions = state.scope.close(building.frame);
    if building.binds.is_empty() {
        return Ok(());
    }
    let groups = groups_of(state.alloc, &mut building.binds, &mentions)?;
    building.layers.push(Layer::Groups(groups))?;
    building.binds = Vec::new(state.alloc);
    Ok(())
}

#[cycle(exprs)]
fn add_bind(
    state: &mut Desugar,
    bind: &Bind,
    mark: Mark,
    building: &mut Building,
) -> Result<(), Stop> {
    match bind {
        Bind::Sig(sig) => {
            let signature = signature(state.alloc, sig)?;
            building.signature = Some(signature);
            Ok(())
        }
        Bind::Clause(clause) => {
            begin_bind(state, clause, mark, building)?;
            add_clause(state, clause, mark, &mut building.clauses)?;
            end_bind(state, mark, building)?;
            Ok(())
        }
        Bind::Value { .. } => add_match(state, bind, building),
    }
}

/// Begins a binding, where the clause is its first one.
fn begin_bind(
    state: &mut Desugar,
    clause: &Clause,
    mark: Mark,
    building: &mut Building,
) -> Result<(), Stop> {
    if mark.begins {
        building.names.add(&clause.name.name.0, clause.span)?;
        state.scope.stand_in(building.frame, building.number);
        building.number = building.number.saturating_add(1);
        let head = head_of(clause, building.signature.take())?;
        building.head = Some(head);
    }
    Ok(())
}

/// Ends a binding, where the clause before was its last one.
fn end_bind(state: &Desugar, mark: Mark, building: &mut Building) -> Result<(), NoMemory> {
    if mark.ends {
        if let Some(head) = building.head.take() {
            let body = building.clauses.take(state);
            let bind = bind_with(state.alloc, head, body)?;
            building.binds.push(Some(bind))?;
        }
    }
    Ok(())
}

/// A binder that is no variable ends the segment. It is counted before its right side is read, which does not see its names.
#[cycle(exprs)]
fn add_match(state: &mut Desugar, bind: &Bind, building: &mut Building) -> Result<(), Stop> {
    match bind {
        Bind::Value {
            binder: bound,
            rhs,
            span,
        } => {
            building.signature = None;
            close_segment(state, building)?;
            let mark = state.scope.mark();
            let plain = binder(state, bound, &mut building.names)?;
            state.scope.leave(mark);
            let layer = match_of(state, rhs, plain, *span)?;
            building.layers.push(layer)?;
            enter_names(&mut state.scope, bound)?;
            Ok(())
        }
        Bind::Sig(_) | Bind::Clause(_) => Ok(()),
    }
}

#[cycle(exprs)]
fn match_of(
    state: &mut Desugar,
    rhs: &Rhs,
    binder: PlainBinder,
    span: Span,
) -> Result<Layer, Stop> {
    match right_value(state, rhs, span) {
        Ok(value) => Ok(Layer::Match {
            binder,
            value,
            span,
        }),
        Err(stop) => Err(stop),
    }
}
