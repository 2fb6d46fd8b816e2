//! Types that are too deep, or shared too often, for a script.

use crate::fault::Fault;
use crate::notation::{apply, arrow, qualified};
use crate::printing::{print_type, print_word};
use crate::script::start;
use psc_items::SharedItems;
use psc_type::{Kind, Scope, Ty};
use psc_unify::Solver;
use std::alloc::Global;

fn fresh(alloc: Global, solver: &mut Solver) -> Result<u64, Fault> {
    let scope = Scope {
        rigid: SharedItems::from_vec(alloc, Vec::new(alloc))?,
    };
    Ok(solver.fresh(alloc, Kind::Star, &scope)?)
}

fn constructor(alloc: Global, name: &str) -> Result<Ty, Fault> {
    Ok(Ty::Con(qualified(alloc, name)?))
}

/// Equates both types, and tells how it ended.
fn answer(
    alloc: Global,
    solver: &mut Solver,
    left: &Ty,
    right: &Ty,
    out: &mut String,
) -> Result<(), Fault> {
    match solver.equate(alloc, left, right)? {
        Ok(()) => print_word(out, "ok"),
        Err(_) => print_word(out, "clash"),
    }
}

fn show(alloc: Global, solver: &Solver, unknown: u64, out: &mut String) -> Result<(), Fault> {
    let value = solver.value(alloc, unknown)?;
    print_type(out, alloc, &value)
}

/// An unknown whose value has each level twice in the next one, over the first one of its unknowns.
fn tower(
    alloc: Global,
    solver: &mut Solver,
    levels: u32,
    out: &mut String,
) -> Result<(u64, u64), Fault> {
    let bottom = fresh(alloc, solver)?;
    let mut top = bottom;
    for _ in 0..levels {
        let next = fresh(alloc, solver)?;
        let value = arrow(alloc, Ty::Unknown(top), Ty::Unknown(top))?;
        answer(alloc, solver, &Ty::Unknown(next), &value, out)?;
        top = next;
    }
    Ok((bottom, top))
}

/// Two towers of 60 levels are equal where what they stand on is.
pub fn shared(alloc: Global) -> Result<String, Fault> {
    let mut solver = start(alloc)?;
    let mut out = String::new(alloc);
    let (bottom, top) = tower(alloc, &mut solver, 60, &mut out)?;
    let (second, other) = tower(alloc, &mut solver, 60, &mut out)?;
    let int = constructor(alloc, "Int")?;
    answer(
        alloc,
        &mut solver,
        &Ty::Unknown(top),
        &Ty::Unknown(other),
        &mut out,
    )?;
    answer(alloc, &mut solver, &Ty::Unknown(bottom), &int, &mut out)?;
    show(alloc, &solver, second, &mut out)?;
    let array = constructor(alloc, "Array")?;
    let value = apply(alloc, array, Ty::Unknown(other))?;
    answer(alloc, &mut solver, &Ty::Unknown(top), &value, &mut out)?;
    Ok(out)
}

/// `Array` so many times, around a type.
fn arrays(alloc: Global, levels: u32, inner: Ty) -> Result<Ty, Fault> {
    let mut ty = inner;
    for _ in 0..levels {
        let array = constructor(alloc, "Array")?;
        ty = apply(alloc, array, ty)?;
    }
    Ok(ty)
}

/// Types of 1,000 levels are equal where their insides are.
pub fn deep(alloc: Global) -> Result<String, Fault> {
    let mut solver = start(alloc)?;
    let mut out = String::new(alloc);
    let unknown = fresh(alloc, &mut solver)?;
    let int = constructor(alloc, "Int")?;
    let open = arrays(alloc, 1_000, Ty::Unknown(unknown))?;
    let closed = arrays(alloc, 1_000, int)?;
    answer(alloc, &mut solver, &open, &closed, &mut out)?;
    show(alloc, &solver, unknown, &mut out)?;
    let text = constructor(alloc, "String")?;
    let other = arrays(alloc, 1_000, text)?;
    answer(alloc, &mut solver, &open, &other, &mut out)?;
    Ok(out)
}
