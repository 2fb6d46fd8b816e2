//! How long a solver takes for large sets of equations.
//!
//! The arguments are numbers of cases, from 0. Each is solved and printed on a line: its microseconds and
//! its name. Without arguments nothing is solved or printed.
#![tactic(auto)]

use psc_items::{Shared, SharedItems};
use psc_text::{Ident, Label, Qualified, Text};
use psc_type::{Kind, Scope, Ty};
use psc_unify::{Solver, TypeKind};
use std::alloc::Global;
use std::env;
use std::time::Instant;

fn constructor(alloc: Global, name: &str) -> anyhow::Result<Ty> {
    Ok(Ty::Con(Qualified {
        module: None,
        name: Text::new(alloc, name)?,
    }))
}

fn apply(alloc: Global, function: Ty, argument: Ty) -> anyhow::Result<Ty> {
    Ok(Ty::App(Shared::new(alloc, function)?, Shared::new(alloc, argument)?))
}

fn array(alloc: Global, of: Ty) -> anyhow::Result<Ty> {
    let function = constructor(alloc, "Array")?;
    apply(alloc, function, of)
}

fn pair(alloc: Global, left: Ty, right: Ty) -> anyhow::Result<Ty> {
    let function = constructor(alloc, "Pair")?;
    let half = apply(alloc, function, left)?;
    apply(alloc, half, right)
}

fn start(alloc: Global) -> anyhow::Result<Solver> {
    let unary = Kind::Arrow(
        Shared::new(alloc, Kind::Star)?,
        Shared::new(alloc, Kind::Star)?,
    );
    let again = Kind::Arrow(
        Shared::new(alloc, Kind::Star)?,
        Shared::new(alloc, Kind::Star)?,
    );
    let binary = Kind::Arrow(Shared::new(alloc, Kind::Star)?, Shared::new(alloc, again)?);
    let mut kinds = Vec::new(alloc);
    kinds.push(TypeKind {
        name: Qualified {
            module: None,
            name: Text::new(alloc, "Array")?,
        },
        kind: unary,
    })?;
    kinds.push(TypeKind {
        name: Qualified {
            module: None,
            name: Text::new(alloc, "Pair")?,
        },
        kind: binary,
    })?;
    Ok(Solver::start(alloc, kinds.as_slice())?)
}

fn no_scope(alloc: Global) -> anyhow::Result<Scope> {
    Ok(Scope {
        rigid: SharedItems::from_vec(alloc, Vec::new(alloc))?,
    })
}

fn fresh(alloc: Global, solver: &mut Solver) -> anyhow::Result<u64> {
    let scope = no_scope(alloc)?;
    Ok(solver.fresh(alloc, Kind::Star, &scope)?)
}

fn row(alloc: Global, solver: &mut Solver) -> anyhow::Result<u64> {
    let scope = no_scope(alloc)?;
    let kind = Kind::RowOf(Shared::new(alloc, Kind::Star)?);
    Ok(solver.fresh(alloc, kind, &scope)?)
}

fn equal(alloc: Global, solver: &mut Solver, left: &Ty, right: &Ty) -> anyhow::Result<()> {
    match solver.equate(alloc, left, right)? {
        Ok(()) => Ok(()),
        Err(_) => Err(anyhow::anyhow!("a clash")),
    }
}

/// `u(k) ~ Array u(k+1)`, 50,000 times.
fn chain_down(alloc: Global) -> anyhow::Result<()> {
    let mut solver = start(alloc)?;
    let mut last = fresh(alloc, &mut solver)?;
    for _ in 0..50_000 {
        let next = fresh(alloc, &mut solver)?;
        let value = array(alloc, Ty::Unknown(next))?;
        equal(alloc, &mut solver, &Ty::Unknown(last), &value)?;
        last = next;
    }
    Ok(())
}

/// `u(k+1) ~ Array u(k)`, 50,000 times.
fn chain_up(alloc: Global) -> anyhow::Result<()> {
    let mut solver = start(alloc)?;
    let mut last = fresh(alloc, &mut solver)?;
    for _ in 0..50_000 {
        let next = fresh(alloc, &mut solver)?;
        let value = array(alloc, Ty::Unknown(last))?;
        equal(alloc, &mut solver, &Ty::Unknown(next), &value)?;
        last = next;
    }
    Ok(())
}

/// `u(k) ~ u(k+1)`, 50,000 times, and then the first ~ Int.
fn chain_flat(alloc: Global) -> anyhow::Result<()> {
    let mut solver = start(alloc)?;
    let first = fresh(alloc, &mut solver)?;
    let mut last = first;
    for _ in 0..50_000 {
        let next = fresh(alloc, &mut solver)?;
        equal(alloc, &mut solver, &Ty::Unknown(last), &Ty::Unknown(next))?;
        last = next;
    }
    let int = constructor(alloc, "Int")?;
    equal(alloc, &mut solver, &Ty::Unknown(first), &int)
}

/// A balanced type of so many levels of pairs over one unknown. Both halves of a pair are one shared type, which the
/// solver walks as often as it stands there.
fn balanced(alloc: Global, levels: u32, leaf: u64) -> anyhow::Result<Ty> {
    let mut whole = Ty::Unknown(leaf);
    for _ in 0..levels {
        let left = whole.clone()?;
        whole = pair(alloc, left, whole)?;
    }
    Ok(whole)
}

/// Two types of 65,535 nodes, equated 50,000 times.
fn large_twice(alloc: Global) -> anyhow::Result<()> {
    let mut solver = start(alloc)?;
    let leaf = fresh(alloc, &mut solver)?;
    let other = fresh(alloc, &mut solver)?;
    let one = fresh(alloc, &mut solver)?;
    let two = fresh(alloc, &mut solver)?;
    let left_pairs = balanced(alloc, 14, leaf)?;
    let right_pairs = balanced(alloc, 14, other)?;
    let left = array(alloc, left_pairs)?;
    let right = array(alloc, right_pairs)?;
    equal(alloc, &mut solver, &Ty::Unknown(one), &left)?;
    equal(alloc, &mut solver, &Ty::Unknown(two), &right)?;
    for _ in 0..50_000 {
        equal(alloc, &mut solver, &Ty::Unknown(one), &Ty::Unknown(two))?;
    }
    Ok(())
}

fn tower(alloc: Global, solver: &mut Solver, levels: u32) -> anyhow::Result<u64> {
    let mut last = fresh(alloc, solver)?;
    for _ in 0..levels {
        let next = fresh(alloc, solver)?;
        let value = pair(alloc, Ty::Unknown(last), Ty::Unknown(last))?;
        equal(alloc, solver, &Ty::Unknown(next), &value)?;
        last = next;
    }
    Ok(last)
}

/// Two towers with 2^60 tree nodes.
fn towers(alloc: Global) -> anyhow::Result<()> {
    let mut solver = start(alloc)?;
    let one = tower(alloc, &mut solver, 60)?;
    let two = tower(alloc, &mut solver, 60)?;
    equal(alloc, &mut solver, &Ty::Unknown(one), &Ty::Unknown(two))?;
    let _value = solver.value(alloc, one)?;
    Ok(())
}

fn text(alloc: Global, word: &str, number: u32) -> anyhow::Result<Text> {
    let string = format!(in alloc; "{word}{number}")?;
    Ok(Text::from_string(string)?)
}

fn variable(alloc: Global, word: &str, number: u32) -> anyhow::Result<Ident> {
    Ok(Ident(text(alloc, word, number)?))
}

/// `forall name. Pair name body`.
fn bind(alloc: Global, name: Ident, body: Ty) -> anyhow::Result<Ty> {
    let inner = pair(alloc, Ty::Var(name.clone()?), body)?;
    Ok(Ty::Forall(name, Kind::Star, Shared::new(alloc, inner)?))
}

/// 2,000 `forall`s inside each other, twice.
fn nested(alloc: Global) -> anyhow::Result<()> {
    let mut solver = start(alloc)?;
    let mut left = constructor(alloc, "Int")?;
    let mut right = constructor(alloc, "Int")?;
    for number in 0..2_000 {
        left = bind(alloc, variable(alloc, "a", number)?, left)?;
        right = bind(alloc, variable(alloc, "b", number)?, right)?;
    }
    equal(alloc, &mut solver, &left, &right)
}

fn field(alloc: Global, number: u32, rest: Ty) -> anyhow::Result<Ty> {
    let label = Label(text(alloc, "l", number)?);
    let int = constructor(alloc, "Int")?;
    Ok(Ty::RowCons(label, Shared::new(alloc, int)?, Shared::new(alloc, rest)?))
}

/// A row of 2,000 labels from `first` on, before an unknown.
fn labels(alloc: Global, first: u32, tail: u64) -> anyhow::Result<Ty> {
    let mut row = Ty::Unknown(tail);
    for index in 0..2_000_u32 {
        row = field(alloc, first.wrapping_add(index) % 4_000, row)?;
    }
    Ok(row)
}

/// Rows of 2,000 labels against each other, of which each side has half alone.
fn rows(alloc: Global) -> anyhow::Result<()> {
    let mut solver = start(alloc)?;
    let left = row(alloc, &mut solver)?;
    let right = row(alloc, &mut solver)?;
    let one = labels(alloc, 0, left)?;
    let two = labels(alloc, 1_000, right)?;
    equal(alloc, &mut solver, &one, &two)
}

/// `u(0) ~ u(k)` for 50,000 unknowns, and then the last ~ Int.
fn star(alloc: Global) -> anyhow::Result<()> {
    let mut solver = start(alloc)?;
    let first = fresh(alloc, &mut solver)?;
    let mut last = first;
    for _ in 0..50_000 {
        last = fresh(alloc, &mut solver)?;
        equal(alloc, &mut solver, &Ty::Unknown(first), &Ty::Unknown(last))?;
    }
    let int = constructor(alloc, "Int")?;
    equal(alloc, &mut solver, &Ty::Unknown(last), &int)
}

/// All of the rigid variables, as a scope.
fn scope_of(alloc: Global, rigid: &[Ident]) -> anyhow::Result<Scope> {
    let mut names = Vec::new(alloc);
    for name in rigid {
        names.push(name.clone()?)?;
    }
    Ok(Scope {
        rigid: SharedItems::from_vec(alloc, names)?,
    })
}

/// A new unknown w of the scope, where an outer one is equal to `Array w`.
fn enter_scope(
    alloc: Global,
    solver: &mut Solver,
    outer: u64,
    scope: &Scope,
) -> anyhow::Result<u64> {
    let inner = solver.fresh(alloc, Kind::Star, scope)?;
    let value = array(alloc, Ty::Unknown(inner))?;
    equal(alloc, solver, &Ty::Unknown(outer), &value)?;
    Ok(inner)
}

/// 2,000 scopes inside each other: `u(k) ~ Array u(k+1)`, where the scope of `u(k)` is the first `k`
/// rigid variables.
fn nested_scopes(alloc: Global) -> anyhow::Result<()> {
    let mut solver = start(alloc)?;
    let mut rigid = Vec::new(alloc);
    let mut last = fresh(alloc, &mut solver)?;
    for number in 0..2_000_u32 {
        let name = variable(alloc, "a", number)?;
        rigid.push(solver.rigid(alloc, &name, Kind::Star)?)?;
        let scope = scope_of(alloc, rigid.as_slice())?;
        last = enter_scope(alloc, &mut solver, last, &scope)?;
    }
    Ok(())
}

/// Solves the case of a number, and gives its name. None past the last.
fn solve_case(alloc: Global, number: u32) -> anyhow::Result<Option<&'static str>> {
    match number {
        0 => {
            chain_down(alloc)?;
            Ok(Some("50,000 chained equations u ~ Array w, from the outside in"))
        }
        1 => {
            chain_up(alloc)?;
            Ok(Some("50,000 chained equations u ~ Array w, from the inside out"))
        }
        2 => {
            chain_flat(alloc)?;
            Ok(Some("50,000 chained equations u ~ w"))
        }
        3 => {
            star(alloc)?;
            Ok(Some("50,000 equations of one unknown with others"))
        }
        4 => {
            large_twice(alloc)?;
            Ok(Some("two types of 65,535 nodes, equated 50,000 times"))
        }
        5 => {
            towers(alloc)?;
            Ok(Some("two towers with 2^60 tree nodes"))
        }
        6 => {
            nested(alloc)?;
            Ok(Some("2,000 nested bindings"))
        }
        7 => {
            rows(alloc)?;
            Ok(Some("rows of 2,000 labels"))
        }
        8 => {
            nested_scopes(alloc)?;
            Ok(Some("2,000 scopes inside each other"))
        }
        _ => Ok(None),
    }
}

fn main(rt: HostRuntime) -> anyhow::Result<()> {
    let alloc = rt.alloc();
    for word in env::args(&rt)?.skip(1) {
        let Ok(number) = word.as_str().parse::<u32>() else {
            return Ok(());
        };
        let begin = Instant::now(&rt)?;
        if let Some(name) = solve_case(alloc, number)? {
            let took = begin.elapsed(&rt)?.as_micros();
            rt.println(format!(in alloc; "{} us: {}", took, name)?)?;
        }
    }
    Ok(())
}
