//! Types without synonyms, over synonyms whose bodies are expanded already.

ghost use Rattle.std.specs.Prelude.{◌≡◌, IfOk};
ghost use Rattle.psc_type.specs.declared.ty.Ty.TheVariants as ty;
ghost use Rattle.psc_expand.specs.Expand as spec;
ghost use Rattle.psc_expand.specs.Head as heads;

use crate::head::{Head, Prepared, apply, begin, finish, limited};
use psc_items::{Shared, SharedItems};
use psc_text::{Ident, Label, NoMemory, Qualified};
use psc_type::{Constraint, ExpandFault, Kind, Ty};
use std::alloc::Global;

/// The type without synonyms, where it is not too large.
pub(crate) fn expand_over(
    alloc: Global,
    ty: &Ty,
    table: &[Prepared],
) -> Result<Result<Ty, ExpandFault>, NoMemory>
    ensures { IfOk result (λ r. r ≡ spec.expand_over table.now ty.now) }
{
    match head(alloc, ty, table)? {
        Err(fault) => Ok(Err(fault)),
        Ok(front) => match finish(front) {
            Err(fault) => Ok(Err(fault)),
            Ok(ty) => Ok(limited(ty)),
        },
    }
}

#[tactic(auto, unfolding(crate::specs::Expand::start))]
fn start(
    alloc: Global,
    table: &[Prepared],
    name: &Qualified,
) -> Result<Result<Head, ExpandFault>, NoMemory>
    ensures { IfOk result (λ r. r ≡ spec.start table.now name.now) }
{
    for row in table {
        if row.name == *name {
            return begin(alloc, row);
        }
    }
    Ok(Ok(Head::Done(Ty::Con(name.clone()?))))
}

#[cycle(expand)]
#[tactic(auto, using(crate::proofs::ExpandRules::heads))]
fn head(alloc: Global, ty: &Ty, table: &[Prepared]) -> Result<Result<Head, ExpandFault>, NoMemory>
    ensures { IfOk result (λ r. r ≡ spec.head table.now ty.now) }
{
    match ty {
        Ty::Con(name) => start(alloc, table, name),
        Ty::App(function, argument) => match head(alloc, function.get(), table)? {
            Err(fault) => Ok(Err(fault)),
            Ok(front) => applied(alloc, argument.get(), &front, table),
        },
        Ty::Forall(name, kind, body) => quantified(alloc, body.get(), name, kind, table),
        Ty::Given(given, body) => match constraint(alloc, given, table)? {
            Err(fault) => Ok(Err(fault)),
            Ok(given) => constrained(alloc, body.get(), given, table),
        },
        Ty::RowCons(label, first, rest) => match part(alloc, first.get(), table)? {
            Err(fault) => Ok(Err(fault)),
            Ok(first) => row_of(alloc, rest.get(), label, &first, table),
        },
        Ty::Var(_) | Ty::Unknown(_) | Ty::RowNil | Ty::Symbol(_) | Ty::Any(_) => {
            Ok(Ok(Head::Done(ty.clone()?)))
        }
    }
}

/// What a head becomes with one argument more.
#[cycle(expand)]
fn applied(
    alloc: Global,
    argument: &Ty,
    front: &Head,
    table: &[Prepared],
) -> Result<Result<Head, ExpandFault>, NoMemory>
    ensures { IfOk result (λ r. r ≡ spec.and_then (spec.part table.now argument.now) (λ t. heads.apply front.now t)) }
{
    match part(alloc, argument, table)? {
        Err(fault) => Ok(Err(fault)),
        Ok(argument) => apply(alloc, front, argument),
    }
}

/// A type under a variable.
#[cycle(expand)]
fn quantified(
    alloc: Global,
    body: &Ty,
    name: &Ident,
    kind: &Kind,
    table: &[Prepared],
) -> Result<Result<Head, ExpandFault>, NoMemory>
    ensures { IfOk result (λ r. r ≡ spec.and_then (spec.part table.now body.now) (λ t. spec.done (ty.Forall name.now kind.now t))) }
{
    match part(alloc, body, table)? {
        Err(fault) => Ok(Err(fault)),
        Ok(body) => {
            let body = Shared::new(alloc, body)?;
            let name = name.clone()?;
            Ok(Ok(Head::Done(Ty::Forall(name, kind.clone()?, body))))
        }
    }
}

/// A type behind a constraint.
#[cycle(expand)]
fn constrained(
    alloc: Global,
    body: &Ty,
    given: Constraint,
    table: &[Prepared],
) -> Result<Result<Head, ExpandFault>, NoMemory>
    ensures { IfOk result (λ r. r ≡ spec.and_then (spec.part table.now body.now) (λ t. spec.done (ty.Given given t))) }
{
    match part(alloc, body, table)? {
        Err(fault) => Ok(Err(fault)),
        Ok(body) => Ok(Ok(Head::Done(Ty::Given(given, Shared::new(alloc, body)?)))),
    }
}

/// A row that begins with a field.
#[cycle(expand)]
fn row_of(
    alloc: Global,
    rest: &Ty,
    label: &Label,
    first: &Ty,
    table: &[Prepared],
) -> Result<Result<Head, ExpandFault>, NoMemory>
    ensures { IfOk result (λ r. r ≡ spec.and_then (spec.part table.now rest.now) (λ t. spec.done (ty.RowCons label.now first.now t))) }
{
    match part(alloc, rest, table)? {
        Err(fault) => Ok(Err(fault)),
        Ok(rest) => {
            let rest = Shared::new(alloc, rest)?;
            let first = Shared::new(alloc, first.clone()?)?;
            Ok(Ok(Head::Done(Ty::RowCons(label.clone()?, first, rest))))
        }
    }
}

/// A type that no argument follows.
#[cycle(expand)]
fn part(alloc: Global, ty: &Ty, table: &[Prepared]) -> Result<Result<Ty, ExpandFault>, NoMemory>
    ensures { IfOk result (λ r. r ≡ spec.part table.now ty.now) }
{
    match head(alloc, ty, table)? {
        Err(fault) => Ok(Err(fault)),
        Ok(front) => Ok(finish(front)),
    }
}

#[cycle(expand)]
fn constraint(
    alloc: Global,
    given: &Constraint,
    table: &[Prepared],
) -> Result<Result<Constraint, ExpandFault>, NoMemory>
    ensures { IfOk result (λ r. r ≡ spec.constraint table.now given.now) }
{
    match parts(alloc, given.args.as_slice(), table)? {
        Err(fault) => Ok(Err(fault)),
        Ok(args) => {
            let class = given.class.clone()?;
            Ok(Ok(Constraint { class, args }))
        }
    }
}

#[cycle(expand)]
#[tactic(auto, unfolding(crate::specs::Expand::finished_onto))]
fn parts(
    alloc: Global,
    args: &[Ty],
    table: &[Prepared],
) -> Result<Result<SharedItems<Ty>, ExpandFault>, NoMemory>
    ensures { IfOk result (λ r. r ≡ spec.parts table.now args.now) }
{
    let mut done = Vec::new(alloc);
    for arg in args {
        match part(alloc, arg, table)? {
            Err(fault) => return Ok(Err(fault)),
            Ok(arg) => done.push(arg)?,
        }
    }
    Ok(Ok(SharedItems::from_vec(alloc, done)?))
}
