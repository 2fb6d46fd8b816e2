//! Whether two types are equal up to the order of labels in rows and the names of bound variables.

ghost use Rattle.std.specs.Prelude.{◌≡◌, ◌↔◌, IsTrue, IfOk};
ghost use Rattle.psc_type.specs.Nameless as spec;
ghost use Rattle.psc_type.specs.Canonical.{canonical};

use crate::rows::canonical;
use crate::ty::{Constraint, Ty};
use psc_items::{Shared, SharedItems};
use psc_text::{Ident, NoMemory, Text};
use std::alloc::Global;

/// Whether both types are equal up to the order of the labels of each row, where equal labels keep
/// theirs, and up to the names of the variables that a `forall` binds.
pub fn row_equal(alloc: Global, a: &Ty, b: &Ty) -> Result<bool, NoMemory>
    ensures { IfOk result (λ equal. IsTrue equal ↔ (spec.nameless (canonical a.now) ≡ spec.nameless (canonical b.now))) }
{
    let left = standard(alloc, a)?;
    let right = standard(alloc, b)?;
    Ok(left.same(&right))
}

fn standard(alloc: Global, ty: &Ty) -> Result<Ty, NoMemory>
    ensures { IfOk result (λ t. t ≡ spec.nameless (canonical ty.now)) }
{
    let ty = canonical(alloc, ty)?;
    let mut bound = Vec::new(alloc);
    nameless(alloc, &ty, &mut bound)
}

fn free_name(alloc: Global, name: &Ident) -> Result<Ident, NoMemory>
    ensures { IfOk result (λ x. x ≡ spec.free_name name.now) }
{
    let mut text = String::from_str(alloc, "f")?;
    text.push_str(name.0.as_str())?;
    Ok(Ident(Text::from_string(text)?))
}

fn bound_name(alloc: Global, level: usize) -> Result<Ident, NoMemory>
    ensures { IfOk result (λ x. x ≡ spec.bound_name level) }
{
    let text = format!(in alloc; "b{level}")?;
    Ok(Ident(Text::from_string(text)?))
}

fn no_name(alloc: Global) -> Result<Ident, NoMemory>
    ensures { IfOk result (λ x. x ≡ spec.no_name) }
{
    Ok(Ident(Text::new(alloc, "")?))
}

#[tactic(auto, unfolding(crate::specs::Nameless::level_from))]
fn level_of(bound: &[Ident], name: &Ident) -> Option<usize>
    ensures { result ≡ spec.level_of bound.now name.now }
{
    let mut level = None;
    for (at, other) in bound.iter().enumerate() {
        if other == name {
            level = Some(at);
        }
    }
    level
}

fn nameless_var(alloc: Global, bound: &[Ident], name: &Ident) -> Result<Ty, NoMemory>
    ensures { IfOk result (λ t. t ≡ spec.nameless_var bound.now name.now) }
{
    match level_of(bound, name) {
        Some(level) => Ok(Ty::Var(bound_name(alloc, level)?)),
        None => Ok(Ty::Var(free_name(alloc, name)?)),
    }
}

#[cycle(nameless)]
#[tactic(auto, using(crate::proofs::NamelessRules::nameless_rules))]
fn nameless(alloc: Global, ty: &Ty, bound: &mut Vec<Ident>) -> Result<Ty, NoMemory>
    ensures gives { IfOk result (λ t. t ≡ spec.nameless_under ty.now bound.old.items) }
    ensures restored { IfOk result (λ _. bound.new.items ≡ bound.old.items) }
{
    match ty {
        Ty::Var(name) => nameless_var(alloc, bound.as_slice(), name),
        Ty::App(function, argument) => {
            let function = shared(alloc, function, bound)?;
            Ok(Ty::App(function, shared(alloc, argument, bound)?))
        }
        Ty::Forall(name, kind, body) => {
            bound.push(name.clone()?)?;
            let body = shared(alloc, body, bound)?;
            bound.pop();
            Ok(Ty::Forall(no_name(alloc)?, kind.clone()?, body))
        }
        Ty::Given(given, body) => {
            let given = constraint(alloc, given, bound)?;
            Ok(Ty::Given(given, shared(alloc, body, bound)?))
        }
        Ty::RowCons(label, first, rest) => {
            let first = shared(alloc, first, bound)?;
            Ok(Ty::RowCons(label.clone()?, first, shared(alloc, rest, bound)?))
        }
        Ty::Unknown(_) | Ty::Con(_) | Ty::RowNil | Ty::Symbol(_) | Ty::Any(_) => Ok(ty.clone()?),
    }
}

#[cycle(nameless)]
fn shared(alloc: Global, ty: &Shared<Ty>, bound: &mut Vec<Ident>) -> Result<Shared<Ty>, NoMemory>
    ensures gives { IfOk result (λ t. t ≡ spec.nameless_under ty.now bound.old.items) }
    ensures restored { IfOk result (λ _. bound.new.items ≡ bound.old.items) }
{
    Ok(Shared::new(alloc, nameless(alloc, ty.get(), bound)?)?)
}

#[cycle(nameless)]
fn constraint(
    alloc: Global,
    given: &Constraint,
    bound: &mut Vec<Ident>,
) -> Result<Constraint, NoMemory>
    ensures gives { IfOk result (λ c. c ≡ spec.nameless_constraint given.now bound.old.items) }
    ensures restored { IfOk result (λ _. bound.new.items ≡ bound.old.items) }
{
    let mut args = Vec::new(alloc);
    for arg in given.args.as_slice() {
        args.push(nameless(alloc, arg, bound)?)?;
    }
    Ok(Constraint {
        class: given.class.clone()?,
        args: SharedItems::from_vec(alloc, args)?,
    })
}
