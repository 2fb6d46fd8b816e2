//! The free variables of a type, and types in their place.
//!
//! A type that is put in keeps its variables free: a `forall` that would bind one of them gets
//! another name, which is its own with primes behind it.

ghost use Rattle.std.specs.Prelude.{◌≡◌, IfOk};
ghost use Rattle.std.specs.List.{list_any};
ghost use Rattle.psc_type.specs.Vars as spec;

use crate::ty::{Constraint, Ty};
use psc_items::{Shared, SharedItems};
use psc_text::{Ident, NoMemory, Text};
use std::alloc::{AllocError, Global};

/// A variable and the type that stands in its place.
#[derive(Debug, Drop)]
pub struct Replaced {
    pub name: Ident,
    pub by: Ty,
}

impl Clone for Replaced {
    ghost is_clone = { λ one copy. copy ≡ one };

    fn clone(&self) -> Result<Replaced, AllocError> {
        let name = self.name.clone()?;
        let by = self.by.clone()?;
        Ok(Replaced { name, by })
    }
}

/// Whether the variable stands in the type where no `forall` of it binds it.
#[cycle(free)]
#[tactic(auto, using(crate::proofs::VarRules::is_free_rules))]
pub fn is_free(name: &Ident, ty: &Ty) -> bool
    ensures { result ≡ spec.is_free name.now ty.now }
{
    match ty {
        Ty::Var(found) => name == found,
        Ty::App(left, right) | Ty::RowCons(_, left, right) => {
            is_free(name, left.get()) || is_free(name, right.get())
        }
        Ty::Forall(bound, _, body) => name != bound && is_free(name, body.get()),
        Ty::Given(given, body) => {
            is_free_in_any(name, given.args.as_slice()) || is_free(name, body.get())
        }
        Ty::Unknown(_) | Ty::Con(_) | Ty::RowNil | Ty::Symbol(_) | Ty::Any(_) => false,
    }
}

#[cycle(free)]
fn is_free_in_any(name: &Ident, args: &[Ty]) -> bool
    ensures { result ≡ list_any (spec.is_free name.now) args.now }
{
    for arg in args {
        if is_free(name, arg) {
            return true;
        }
    }
    false
}

/// The type with types in place of its free variables. Of two for one variable the last counts.
pub fn substitute(alloc: Global, replaced: &[Replaced], ty: &Ty) -> Result<Ty, NoMemory>
    ensures { IfOk result (λ t. t ≡ spec.substitute replaced.now ty.now) }
{
    let mut env = copied(alloc, replaced)?;
    put_in(alloc, ty, ty, &mut env)
}

fn copied(alloc: Global, replaced: &[Replaced]) -> Result<Vec<Replaced>, NoMemory>
    ensures { IfOk result (λ v. v.items ≡ replaced.now) }
{
    let mut env = Vec::new(alloc);
    for one in replaced {
        env.push(one.clone()?)?;
    }
    Ok(env)
}

#[tactic(auto, unfolding(crate::specs::Vars::later))]
fn at_var(env: &[Replaced], name: &Ident) -> Result<Ty, NoMemory>
    ensures { IfOk result (λ t. t ≡ spec.at_var env.now name.now) }
{
    let mut ty = Ty::Var(name.clone()?);
    for one in env {
        if one.name == *name {
            ty = one.by.clone()?;
        }
    }
    Ok(ty)
}

/// Whether the name is free in a type that is put in below a `forall` of `bound`.
fn is_caught(env: &[Replaced], bound: &Ident, name: &Ident) -> bool
    ensures { result ≡ list_any (spec.catches bound.now name.now) env.now }
{
    for one in env {
        if one.name != *bound && is_free(name, &one.by) {
            return true;
        }
    }
    false
}

fn primed(alloc: Global, name: &Ident) -> Result<Ident, NoMemory>
    ensures { IfOk result (λ x. x ≡ spec.primed name.now) }
{
    let mut text = String::from_str(alloc, name.0.as_str())?;
    text.push_str("'")?;
    Ok(Ident(Text::from_string(text)?))
}

fn is_replaced(env: &[Replaced], name: &Ident) -> bool
    ensures { result ≡ spec.is_replaced env.now name.now }
{
    for one in env {
        if one.name == *name {
            return true;
        }
    }
    false
}

/// Whether a `forall` that is written with `bound` cannot have the name.
fn is_taken(bound: &Ident, name: &Ident, whole: &Ty, env: &[Replaced]) -> bool
    ensures { result ≡ spec.is_taken bound.now name.now whole.now env.now }
{
    is_caught(env, bound, name)
        || (name != bound && is_free(name, whole) && !is_replaced(env, name))
}

/// The name with as many primes as it takes that it is free neither in what is put in nor in what stays.
#[tactic(auto, using(crate::proofs::VarRules::fresh_rules))]
fn fresh(
    alloc: Global,
    tries: u64,
    bound: &Ident,
    name: &Ident,
    whole: &Ty,
    env: &[Replaced],
) -> Result<Ident, NoMemory>
    ensures { IfOk result (λ x. x ≡ spec.fresh tries bound.now name.now whole.now env.now) }
{
    if tries != 0 && is_taken(bound, name, whole, env) {
        let name = primed(alloc, name)?;
        fresh(alloc, tries - 1, bound, &name, whole, env)
    } else {
        Ok(name.clone()?)
    }
}

#[tactic(auto, using(crate::proofs::VarRules::fresh_name_rules))]
fn fresh_name(alloc: Global, name: &Ident, whole: &Ty, env: &[Replaced]) -> Result<Ident, NoMemory>
    ensures { IfOk result (λ x. x ≡ spec.fresh_name name.now whole.now env.now) }
{
    fresh(alloc, u64::MAX, name, name, whole, env)
}

fn renamed(name: &Ident, other: &Ident) -> Result<Replaced, NoMemory>
    ensures { IfOk result (λ one. one ≡ spec.renamed name.now other.now) }
{
    Ok(Replaced {
        name: name.clone()?,
        by: Ty::Var(other.clone()?),
    })
}

/// The new name of a variable that a `forall` binds, which then stands for it.
fn bind(alloc: Global, name: &Ident, whole: &Ty, env: &mut Vec<Replaced>) -> Result<Ident, NoMemory>
    ensures name { IfOk result (λ x. x ≡ spec.fresh_name name.now whole.now env.old.items) }
    ensures bound { IfOk result (λ _. env.new.items ≡ spec.bound whole.now name.now env.old.items) }
{
    let other = fresh_name(alloc, name, whole, env.as_slice())?;
    env.push(renamed(name, &other)?)?;
    Ok(other)
}

#[cycle(substitute)]
#[tactic(auto, using(crate::proofs::VarRules::put_in_rules))]
fn put_in(alloc: Global, ty: &Ty, whole: &Ty, env: &mut Vec<Replaced>) -> Result<Ty, NoMemory>
    ensures gives { IfOk result (λ t. t ≡ spec.put_in whole.now ty.now env.old.items) }
    ensures restored { IfOk result (λ _. env.new.items ≡ env.old.items) }
{
    match ty {
        Ty::Var(name) => at_var(env.as_slice(), name),
        Ty::App(function, argument) => {
            let function = shared_in(alloc, function, whole, env)?;
            Ok(Ty::App(function, shared_in(alloc, argument, whole, env)?))
        }
        Ty::Forall(name, kind, body) => {
            let other = bind(alloc, name, whole, env)?;
            let body = shared_in(alloc, body, whole, env)?;
            env.pop();
            Ok(Ty::Forall(other, kind.clone()?, body))
        }
        Ty::Given(given, body) => {
            let given = constraint_in(alloc, given, whole, env)?;
            Ok(Ty::Given(given, shared_in(alloc, body, whole, env)?))
        }
        Ty::RowCons(label, first, rest) => {
            let first = shared_in(alloc, first, whole, env)?;
            Ok(Ty::RowCons(label.clone()?, first, shared_in(alloc, rest, whole, env)?))
        }
        Ty::Unknown(_) | Ty::Con(_) | Ty::RowNil | Ty::Symbol(_) | Ty::Any(_) => Ok(ty.clone()?),
    }
}

#[cycle(substitute)]
fn shared_in(
    alloc: Global,
    ty: &Shared<Ty>,
    whole: &Ty,
    env: &mut Vec<Replaced>,
) -> Result<Shared<Ty>, NoMemory>
    ensures gives { IfOk result (λ t. t ≡ spec.put_in whole.now ty.now env.old.items) }
    ensures restored { IfOk result (λ _. env.new.items ≡ env.old.items) }
{
    Ok(Shared::new(alloc, put_in(alloc, ty.get(), whole, env)?)?)
}

#[cycle(substitute)]
fn constraint_in(
    alloc: Global,
    given: &Constraint,
    whole: &Ty,
    env: &mut Vec<Replaced>,
) -> Result<Constraint, NoMemory>
    ensures gives { IfOk result (λ c. c ≡ spec.constraint_in whole.now given.now env.old.items) }
    ensures restored { IfOk result (λ _. env.new.items ≡ env.old.items) }
{
    let mut args = Vec::new(alloc);
    for arg in given.args.as_slice() {
        args.push(put_in(alloc, arg, whole, env)?)?;
    }
    Ok(Constraint {
        class: given.class.clone()?,
        args: SharedItems::from_vec(alloc, args)?,
    })
}
