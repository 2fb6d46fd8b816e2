//! Which types have no unknown in them, and which have every variable bound.

ghost use Rattle.std.specs.Prelude.{◌≡◌, IfOk, List, [], ◌∷◌, ◌++◌, ◌&&◌};
ghost use Rattle.std.specs.List.{list_any, list_all};
ghost use Rattle.psc_type.specs.Closed as spec;

use crate::kind::Kind;
use crate::ty::Ty;
use psc_text::{Ident, NoMemory};
use std::alloc::Global;

impl Kind {
    /// Whether no unknown stands in the kind.
    pub fn is_known(&self) -> bool
        ensures { result ≡ spec.is_known_kind self.now }
    {
        match self {
            Kind::Star | Kind::Constr | Kind::Sym => true,
            Kind::RowOf(of) => of.get().is_known(),
            Kind::Arrow(from, to) => from.get().is_known() && to.get().is_known(),
            Kind::Unknown(_) => false,
        }
    }
}

/// Whether no unknown stands in the type, and none in its kinds.
#[tactic(auto, using(crate::proofs::AllRules::givens))]
#[cycle(known)]
pub fn is_known(ty: &Ty) -> bool
    ensures { result ≡ spec.is_known ty.now }
{
    match ty {
        Ty::Var(_) | Ty::Con(_) | Ty::RowNil | Ty::Symbol(_) => true,
        Ty::Unknown(_) => false,
        Ty::Any(kind) => kind.is_known(),
        Ty::App(left, right) | Ty::RowCons(_, left, right) => {
            is_known(left.get()) && is_known(right.get())
        }
        Ty::Forall(_, kind, body) => kind.is_known() && is_known(body.get()),
        Ty::Given(given, body) => are_known(given.args.as_slice()) && is_known(body.get()),
    }
}

#[tactic(auto, using(crate::proofs::AllRules::givens))]
#[cycle(known)]
fn are_known(args: &[Ty]) -> bool
    ensures { result ≡ spec.are_known args.now }
{
    for arg in args {
        if !is_known(arg) {
            return false;
        }
    }
    true
}

/// Whether each variable is bound by a `forall` round it.
pub fn is_closed(alloc: Global, ty: &Ty) -> Result<bool, NoMemory>
    ensures { IfOk result (λ closed. closed ≡ spec.is_closed_under ty.now []) }
{
    let mut bound = Vec::new(alloc);
    is_closed_under(&mut bound, ty)
}

fn is_bound(bound: &[Ident], name: &Ident) -> bool
    ensures { result ≡ list_any (spec.is_same name.now) bound.now }
{
    bound.iter().any(|other| name == other)
}

#[tactic(auto, using(crate::proofs::AllRules::givens))]
#[cycle(closed)]
fn is_closed_under(bound: &mut Vec<Ident>, ty: &Ty) -> Result<bool, NoMemory>
    ensures closed { IfOk result (λ closed. closed ≡ spec.is_closed_under ty.now bound.old.items) }
    ensures restored { IfOk result (λ closed. bound.new.items ≡ bound.old.items) }
{
    match ty {
        Ty::Unknown(_) | Ty::Con(_) | Ty::RowNil | Ty::Symbol(_) | Ty::Any(_) => Ok(true),
        Ty::Var(name) => Ok(is_bound(bound.as_slice(), name)),
        Ty::App(left, right) | Ty::RowCons(_, left, right) => {
            let left = is_closed_under(bound, left.get())?;
            let right = is_closed_under(bound, right.get())?;
            Ok(left && right)
        }
        Ty::Forall(name, _, body) => {
            bound.push(name.clone()?)?;
            let closed = is_closed_under(bound, body.get())?;
            bound.pop();
            Ok(closed)
        }
        Ty::Given(given, body) => {
            let args = are_closed_under(bound, given.args.as_slice())?;
            let body = is_closed_under(bound, body.get())?;
            Ok(args && body)
        }
    }
}

#[tactic(auto, using(crate::proofs::AllRules::givens))]
#[cycle(closed)]
fn are_closed_under(bound: &mut Vec<Ident>, args: &[Ty]) -> Result<bool, NoMemory>
    ensures closed { IfOk result (λ closed. closed ≡ list_all (λ t. spec.is_closed_under t bound.old.items) args.now) }
    ensures restored { IfOk result (λ closed. bound.new.items ≡ bound.old.items) }
{
    for arg in args {
        if !is_closed_under(bound, arg)? {
            return Ok(false);
        }
    }
    Ok(true)
}
