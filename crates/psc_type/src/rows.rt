//! Rows in the order of their labels.

ghost use Rattle.std.specs.Prelude.{◌≡◌, IfOk};
ghost use Rattle.psc_type.specs.Canonical as spec;

use crate::ty::{Constraint, Ty};
use psc_items::{Shared, SharedItems};
use psc_text::{Label, NoMemory};
use std::alloc::Global;

fn stands_after(a: &Label, b: &Label) -> bool
    ensures { result ≡ spec.stands_after a.now b.now }
{
    a.cmp(b).is_gt()
}

fn prepend(alloc: Global, label: &Label, ty: &Shared<Ty>, rest: &Ty) -> Result<Ty, NoMemory>
    ensures { IfOk result (λ row. row ≡ Ty.RowCons label.now ty.now rest.now) }
{
    let rest = Shared::new(alloc, rest.clone()?)?;
    Ok(Ty::RowCons(label.clone()?, ty.clone()?, rest))
}

/// The row with one more label, before the first that does not stand before it.
#[tactic(auto, using(crate::proofs::InsertRules::inserts))]
fn insert(alloc: Global, label: &Label, ty: &Shared<Ty>, rest: &Ty) -> Result<Ty, NoMemory>
    ensures { IfOk result (λ row. row ≡ spec.insert label.now ty.now rest.now) }
{
    match rest {
        Ty::RowCons(other, first, more) => {
            if stands_after(label, other) {
                let more = insert(alloc, label, ty, more.get())?;
                prepend(alloc, other, first, &more)
            } else {
                prepend(alloc, label, ty, rest)
            }
        }
        _ => prepend(alloc, label, ty, rest),
    }
}

/// The type with the labels of each row in their order by bytes, and equal labels as they stood.
///
/// It takes the fewest steps on rows that are in order already.
#[cycle(canonical)]
pub fn canonical(alloc: Global, ty: &Ty) -> Result<Ty, NoMemory>
    ensures { IfOk result (λ t. t ≡ spec.canonical ty.now) }
{
    match ty {
        Ty::App(function, argument) => {
            let function = shared(alloc, function)?;
            Ok(Ty::App(function, shared(alloc, argument)?))
        }
        Ty::Forall(name, kind, body) => {
            let body = shared(alloc, body)?;
            Ok(Ty::Forall(name.clone()?, kind.clone()?, body))
        }
        Ty::Given(given, body) => {
            let given = constraint(alloc, given)?;
            Ok(Ty::Given(given, shared(alloc, body)?))
        }
        Ty::RowCons(label, first, rest) => {
            let first = shared(alloc, first)?;
            let rest = canonical(alloc, rest.get())?;
            insert(alloc, label, &first, &rest)
        }
        Ty::Var(_) | Ty::Unknown(_) | Ty::Con(_) | Ty::RowNil | Ty::Symbol(_) | Ty::Any(_) => {
            Ok(ty.clone()?)
        }
    }
}

#[cycle(canonical)]
fn shared(alloc: Global, ty: &Shared<Ty>) -> Result<Shared<Ty>, NoMemory>
    ensures { IfOk result (λ t. t ≡ spec.canonical ty.now) }
{
    Ok(Shared::new(alloc, canonical(alloc, ty.get())?)?)
}

#[cycle(canonical)]
fn constraint(alloc: Global, given: &Constraint) -> Result<Constraint, NoMemory>
    ensures { IfOk result (λ c. c ≡ spec.canonical_constraint given.now) }
{
    let mut args = Vec::new(alloc);
    for arg in given.args.as_slice() {
        args.push(canonical(alloc, arg)?)?;
    }
    Ok(Constraint {
        class: given.class.clone()?,
        args: SharedItems::from_vec(alloc, args)?,
    })
}
