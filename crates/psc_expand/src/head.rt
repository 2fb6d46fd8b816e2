//! What a type is before its arguments are known.

ghost use Rattle.std.specs.Prelude.{◌≡◌, ◌++◌, length, slice_get, IfOk};
ghost use Rattle.psc_expand.specs.Head as spec;

use psc_items::{Shared, SharedItems};
use psc_text::{Ident, NoMemory, Qualified};
use psc_type::{ExpandFault, MOST_NODES, Replaced, Ty, has_more_nodes, substitute};
use std::alloc::Global;

/// A synonym with its body expanded, or with the fault in its body.
#[derive(Debug, Drop)]
pub struct Prepared {
    pub name: Qualified,
    pub params: SharedItems<Ident>,
    pub body: Result<Ty, ExpandFault>,
}

/// A type, or a synonym whose last arguments have not come yet.
#[derive(Debug, Drop)]
pub(crate) enum Head {
    Done(Ty),
    /// The synonym's name, its parameters, its body, and the arguments so far.
    Waiting(Qualified, SharedItems<Ident>, Ty, SharedItems<Replaced>),
}

fn copied_fault(fault: &ExpandFault) -> Result<ExpandFault, NoMemory>
    ensures { IfOk result (λ f. f ≡ fault.now) }
{
    match fault {
        ExpandFault::Partial(name) => Ok(ExpandFault::Partial(name.clone()?)),
        ExpandFault::TooLarge => Ok(ExpandFault::TooLarge),
    }
}

/// The head that a synonym begins.
pub(crate) fn begin(alloc: Global, row: &Prepared) -> Result<Result<Head, ExpandFault>, NoMemory>
    ensures { IfOk result (λ r. r ≡ spec.begin row.now) }
{
    match &row.body {
        Err(fault) => Ok(Err(copied_fault(fault)?)),
        Ok(body) => {
            if row.params.len() == 0 {
                return Ok(Ok(Head::Done(body.clone()?)));
            }
            let given = SharedItems::from_vec(alloc, Vec::new(alloc))?;
            let (name, params) = (row.name.clone()?, row.params.clone()?);
            Ok(Ok(Head::Waiting(name, params, body.clone()?, given)))
        }
    }
}

/// The type, where it has all its arguments.
pub(crate) fn finish(head: Head) -> Result<Ty, ExpandFault>
    ensures { result ≡ spec.finish head }
{
    match head {
        Head::Done(ty) => Ok(ty),
        Head::Waiting(name, _, _, _) => Err(ExpandFault::Partial(name)),
    }
}

/// The type, where it is not too large.
pub(crate) fn limited(ty: Ty) -> Result<Ty, ExpandFault>
    ensures { result ≡ spec.limited ty }
{
    if has_more_nodes(&ty, MOST_NODES) {
        Err(ExpandFault::TooLarge)
    } else {
        Ok(ty)
    }
}

fn filled(
    alloc: Global,
    given: &[Replaced],
    body: &Ty,
) -> Result<Result<Head, ExpandFault>, NoMemory>
    ensures { IfOk result (λ r. r ≡ spec.filled given.now body.now) }
{
    match limited(substitute(alloc, given, body)?) {
        Ok(ty) => Ok(Ok(Head::Done(ty))),
        Err(fault) => Ok(Err(fault)),
    }
}

fn copied(alloc: Global, given: &[Replaced]) -> Result<Vec<Replaced>, NoMemory>
    ensures { IfOk result (λ copy. copy.items ≡ given.now) }
{
    let mut copy = Vec::new(alloc);
    for one in given {
        copy.push(one.clone()?)?;
    }
    Ok(copy)
}

fn with_one_more(
    alloc: Global,
    given: &[Replaced],
    name: &Ident,
    by: Ty,
) -> Result<SharedItems<Replaced>, NoMemory>
    ensures { IfOk result (λ items. items ≡ given.now ++ spec.one name.now by) }
{
    let mut items = copied(alloc, given)?;
    let name = name.clone()?;
    items.push(Replaced { name, by })?;
    Ok(SharedItems::from_vec(alloc, items)?)
}

/// The head that a synonym becomes with these arguments.
#[tactic(auto, unfolding(crate::specs::Head::filled_or_waiting))]
fn filled_or_waiting(
    alloc: Global,
    name: &Qualified,
    params: &SharedItems<Ident>,
    body: &Ty,
    given: SharedItems<Replaced>,
) -> Result<Result<Head, ExpandFault>, NoMemory>
    ensures { IfOk result (λ r. r ≡ spec.filled_or_waiting name.now params.now body.now given) }
{
    if given.len() == params.len() {
        return filled(alloc, given.as_slice(), body);
    }
    let (name, params) = (name.clone()?, params.clone()?);
    Ok(Ok(Head::Waiting(name, params, body.clone()?, given)))
}

/// The head that a synonym which waits becomes with one more argument.
fn taken(
    alloc: Global,
    name: &Qualified,
    params: &SharedItems<Ident>,
    body: &Ty,
    given: &[Replaced],
    argument: Ty,
) -> Result<Result<Head, ExpandFault>, NoMemory>
    ensures { IfOk result (λ r. r ≡ spec.apply_at name.now params.now body.now given.now argument (slice_get params.now (length given.now))) }
{
    match params.as_slice().get(given.len()) {
        None => Ok(Err(ExpandFault::Partial(name.clone()?))),
        Some(param) => {
            let given = with_one_more(alloc, given, param, argument)?;
            filled_or_waiting(alloc, name, params, body, given)
        }
    }
}

/// The head with one more argument.
#[tactic(auto, unfolding(crate::specs::Head::apply))]
pub(crate) fn apply(
    alloc: Global,
    head: &Head,
    argument: Ty,
) -> Result<Result<Head, ExpandFault>, NoMemory>
    ensures { IfOk result (λ r. r ≡ spec.apply head.now argument) }
{
    match head {
        Head::Done(ty) => {
            let argument = Shared::new(alloc, argument)?;
            let function = Shared::new(alloc, ty.clone()?)?;
            Ok(Ok(Head::Done(Ty::App(function, argument))))
        }
        Head::Waiting(name, params, body, given) => taken(
            alloc,
            name,
            params,
            body,
            given.as_slice(),
            argument,
        ),
    }
}
