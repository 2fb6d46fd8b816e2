//! Dictionaries: what evidence is erased to.
//!
//! A dictionary is a record. Its superclasses are the fields `$super0`, `$super1` and so on, each put off,
//! and its members are fields of their names.

ghost use Rattle.std.specs.Prelude.{◌≡◌, ◌++◌, IfOk, map};
ghost use Rattle.psc_core.specs.Evidence as spec;

use crate::evidence::Evidence;
use psc_core_cases::{forced, super_label, thunk, variable};
use psc_core_tree::{Ann, CoreExpr, Field};
use psc_text::{NoMemory, Qualified, Span};
use sqlite_items::{Boxed, Items};
use std::alloc::Global;

/// The dictionary that evidence stands for, where a form at this place wants it.
#[cycle(dictionary)]
pub(crate) fn dictionary(alloc: Global, at: Span, evidence: &Evidence) -> Result<CoreExpr, NoMemory>
    ensures { IfOk result (λ core. core ≡ spec.evidence at evidence.now) }
{
    match evidence {
        Evidence::Param(name) => Ok(variable(at, name.0.clone()?)),
        Evidence::Super(of, number) => super_of(alloc, at, of.get(), *number as usize),
        Evidence::Inst(name, _, context) => instance(alloc, at, name, context.as_slice()),
    }
}

#[cycle(dictionary)]
fn super_of(
    alloc: Global,
    at: Span,
    evidence: &Evidence,
    number: usize,
) -> Result<CoreExpr, NoMemory>
    ensures { IfOk result (λ core. core ≡ spec.super_of at (spec.evidence at evidence.now) number) }
{
    let subject = Boxed::new(alloc, dictionary(alloc, at, evidence)?)?;
    let label = super_label(alloc, number)?;
    let field = CoreExpr::Accessor {
        ann: Ann::plain(at),
        subject,
        label,
    };
    forced(alloc, at, field)
}

fn applied_to(
    alloc: Global,
    at: Span,
    function: CoreExpr,
    argument: CoreExpr,
) -> Result<CoreExpr, NoMemory>
    ensures { IfOk result (λ core. core ≡ spec.applied_to at function argument) }
{
    let argument = Boxed::new(alloc, argument)?;
    Ok(CoreExpr::App {
        ann: Ann::plain(at),
        function: Boxed::new(alloc, function)?,
        argument,
    })
}

#[cycle(dictionary)]
#[tactic(auto, unfolding(crate::specs::Evidence::applied))]
fn instance(
    alloc: Global,
    at: Span,
    name: &Qualified,
    context: &[Evidence],
) -> Result<CoreExpr, NoMemory>
    ensures { IfOk result (λ core. core ≡ spec.applied at (spec.instance at name.now) (map (spec.evidence at) context.now)) }
{
    let mut function = CoreExpr::Var {
        ann: Ann::plain(at),
        name: name.clone()?,
    };
    for evidence in context {
        let argument = dictionary(alloc, at, evidence)?;
        function = applied_to(alloc, at, function, argument)?;
    }
    Ok(function)
}

fn super_field(
    alloc: Global,
    at: Span,
    number: usize,
    evidence: &Evidence,
) -> Result<Field, NoMemory>
    ensures { IfOk result (λ field. field ≡ spec.super_field at number (spec.evidence at evidence.now)) }
{
    let label = super_label(alloc, number)?;
    let value = thunk(alloc, at, dictionary(alloc, at, evidence)?)?;
    Ok(Field { label, value })
}

/// The fields of a dictionary for its superclasses.
#[tactic(auto, unfolding(crate::specs::Evidence::super_fields))]
pub(crate) fn super_fields(
    alloc: Global,
    at: Span,
    supers: &[Evidence],
) -> Result<Items<Field>, NoMemory>
    ensures { IfOk result (λ fields. fields ≡ spec.super_fields at 0 (map (spec.evidence at) supers.now)) }
{
    let mut fields = Items::new(alloc);
    for (number, evidence) in supers.iter().enumerate() {
        fields.push(super_field(alloc, at, number, evidence)?)?;
    }
    Ok(fields)
}
