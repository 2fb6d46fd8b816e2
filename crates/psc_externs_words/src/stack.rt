//! The stack of what words have made, whose top is its end.

ghost use Rattle.std.specs.Prelude.{◌≡◌, IfOk, Some, option_map};
ghost use Rattle.psc_externs_words.specs.Reading as spec;

use psc_text::NoMemory;
use psc_type::{Kind, Ty};

/// What words have made.
#[derive(Drop)]
pub(crate) enum Item {
    OfKind(Kind),
    OfType(Ty),
}

/// The stack with one more, as the answer of a word.
pub(crate) fn push(stack: Vec<Item>, item: Item) -> Result<Option<Vec<Item>>, NoMemory>
    ensures { IfOk result (λ o. option_map (λ v. v.items) o ≡ Some (spec.push item stack.items)) }
{
    let mut stack = stack;
    stack.push(item)?;
    Ok(Some(stack))
}

/// A kind and what lies below it.
#[tactic(auto, using(crate::proofs::Pops::pops))]
pub(crate) fn pop_kind(stack: Vec<Item>) -> Option<(Kind, Vec<Item>)>
    ensures { option_map (λ p. (p.0, p.1.items)) result ≡ spec.pop_kind stack.items }
{
    let mut stack = stack;
    match stack.pop() {
        Some(Item::OfKind(kind)) => Some((kind, stack)),
        Some(Item::OfType(_)) | None => None,
    }
}

#[tactic(auto, using(crate::proofs::Pops::pops))]
fn pop_type(stack: Vec<Item>) -> Option<(Ty, Vec<Item>)>
    ensures { option_map (λ p. (p.0, p.1.items)) result ≡ spec.pop_type stack.items }
{
    let mut stack = stack;
    match stack.pop() {
        Some(Item::OfType(ty)) => Some((ty, stack)),
        Some(Item::OfKind(_)) | None => None,
    }
}

/// The only one of the stack.
#[tactic(auto, using(crate::proofs::Pops::pops))]
pub(crate) fn lone(stack: Vec<Item>) -> Option<Item>
    ensures { result ≡ spec.lone stack.items }
{
    let mut stack = stack;
    let top = stack.pop()?;
    if stack.is_empty() { Some(top) } else { None }
}

/// Two kinds, the upper one first.
pub(crate) fn two_kinds(stack: Vec<Item>) -> Option<(Kind, Kind, Vec<Item>)>
    ensures { option_map (λ p. (p.0, p.1, p.2.items)) result ≡ spec.pop_kinds stack.items }
{
    let (first, stack) = pop_kind(stack)?;
    let (second, stack) = pop_kind(stack)?;
    Some((first, second, stack))
}

/// Two types, the upper one first.
pub(crate) fn two_types(stack: Vec<Item>) -> Option<(Ty, Ty, Vec<Item>)>
    ensures { option_map (λ p. (p.0, p.1, p.2.items)) result ≡ spec.pop_types stack.items }
{
    let (first, stack) = pop_type(stack)?;
    let (second, stack) = pop_type(stack)?;
    Some((first, second, stack))
}

/// A kind and the type below it.
pub(crate) fn kind_and_type(stack: Vec<Item>) -> Option<(Kind, Ty, Vec<Item>)>
    ensures { option_map (λ p. (p.0, p.1, p.2.items)) result ≡ spec.pop_kind_and_type stack.items }
{
    let (kind, stack) = pop_kind(stack)?;
    let (ty, stack) = pop_type(stack)?;
    Some((kind, ty, stack))
}
