//! What stands round the body of a `let`.
//!
//! Blocks and bindings become layers that are put round a body from the last to the first, so no long list is a recursion.

use psc_plain::{PlainBindGroup, PlainBinder, PlainExpr};
use psc_plain_parts::{alternative, boxed, case_of_one};
use psc_text::{NoMemory, Span};
use sqlite_items::Items;
use std::alloc::Global;

/// Where a `let` stands, and whether it was a `where`.
#[derive(Clone, Copy, Debug, PartialEq, Eq)]
pub(crate) struct Place {
    pub of_where: bool,
    pub span: Span,
}

/// What stands round the body of a `let`.
#[derive(Drop)]
pub(crate) enum Layer {
    /// Bindings that see one another, in their groups.
    Groups(Items<PlainBindGroup>),
    /// A binder that is no variable, with its right side.
    Match {
        binder: PlainBinder,
        value: PlainExpr,
        span: Span,
    },
}

/// Puts layers round a body, the last one first, and leaves none.
pub(crate) fn wrap(
    alloc: Global,
    layers: &mut Vec<Layer>,
    body: PlainExpr,
    place: Place,
) -> Result<PlainExpr, NoMemory> {
    let mut whole = body;
    for _ in 0..layers.len() {
        if let Some(layer) = layers.pop() {
            whole = wrap_one(alloc, layer, whole, place)?;
        }
    }
    Ok(whole)
}

fn wrap_one(
    alloc: Global,
    layer: Layer,
    body: PlainExpr,
    place: Place,
) -> Result<PlainExpr, NoMemory> {
    match layer {
        Layer::Groups(groups) => in_groups(alloc, groups, body, place),
        Layer::Match {
            binder,
            value,
            span,
        } => match alternative(alloc, binder, body, span) {
            Ok(alt) => case_of_one(alloc, value, alt, place.span),
            Err(error) => Err(error),
        },
    }
}

fn in_groups(
    alloc: Global,
    groups: Items<PlainBindGroup>,
    body: PlainExpr,
    place: Place,
) -> Result<PlainExpr, NoMemory> {
    match boxed(alloc, body) {
        Ok(body) => Ok(PlainExpr::Let {
            groups,
            body,
            of_where: place.of_where,
            span: place.span,
        }),
        Err(error) => Err(error),
    }
}
