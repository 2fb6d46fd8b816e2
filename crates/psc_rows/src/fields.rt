// The fields of a row, and the row of a list of fields.
ghost use Rattle.std.specs.Prelude.{◌≡◌, ℕ, ◌<◌, length, List, [], ◌∷◌, ◌++◌, OnOk, IfOk, slice_get, Err, true, false};
ghost use Rattle.psc_graph.specs.Tree.{Tree};
ghost use Rattle.psc_graph.specs.Model.{Solves};
ghost use Rattle.psc_graph.specs.General.{Grows, IsReady};
ghost use Rattle.psc_rows.specs.Row.{row_of, IsTail, HeadsBelow};
ghost use Rattle.psc_rows.specs.Writes.{Remembers};

use crate::graph::Graph;
use psc_graph::{Node, Stop, find};
use std::alloc::Global;

/// A label's number with the place of its type.
#[derive(Clone, Copy, Debug, PartialEq, Eq)]
pub struct Field {
    pub label: u64,
    pub head: usize,
}

/// The fields of a row in order, and the place of its tail, which is no field.
#[derive(Drop)]
pub struct Row {
    pub fields: Vec<Field>,
    pub tail: usize,
}

/// Adds a field to a list.
pub fn add_field(fields: &mut Vec<Field>, field: Field) -> Result<(), Stop>
    ensures ok { OnOk result (fields.new.items ≡ fields.old.items ++ field ∷ []) }
    ensures clash { result ≡ Err Stop.Clash → ⊥ }
{
    match fields.push(field) {
        Ok(()) => Ok(()),
        Err(_) => Err(Stop::Memory),
    }
}

/// The field at a place of a list.
pub fn field_at(fields: &[Field], at: usize) -> Option<Field>
    ensures { result ≡ slice_get fields.now at }
{
    fields.get(at).copied()
}

/// Whether a list has no fields.
pub fn is_without_fields(fields: &[Field]) -> bool
    ensures none { result ≡ true → fields.now ≡ [] }
    ensures some { result ≡ false → (first : Field) × (rest : List Field) × (fields.now ≡ first ∷ rest) }
{
    match field_at(fields, 0) {
        None => true,
        Some(_) => false,
    }
}

/// Whether the heads of all fields are places of nodes.
pub fn are_heads_inside(nodes: &[Node], fields: &[Field]) -> bool
    ensures { result ≡ true → HeadsBelow (length nodes.now) fields.now }
{
    for index in 0..fields.len() {
        let Some(field) = field_at(fields, index) else {
            return false;
        };
        if field.head >= nodes.len() {
            return false;
        }
    }
    true
}

/// The row that begins at a node.
pub fn read_row(alloc: Global, nodes: &[Node], at: usize) -> Result<Row, Stop>
    ensures tail { IfOk result (λ r. IsTail nodes.now r.tail) }
    ensures value { IfOk result (λ r. (v : ℕ → Tree) → Solves v nodes.now → v at ≡ row_of v r.fields.items (v r.tail)) }
    ensures clash { result ≡ Err Stop.Clash → ⊥ }
{
    let mut fields = Vec::new(alloc);
    let mut at = at;
    for _ in 0..u64::MAX {
        let (end, node) = find(nodes, at)?;
        match node {
            Node::Field(label, head, rest) => {
                add_field(&mut fields, Field { label, head })?;
                at = rest;
            }
            Node::Free(_) | Node::Link(_) | Node::Atom(_) | Node::Join(_, _, _) => {
                return Ok(Row { fields, tail: end });
            }
        }
    }
    Err(Stop::Memory)
}

/// Adds the nodes of a row with these fields before the tail, and gives its place.
pub fn push_row(graph: &mut Graph, fields: &[Field], tail: usize) -> Result<usize, Stop>
    ensures grows { OnOk result (Grows graph.old.nodes.items graph.new.nodes.items) }
    ensures ready { OnOk result (IsReady graph.old.nodes.items graph.old.kinds.items → IsReady graph.new.nodes.items graph.new.kinds.items) }
    ensures value { IfOk result (λ r. (v : ℕ → Tree) → Solves v graph.new.nodes.items → v r ≡ row_of v fields.now (v tail)) }
    ensures remembers { OnOk result (Remembers graph.old graph.new) }
    ensures clash { result ≡ Err Stop.Clash → ⊥ }
{
    let mut place = tail;
    let count = fields.len();
    for index in 0..count {
        let Some(field) = field_at(fields, count - 1 - index) else {
            return Err(Stop::Memory);
        };
        place = graph.push(Node::Field(field.label, field.head, place))?;
    }
    Ok(place)
}
