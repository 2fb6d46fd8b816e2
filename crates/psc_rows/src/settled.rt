// A bound for each node, below which the unknowns stand that settle its value: an unknown past it is no
// part of the value, and need not be looked for there.
ghost use Rattle.std.specs.Prelude.{◌≡◌, ℕ, ◌<◌, ◌≤◌, List, [], ◌∷◌, ◌++◌, length, true, IfSome, slice_get, slice_set, Some};
ghost use Rattle.psc_graph.specs.Settled.{IsApart};
ghost use Rattle.psc_rows.specs.Bounds.{raised, IsPartBelow, IsBoundOf, AreSettled};

use psc_graph::Node;
use std::alloc::Global;

/// The bounds of nodes, by place. They are not written again: once an unknown was linked to what stands past
/// it, bounds past the least such unknown, `low`, count for at least `floor`, the number of nodes then.
#[derive(Debug, Drop)]
pub struct Settled {
    pub bounds: Vec<usize>,
    pub low: usize,
    pub floor: usize,
}

fn raise(low: usize, floor: usize, bound: usize) -> usize
    ensures { result ≡ raised low floor bound }
{
    if bound <= low {
        return bound;
    }
    if floor <= bound {
        return bound;
    }
    floor
}

fn lesser(left: usize, right: usize) -> usize
    ensures left { result ≤ left }
    ensures right { result ≤ right }
{
    if left <= right { left } else { right }
}

/// The larger of the bounds of two parts.
fn larger(bounds: &[usize], left: usize, right: usize) -> Option<usize>
    ensures { IfSome result (λ b. IsPartBelow bounds.now left b × IsPartBelow bounds.now right b) }
{
    match bounds.get(left).copied() {
        None => None,
        Some(one) => match bounds.get(right).copied() {
            None => None,
            Some(two) => if one <= two { Some(two) } else { Some(one) },
        },
    }
}

/// A bound of a node that is to be added at a place. None where a part has none.
fn bound_of(bounds: &[usize], place: usize, node: Node) -> Option<usize>
    ensures { IfSome result (λ b. IsBoundOf bounds.now place node b) }
{
    match node {
        Node::Free(_) => place.checked_add(1),
        Node::Atom(_) => Some(0),
        Node::Link(to) => bounds.get(to).copied(),
        Node::Join(_, left, right) => larger(bounds, left, right),
        Node::Field(_, head, rest) => larger(bounds, head, rest),
    }
}

impl Settled {
    /// The bounds of no nodes.
    pub fn new(alloc: Global) -> Settled
        ensures { result.bounds.items ≡ [] }
    {
        Settled {
            bounds: Vec::new(alloc),
            low: usize::MAX,
            floor: 0,
        }
    }

    /// Forgets all bounds.
    pub fn forget(&mut self)
        ensures { self.new.bounds.items ≡ [] }
    {
        self.bounds.clear();
    }

    /// Whether the unknown is known to be no part of the value of the node at a place.
    pub fn is_below(&self, at: usize, unknown: usize) -> bool
        ensures { result ≡ true → (b : ℕ) × (slice_get self.now.bounds.items at ≡ Some b) × (raised self.now.low self.now.floor b ≤ unknown) }
    {
        match self.bounds.as_slice().get(at).copied() {
            None => false,
            Some(bound) => raise(self.low, self.floor, bound) <= unknown,
        }
    }

    /// Adds the bound of a node that is added at a place, the next one. Forgets all where it has none.
    pub fn push(&mut self, place: usize, node: Node)
        ensures { (nodes : List Node) → length nodes ≡ place → AreSettled nodes self.old.bounds.items self.old.low self.old.floor → AreSettled (nodes ++ node ∷ []) self.new.bounds.items self.new.low self.new.floor }
    {
        if self.bounds.as_slice().len() != place {
            self.forget();
            return;
        }
        let Some(bound) = bound_of(self.bounds.as_slice(), place, node) else {
            self.forget();
            return;
        };
        match self.bounds.push(bound) {
            Ok(()) => {}
            Err(_) => self.forget(),
        }
    }

    /// Keeps the bounds true while an unknown is linked to a node of whose value it is no part. There
    /// are so many nodes.
    pub fn link(&mut self, unknown: usize, to: usize, count: usize)
        ensures { (nodes : List Node) (kind : ℕ) → length nodes ≡ count → slice_get nodes unknown ≡ Some (Node.Free kind) → IsApart unknown nodes to → AreSettled nodes self.old.bounds.items self.old.low self.old.floor → AreSettled (slice_set nodes unknown (Node.Link to)) self.new.bounds.items self.new.low self.new.floor }
    {
        if self.is_below(to, unknown) {
            return;
        }
        self.low = lesser(self.low, unknown);
        self.floor = count;
    }
}
