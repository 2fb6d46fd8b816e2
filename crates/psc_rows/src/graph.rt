// A graph of nodes with their kinds, and the nodes that were overwritten.
ghost use Rattle.std.specs.Prelude.{◌≡◌, ℕ, ◌<◌, List, ◌∷◌, ◌++◌, [], length, OnOk, IfOk, true, false, slice_get, Some, Ok, Err};
ghost use Rattle.psc_graph.specs.Tree.{Tree};
ghost use Rattle.psc_graph.specs.Model.{IsInside};
ghost use Rattle.psc_graph.specs.Settled.{IsApart};
ghost use Rattle.psc_graph.specs.General.{Grows, IsReady, IsSolution};
ghost use Rattle.psc_graph.specs.declared.node.Task.{Task};
ghost use Rattle.psc_rows.specs.Steps.{Steps, AreInside};
ghost use Rattle.psc_rows.specs.Bounds.{AreSettled};

use crate::settled::Settled;
use psc_graph::{Node, Stop, Task, add, bind, is_inside, merge, node_at, push_node, skip};
use std::alloc::Global;

/// A node that was overwritten, with its place.
#[derive(Clone, Copy, Debug, PartialEq, Eq)]
pub struct Write {
    pub place: usize,
    pub node: Node,
}

/// Nodes with their kinds, and with bounds of the unknowns that settle their values. A node under a binder
/// has no kind. `writes` has what was overwritten.
#[derive(Debug, Drop)]
pub struct Graph {
    pub nodes: Vec<Node>,
    pub kinds: Vec<Option<u64>>,
    pub writes: Vec<Write>,
    pub settled: Settled,
    ghost bounded: { ∥ AreSettled nodes.items settled.bounds.items settled.low settled.floor ∥₁ },
}

/// Whether the parts of a node are places in the graph.
fn is_inside_graph(nodes: &[Node], node: Node) -> bool
    ensures { result ≡ true → IsInside (length nodes.now) node }
{
    let length = nodes.len();
    match node {
        Node::Free(_) | Node::Atom(_) => true,
        Node::Link(to) => to < length,
        Node::Join(_, left, right) => { if left < length { right < length } else { false } }
        Node::Field(_, head, rest) => { if head < length { rest < length } else { false } }
    }
}

impl Graph {
    ghost use Rattle.psc_rows.specs.Writes.{Remembers};

    /// The graph without nodes.
    pub fn new(alloc: Global) -> Graph
        ensures nodes { result.nodes.items ≡ [] }
        ensures kinds { result.kinds.items ≡ [] }
    {
        Graph {
            nodes: Vec::new(alloc),
            kinds: Vec::new(alloc),
            writes: Vec::new(alloc),
            settled: Settled::new(alloc),
        }
    }

    /// Adds a node at the end, and gives its place. The parts of the node are places in the graph.
    pub fn push(&mut self, node: Node) -> Result<usize, Stop>
        ensures grows { OnOk result (Grows self.old.nodes.items self.new.nodes.items) }
        ensures ready { OnOk result (IsReady self.old.nodes.items self.old.kinds.items → IsReady self.new.nodes.items self.new.kinds.items) }
        ensures place { IfOk result (λ r. slice_get self.new.nodes.items r ≡ Some node) }
        ensures last { IfOk result (λ r. r ≡ length self.old.nodes.items) }
        ensures pushed { OnOk result (self.new.nodes.items ≡ self.old.nodes.items ++ node ∷ []) }
        ensures remembers { OnOk result (Remembers self.old self.new) }
        ensures clash { result ≡ Err Stop.Clash → ⊥ }
    {
        if !is_inside_graph(self.nodes.as_slice(), node) {
            return Err(Stop::Memory);
        }
        match push_node(&mut self.nodes, &mut self.kinds, node) {
            Ok(place) => {
                self.settled.push(place, node);
                Ok(place)
            }
            Err(stop) => {
                self.settled.forget();
                Err(stop)
            }
        }
    }

    /// Remembers the node at a place, which is about to be overwritten.
    pub fn remember(&mut self, place: usize, node: Node) -> Result<(), Stop>
        ensures nodes { self.new.nodes ≡ self.old.nodes }
        ensures kinds { self.new.kinds ≡ self.old.kinds }
        ensures writes { OnOk result (self.new.writes.items ≡ self.old.writes.items ++ (record { place = place; node = node }) ∷ []) }
        ensures remembers { OnOk result (Remembers self.old self.new) }
        ensures clash { result ≡ Err Stop.Clash → ⊥ }
    {
        match self.writes.push(Write { place, node }) {
            Ok(()) => Ok(()),
            Err(_) => Err(Stop::Memory),
        }
    }

    /// Whether an unknown is a part of the value of another node. It is looked for unless the bounds tell
    /// that it is none.
    fn is_part(&self, alloc: Global, unknown: usize, to: usize, node: Node) -> Result<bool, Stop>
        requires target { slice_get self.now.nodes.items to ≡ Some node }
        requires apart { unknown ≡ to → ⊥ }
        requires ends { (j : ℕ) → node ≡ Node.Link j → ⊥ }
        ensures never { result ≡ Ok true → (v : ℕ → Tree) → IsSolution v self.now.nodes.items → v unknown ≡ v to → ⊥ }
        ensures apart { result ≡ Ok false → ∥ IsApart unknown self.now.nodes.items to ∥₁ }
        ensures clash { result ≡ Err Stop.Clash → ⊥ }
    {
        if self.settled.is_below(to, unknown) {
            return Ok(false);
        }
        is_inside(alloc, self.nodes.as_slice(), unknown, to, node)
    }

    /// Links an unknown to another node. Clash where no solution has them equal.
    pub fn bind(
        &mut self,
        alloc: Global,
        unknown: usize,
        kind: u64,
        to: usize,
        node: Node,
    ) -> Result<(), Stop>
        requires free { slice_get self.old.nodes.items unknown ≡ Some (Node.Free kind) }
        requires target { slice_get self.old.nodes.items to ≡ Some node }
        requires apart { unknown ≡ to → ⊥ }
        requires ends { (j : ℕ) → node ≡ Node.Link j → ⊥ }
        ensures steps { OnOk result ((work : List Task) → IsReady self.old.nodes.items self.old.kinds.items → AreInside (length self.old.nodes.items) work → Steps (λ v. v unknown ≡ v to) self.old.nodes.items self.new.nodes.items self.new.kinds.items work work) }
        ensures remembers { OnOk result (Remembers self.old self.new) }
        ensures clash { result ≡ Err Stop.Clash → IsReady self.old.nodes.items self.old.kinds.items → (v : ℕ → Tree) → IsSolution v self.old.nodes.items → v unknown ≡ v to → ⊥ }
    {
        if self.is_part(alloc, unknown, to, node)? {
            return Err(Stop::Clash);
        }
        self.remember(unknown, Node::Free(kind))?;
        let count = self.nodes.as_slice().len();
        match bind(
            self.nodes.as_mut_slice(),
            self.kinds.as_slice(),
            unknown,
            kind,
            to,
        ) {
            Ok(()) => {
                self.settled.link(unknown, to, count);
                Ok(())
            }
            Err(stop) => Err(stop),
        }
    }

    /// Puts one node in the place of another, if they are alike.
    pub fn merge(&mut self, a: usize, b: usize) -> Result<(), Stop>
        ensures steps { OnOk result ((work : List Task) → IsReady self.old.nodes.items self.old.kinds.items → AreInside (length self.old.nodes.items) work → Steps (λ v. Unit {0}) self.old.nodes.items self.new.nodes.items self.new.kinds.items work work) }
        ensures remembers { OnOk result (Remembers self.old self.new) }
        ensures clash { result ≡ Err Stop.Clash → ⊥ }
    {
        let Some(node) = node_at(self.nodes.as_slice(), a) else {
            return Err(Stop::Memory);
        };
        self.remember(a, node)?;
        merge(self.nodes.as_mut_slice(), a, b);
        Ok(())
    }

    /// Lets the link at a place lead on to where the link behind it leads.
    pub fn skip(&mut self, at: usize) -> Result<(), Stop>
        ensures steps { OnOk result ((work : List Task) → IsReady self.old.nodes.items self.old.kinds.items → AreInside (length self.old.nodes.items) work → Steps (λ v. Unit {0}) self.old.nodes.items self.new.nodes.items self.new.kinds.items work work) }
        ensures remembers { OnOk result (Remembers self.old self.new) }
        ensures clash { result ≡ Err Stop.Clash → ⊥ }
    {
        let Some(node) = node_at(self.nodes.as_slice(), at) else {
            return Err(Stop::Memory);
        };
        self.remember(at, node)?;
        skip(self.nodes.as_mut_slice(), at);
        Ok(())
    }

    /// Takes back one write.
    #[tactic(auto, using(crate::proofs::BoundLemmas::none_kept))]
    fn undo(&mut self, write: Write) {
        self.settled.forget();
        if write.place < self.nodes.len() {
            self.nodes[write.place] = write.node;
        }
    }

    /// Takes back all writes since there were so many, and the nodes past the first `length`.
    #[tactic(auto, using(crate::proofs::BoundLemmas::none_kept))]
    pub fn take_back(&mut self, writes: usize, length: usize) {
        for _ in 0..self.writes.len() {
            if self.writes.len() <= writes {
                break;
            }
            let Some(write) = self.writes.pop() else {
                break;
            };
            self.undo(write);
        }
        self.settled.forget();
        self.nodes.truncate(length);
        self.kinds.truncate(length);
    }
}

/// Asks that two nodes be equal.
pub fn ask(graph: &Graph, work: &mut Vec<Task>, left: usize, right: usize) -> Result<(), Stop>
    ensures asked { OnOk result (work.new.items ≡ work.old.items ++ Task.Equal left right ∷ []) }
    ensures inside { OnOk result ((left < length graph.now.nodes.items) × (right < length graph.now.nodes.items)) }
    ensures clash { result ≡ Err Stop.Clash → ⊥ }
{
    if left >= graph.nodes.len() {
        return Err(Stop::Memory);
    }
    if right >= graph.nodes.len() {
        return Err(Stop::Memory);
    }
    add(work, Task::Equal(left, right))
}
