// The node that stands for another: the end of its links.
ghost use Rattle.std.specs.Prelude.{◌≡◌, ℕ, IfOk, slice_get, Some, Err};
ghost use Rattle.psc_graph.specs.Tree.{Tree};
ghost use Rattle.psc_graph.specs.Model.{Solves, Follows};

use crate::node::{Node, Stop};

/// The node at a place.
pub fn node_at(nodes: &[Node], at: usize) -> Option<Node>
    ensures { result ≡ slice_get nodes.now at }
{
    nodes.get(at).copied()
}

/// The node that the links from here lead to, with its place. Memory where there is no such node.
pub fn find(nodes: &[Node], at: usize) -> Result<(usize, Node), Stop>
    ensures node { IfOk result (λ r. slice_get nodes.now r.0 ≡ Some r.1) }
    ensures same { IfOk result (λ r. (v : ℕ → Tree) → Solves v nodes.now → v at ≡ v r.0) }
    ensures linked { IfOk result (λ r. (v : ℕ → Tree) → Follows v nodes.now → v at ≡ v r.0) }
    ensures ends { IfOk result (λ r. (j : ℕ) → r.1 ≡ Node.Link j → ⊥) }
    ensures clash { (result ≡ Err Stop.Clash) → ⊥ }
{
    let mut at = at;
    for _ in 0..u64::MAX {
        match node_at(nodes, at) {
            None => return Err(Stop::Memory),
            Some(Node::Link(to)) => at = to,
            Some(other) => return Ok((at, other)),
        }
    }
    Err(Stop::Memory)
}
