// A link to a link leads on to where that one leads, so that paths of links stay short.
ghost use Rattle.std.specs.Prelude.{◌≡◌, ℕ, List, Option, IfSome, Some, slice_get};
ghost use Rattle.psc_graph.specs.Tree.{Tree};
ghost use Rattle.psc_graph.specs.Model.{Solves};
ghost use Rattle.psc_graph.specs.General.{IsSolution, IsReady};

use crate::links::node_at;
use crate::node::Node;

/// Where the link at a place leads, and where the link there leads.
fn two_links(nodes: &[Node], at: usize) -> Option<(usize, usize)>
    ensures first { IfSome result (λ p. slice_get nodes.now at ≡ Some (Node.Link p.0)) }
    ensures second { IfSome result (λ p. slice_get nodes.now p.0 ≡ Some (Node.Link p.1)) }
{
    match node_at(nodes, at) {
        Some(Node::Link(to)) => match node_at(nodes, to) {
            Some(Node::Link(next)) => Some((to, next)),
            _ => None,
        },
        _ => None,
    }
}

/// Lets the link at a place lead on to where the link behind it leads. Nothing changes where there are
/// no two links.
pub fn skip(nodes: &mut [Node], at: usize)
    ensures sound { (v : ℕ → Tree) → IsSolution v nodes.new → IsSolution v nodes.old }
    ensures complete { (v : ℕ → Tree) → IsSolution v nodes.old → IsSolution v nodes.new }
    ensures general { (kinds : List (Option ℕ)) → IsReady nodes.old kinds → IsReady nodes.new kinds }
    ensures back { (v : ℕ → Tree) → Solves v nodes.new → Solves v nodes.old }
    ensures unknowns { (k s : ℕ) → slice_get nodes.old k ≡ Some (Node.Free s) → slice_get nodes.new k ≡ Some (Node.Free s) }
{
    let Some((to, next)) = two_links(nodes, at) else {
        return;
    };
    if at == to {
        return;
    }
    nodes[at] = Node::Link(next);
}
