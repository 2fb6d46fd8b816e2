// Equal nodes become one node, from their parts upwards, so that what is shared is compared once.
ghost use Rattle.std.specs.Prelude.{◌≡◌, ℕ, List, true, Option, Some, slice_get};
ghost use Rattle.psc_graph.specs.Tree.{Tree};
ghost use Rattle.psc_graph.specs.Model.{Solves, Follows, Meets};
ghost use Rattle.psc_graph.specs.General.{IsSolution, IsReady};

use crate::links::{find, node_at};
use crate::node::Node;
use crate::work::{is_same_former, is_same_leaf};

fn is_same_place(nodes: &[Node], a: usize, b: usize) -> bool
    ensures { result ≡ true → (v : ℕ → Tree) → Follows v nodes.now → v a ≡ v b }
{
    match (find(nodes, a), find(nodes, b)) {
        (Ok((x, _)), Ok((y, _))) => x == y,
        _ => false,
    }
}

fn are_same_places(nodes: &[Node], a: usize, b: usize, c: usize, d: usize) -> bool
    ensures { result ≡ true → (v : ℕ → Tree) → Follows v nodes.now → (v a ≡ v c) × (v b ≡ v d) }
{
    if !is_same_place(nodes, a, c) {
        return false;
    }
    is_same_place(nodes, b, d)
}

/// Whether two nodes with the same values say the same of them, for all solutions.
fn is_alike(nodes: &[Node], x: Node, y: Node) -> bool
    ensures free { result ≡ true → (k : ℕ) → x ≡ Node.Free k → ⊥ }
    ensures link { result ≡ true → (j : ℕ) → x ≡ Node.Link j → ⊥ }
    ensures alike { result ≡ true → (v : ℕ → Tree) (t : Tree) → Follows v nodes.now → Meets v t y → Meets v t x }
    ensures same { result ≡ true → (v : ℕ → Tree) (s t : Tree) → Follows v nodes.now → Meets v s x → Meets v t y → s ≡ t }
{
    match x {
        Node::Atom(leaf) => {
            let Node::Atom(other) = y else {
                return false;
            };
            is_same_leaf(leaf, other)
        }
        Node::Join(former, left, right) => {
            let Node::Join(other, other_left, other_right) = y else {
                return false;
            };
            if !is_same_former(former, other) {
                return false;
            }
            are_same_places(nodes, left, right, other_left, other_right)
        }
        Node::Field(label, head, rest) => {
            let Node::Field(other, other_head, other_rest) = y else {
                return false;
            };
            if label != other {
                return false;
            }
            are_same_places(nodes, head, rest, other_head, other_rest)
        }
        Node::Free(_) | Node::Link(_) => false,
    }
}

/// Puts one node in the place of another that is alike.
pub fn merge(nodes: &mut [Node], a: usize, b: usize)
    ensures sound { (v : ℕ → Tree) → IsSolution v nodes.new → IsSolution v nodes.old }
    ensures complete { (v : ℕ → Tree) → IsSolution v nodes.old → IsSolution v nodes.new }
    ensures general { (kinds : List (Option ℕ)) → IsReady nodes.old kinds → IsReady nodes.new kinds }
    ensures back { (v : ℕ → Tree) → Solves v nodes.new → Solves v nodes.old }
    ensures unknowns { (k s : ℕ) → slice_get nodes.old k ≡ Some (Node.Free s) → slice_get nodes.new k ≡ Some (Node.Free s) }
{
    let (Some(x), Some(y)) = (node_at(nodes, a), node_at(nodes, b)) else {
        return;
    };
    if a == b || !is_alike(nodes, x, y) {
        return;
    }
    nodes[a] = Node::Link(b);
}
