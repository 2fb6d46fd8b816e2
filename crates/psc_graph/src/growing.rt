// A node is added to the graph, with its kind.
ghost use Rattle.std.specs.Prelude.{◌≡◌, length, OnOk, IfOk, slice_get, Some, None, Err, [], ◌∷◌, ◌++◌, get_or};
ghost use Rattle.psc_graph.specs.Model.{IsInside};
ghost use Rattle.psc_graph.specs.General.{Grows, IsReady, node_kind, leaf_kind, join_kind, row_kind};

use crate::node::{Former, Leaf, Node, Stop};

fn kind_at(kinds: &[Option<u64>], at: usize) -> Option<u64>
    ensures { result ≡ get_or kinds.now at None }
{
    match kinds.get(at) {
        Some(kind) => *kind,
        None => None,
    }
}

fn kind_of_leaf(leaf: Leaf) -> Option<u64>
    ensures { result ≡ leaf_kind leaf }
{
    match leaf {
        Leaf::Rigid(_, kind) => Some(kind),
        Leaf::Constant(_, kind) => Some(kind),
        Leaf::Bound(_) | Leaf::NoArgument => None,
    }
}

fn kind_of_join(former: Former, left: Option<u64>, right: Option<u64>) -> Option<u64>
    ensures { result ≡ join_kind former left right }
{
    match former {
        Former::Forall(_) | Former::Given(_) | Former::Argument => None,
        Former::Apply(kind) => match left {
            None => None,
            Some(_) => match right {
                None => None,
                Some(_) => Some(kind),
            },
        },
    }
}

fn kind_of_row(head: Option<u64>, rest: Option<u64>) -> Option<u64>
    ensures { result ≡ row_kind head rest }
{
    match head {
        None => None,
        Some(_) => match rest {
            None => None,
            Some(kind) => if kind == 0 { Some(0) } else { None },
        },
    }
}

/// The kind that a node has by the kinds of its parts.
pub fn kind_of_node(kinds: &[Option<u64>], node: Node) -> Option<u64>
    ensures { result ≡ node_kind kinds.now node }
{
    match node {
        Node::Free(kind) => Some(kind),
        Node::Link(to) => kind_at(kinds, to),
        Node::Atom(leaf) => kind_of_leaf(leaf),
        Node::Join(former, left, right) => kind_of_join(
            former,
            kind_at(kinds, left),
            kind_at(kinds, right),
        ),
        Node::Field(_, head, rest) => kind_of_row(kind_at(kinds, head), kind_at(kinds, rest)),
    }
}

/// Adds a node at the end, and gives its place.
pub fn push_node(
    nodes: &mut Vec<Node>,
    kinds: &mut Vec<Option<u64>>,
    node: Node,
) -> Result<usize, Stop>
    requires { IsInside (length nodes.old.items) node }
    ensures grows { OnOk result (Grows nodes.old.items nodes.new.items) }
    ensures ready { OnOk result (IsReady nodes.old.items kinds.old.items → IsReady nodes.new.items kinds.new.items) }
    ensures place { IfOk result (λ r. slice_get nodes.new.items r ≡ Some node) }
    ensures last { IfOk result (λ r. r ≡ length nodes.old.items) }
    ensures pushed { OnOk result (nodes.new.items ≡ nodes.old.items ++ node ∷ []) }
    ensures clash { result ≡ Err Stop.Clash → ⊥ }
{
    let place = nodes.as_slice().len();
    let kind = kind_of_node(kinds.as_slice(), node);
    match nodes.push(node) {
        Ok(()) => {}
        Err(_) => return Err(Stop::Memory),
    }
    match kinds.push(kind) {
        Ok(()) => Ok(place),
        Err(_) => Err(Stop::Memory),
    }
}
