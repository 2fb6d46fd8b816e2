// An unknown is linked to another node, unless that is of another kind.
ghost use Rattle.std.specs.Prelude.{◌≡◌, ◌<◌, ℕ, length, true, false, OnOk, OnErr, slice_get, slice_set, Some, Err, Ok, Option};
ghost use Rattle.psc_graph.specs.Tree.{Tree};
ghost use Rattle.psc_graph.specs.Settled.{IsApart};
ghost use Rattle.psc_graph.specs.General.{IsSolution, IsReady};

use crate::node::{Node, Stop};

/// Whether the node at a place has the kind. A node under a binder has none.
fn has_kind(kinds: &[Option<u64>], at: usize, kind: u64) -> Result<bool, Stop>
    ensures yes { result ≡ Ok true → slice_get kinds.now at ≡ Some (Some kind) }
    ensures no { result ≡ Ok false → (k : Option ℕ) × (slice_get kinds.now at ≡ Some k) × (k ≡ Some kind → ⊥) }
    ensures clash { result ≡ Err Stop.Clash → ⊥ }
{
    match kinds.get(at).copied() {
        None => Err(Stop::Memory),
        Some(None) => Ok(false),
        Some(Some(other)) => Ok(other == kind),
    }
}

/// Links an unknown to another node, of whose value it is no part. Clash where no solution has them
/// equal, since their kinds differ.
pub fn bind(
    nodes: &mut [Node],
    kinds: &[Option<u64>],
    unknown: usize,
    kind: u64,
    to: usize,
) -> Result<(), Stop>
    requires free { slice_get nodes.old unknown ≡ Some (Node.Free kind) }
    requires inside { to < length nodes.old }
    requires apart { ∥ IsApart unknown nodes.old to ∥₁ }
    ensures sound { OnOk result (IsReady nodes.old kinds.now → (v : ℕ → Tree) → IsSolution v nodes.new → IsSolution v nodes.old × (v unknown ≡ v to)) }
    ensures complete { OnOk result ((v : ℕ → Tree) → IsSolution v nodes.old → v unknown ≡ v to → IsSolution v nodes.new) }
    ensures general { OnOk result (IsReady nodes.old kinds.now → IsReady nodes.new kinds.now) }
    ensures clash { result ≡ Err Stop.Clash → IsReady nodes.old kinds.now → (v : ℕ → Tree) → IsSolution v nodes.old → v unknown ≡ v to → ⊥ }
    ensures written { OnOk result (nodes.new ≡ slice_set nodes.old unknown (Node.Link to)) }
    ensures kept { OnErr result (nodes.new ≡ nodes.old) }
{
    if !has_kind(kinds, to, kind)? {
        return Err(Stop::Clash);
    }
    nodes[unknown] = Node::Link(to);
    Ok(())
}
