// One equation: its nodes are made equal, and then the scopes of what was bound are looked at.
ghost use Rattle.std.specs.Prelude.{◌≡◌, ℕ, ◌<◌, ◌≤◌, Bool, List, ◌∷◌, length, OnOk, Ok, Err, Some, true, false, slice_get};
ghost use Rattle.psc_graph.specs.Tree.{Tree};
ghost use Rattle.psc_graph.specs.Model.{Solves};
ghost use Rattle.psc_type.specs.declared.ty.Ty.{Ty};
ghost use Rattle.psc_rows.specs.Writes.{Remembers};
ghost use Rattle.psc_scopes.specs.Scope.{AreOpen, HasBeyond};
ghost use Rattle.psc_scopes.specs.Keeping.{AreScopes, Narrows, AllKeep, IsNarrowed};
ghost use Rattle.psc_unify.specs.Solved.{Stands, HasNone, ArePlain, Continues};
ghost use Rattle.psc_unify.specs.Scoped.{AreNarrowed, GoesOn};

use crate::add::add_type;
use crate::tables::Names;
use psc_graph::{Leaf, Node, Stop, node_at};
use psc_rows::{Graph, Write, make_equal};
use psc_scopes::{Bounds, ScopeTable, narrow};
use psc_text::NoMemory;
use psc_type::Ty;
use std::alloc::Global;

/// Adds the nodes of both sides and makes them equal, with scopes left aside. False where no solution
/// of the equations so far does.
pub fn relate(
    alloc: Global,
    graph: &mut Graph,
    names: &mut Names,
    unknowns: &[usize],
    a: &Ty,
    b: &Ty,
) -> Result<bool, NoMemory>
    ensures solved { result ≡ Ok true → ArePlain unknowns.now a.now b.now → (kinds : List ℕ) (eqs : List (Ty × Ty)) → Stands graph.old names.old unknowns.now kinds eqs → Stands graph.new names.new unknowns.now kinds ((a.now, b.now) ∷ eqs) }
    ensures clash { result ≡ Ok false → ArePlain unknowns.now a.now b.now → (kinds : List ℕ) (eqs : List (Ty × Ty)) → Stands graph.old names.old unknowns.now kinds eqs → HasNone names.new kinds ((a.now, b.now) ∷ eqs) }
    ensures goes_on { result ≡ Ok true → ArePlain unknowns.now a.now b.now → (kinds : List ℕ) (eqs : List (Ty × Ty)) → Stands graph.old names.old unknowns.now kinds eqs → GoesOn graph.old graph.new }
    ensures names { OnOk result (Continues names.old names.new) }
    ensures remembers { result ≡ Ok true → Remembers graph.old graph.new }
{
    let mut binders = Vec::new(alloc);
    let left = add_type(graph, names, unknowns, &mut binders, a)?;
    let right = add_type(graph, names, unknowns, &mut binders, b)?;
    match make_equal(alloc, graph, left, right) {
        Ok(()) => Ok(true),
        Err(stop) => match stop {
            Stop::Clash => Ok(false),
            Stop::Memory => Err(NoMemory),
        },
    }
}

fn write_at(writes: &[Write], at: usize) -> Option<Write>
    ensures { result ≡ slice_get writes.now at }
{
    writes.get(at).copied()
}

/// Narrows the unknowns in the value of what was an unknown before it was overwritten.
fn narrow_write(
    alloc: Global,
    nodes: &[Node],
    write: Write,
    scopes: &mut ScopeTable,
    bounds: &mut Bounds,
) -> Result<(), Stop>
    ensures opened { OnOk result ((n : ℕ) → AreOpen scopes.old.lists.items n → AreOpen scopes.new.lists.items n) }
    ensures clash { result ≡ Err Stop.Clash → (n : ℕ) → AreOpen scopes.old.lists.items n → HasBeyond nodes.now n }
    ensures narrows { OnOk result (AreScopes scopes.old.lists.items bounds.old.scopes.items → Narrows nodes.now scopes.old.lists.items scopes.new.lists.items bounds.old.scopes.items bounds.new.scopes.items) }
    ensures length { OnOk result (length bounds.new.scopes.items ≡ length bounds.old.scopes.items) }
    ensures narrowed { (s : ℕ) → write.node ≡ Node.Free s → OnOk result (AreScopes scopes.old.lists.items bounds.old.scopes.items → length nodes.now ≤ length bounds.old.scopes.items → IsNarrowed nodes.now scopes.new.lists.items bounds.new.scopes.items write.place) }
    ensures keeps { OnOk result ((may : ℕ → ℕ → Bool) (v : ℕ → Tree) → AreScopes scopes.old.lists.items bounds.old.scopes.items → Solves v nodes.now → AllKeep may scopes.old.lists.items bounds.old.scopes.items v → AllKeep may scopes.new.lists.items bounds.new.scopes.items v) }
    ensures escapes { result ≡ Err Stop.Clash → (may : ℕ → ℕ → Bool) (v : ℕ → Tree) → AreScopes scopes.old.lists.items bounds.old.scopes.items → Solves v nodes.now → AllKeep may scopes.old.lists.items bounds.old.scopes.items v → ⊥ }
{
    match write.node {
        Node::Free(_) => narrow(alloc, nodes, scopes, bounds, write.place),
        Node::Link(_) | Node::Atom(_) | Node::Join(_, _, _) | Node::Field(_, _, _) => Ok(()),
    }
}

/// Narrows the unknowns in the values of all that were unknowns before they were overwritten.
fn narrow_writes(
    alloc: Global,
    nodes: &[Node],
    writes: &[Write],
    scopes: &mut ScopeTable,
    bounds: &mut Bounds,
) -> Result<(), Stop>
    ensures opened { OnOk result ((n : ℕ) → AreOpen scopes.old.lists.items n → AreOpen scopes.new.lists.items n) }
    ensures clash { result ≡ Err Stop.Clash → (n : ℕ) → AreOpen scopes.old.lists.items n → HasBeyond nodes.now n }
    ensures narrows { OnOk result (AreScopes scopes.old.lists.items bounds.old.scopes.items → Narrows nodes.now scopes.old.lists.items scopes.new.lists.items bounds.old.scopes.items bounds.new.scopes.items) }
    ensures length { OnOk result (length bounds.new.scopes.items ≡ length bounds.old.scopes.items) }
    ensures narrowed { OnOk result (AreScopes scopes.old.lists.items bounds.old.scopes.items → length nodes.now ≤ length bounds.old.scopes.items → AreNarrowed nodes.now scopes.new.lists.items bounds.new.scopes.items writes.now (length writes.now)) }
    ensures keeps { OnOk result ((may : ℕ → ℕ → Bool) (v : ℕ → Tree) → AreScopes scopes.old.lists.items bounds.old.scopes.items → Solves v nodes.now → AllKeep may scopes.old.lists.items bounds.old.scopes.items v → AllKeep may scopes.new.lists.items bounds.new.scopes.items v) }
    ensures escapes { result ≡ Err Stop.Clash → (may : ℕ → ℕ → Bool) (v : ℕ → Tree) → AreScopes scopes.old.lists.items bounds.old.scopes.items → Solves v nodes.now → AllKeep may scopes.old.lists.items bounds.old.scopes.items v → ⊥ }
{
    for index in 0..writes.len() {
        let Some(write) = write_at(writes, index) else {
            return Err(Stop::Memory);
        };
        match narrow_write(alloc, nodes, write, scopes, bounds) {
            Ok(()) => {}
            Err(stop) => return Err(stop),
        }
    }
    Ok(())
}

/// Narrows the unknowns in the values of the unknowns that were bound. Clash where a rigid variable
/// stands outside of its scope.
fn narrow_written(
    alloc: Global,
    graph: &Graph,
    scopes: &mut ScopeTable,
    bounds: &mut Bounds,
) -> Result<(), Stop>
    ensures opened { OnOk result ((n : ℕ) → AreOpen scopes.old.lists.items n → AreOpen scopes.new.lists.items n) }
    ensures clash { result ≡ Err Stop.Clash → (n : ℕ) → AreOpen scopes.old.lists.items n → HasBeyond graph.now.nodes.items n }
    ensures narrows { OnOk result (AreScopes scopes.old.lists.items bounds.old.scopes.items → Narrows graph.now.nodes.items scopes.old.lists.items scopes.new.lists.items bounds.old.scopes.items bounds.new.scopes.items) }
    ensures covers { OnOk result (length bounds.old.scopes.items ≤ length graph.now.nodes.items → length bounds.new.scopes.items ≡ length graph.now.nodes.items) }
    ensures narrowed { OnOk result (AreScopes scopes.old.lists.items bounds.old.scopes.items → AreNarrowed graph.now.nodes.items scopes.new.lists.items bounds.new.scopes.items graph.now.writes.items (length graph.now.writes.items)) }
    ensures keeps { OnOk result ((may : ℕ → ℕ → Bool) (v : ℕ → Tree) → AreScopes scopes.old.lists.items bounds.old.scopes.items → Solves v graph.now.nodes.items → AllKeep may scopes.old.lists.items bounds.old.scopes.items v → AllKeep may scopes.new.lists.items bounds.new.scopes.items v) }
    ensures escapes { result ≡ Err Stop.Clash → (may : ℕ → ℕ → Bool) (v : ℕ → Tree) → AreScopes scopes.old.lists.items bounds.old.scopes.items → Solves v graph.now.nodes.items → AllKeep may scopes.old.lists.items bounds.old.scopes.items v → ⊥ }
{
    let nodes = graph.nodes.as_slice();
    match bounds.cover(nodes.len()) {
        Ok(()) => {}
        Err(_) => return Err(Stop::Memory),
    }
    narrow_writes(alloc, nodes, graph.writes.as_slice(), scopes, bounds)
}

/// Whether the node is no rigid variable, or one of the first `count`.
fn is_numbered(node: Node, count: u64) -> bool
    ensures { result ≡ true → (r k : ℕ) → node ≡ Node.Atom (Leaf.Rigid r k) → r < count }
{
    match node {
        Node::Atom(leaf) => match leaf {
            Leaf::Rigid(rigid, _) => rigid < count,
            Leaf::Constant(_, _) | Leaf::Bound(_) | Leaf::NoArgument => true,
        },
        Node::Free(_) | Node::Link(_) | Node::Join(_, _, _) | Node::Field(_, _, _) => true,
    }
}

/// Whether each rigid variable among the nodes is one of the first `count`.
fn are_numbered(nodes: &[Node], count: u64) -> bool
    ensures { result ≡ true → (place r k : ℕ) → slice_get nodes.now place ≡ Some (Node.Atom (Leaf.Rigid r k)) → r < count }
{
    for index in 0..nodes.len() {
        let Some(node) = node_at(nodes, index) else {
            return false;
        };
        if !is_numbered(node, count) {
            return false;
        }
    }
    true
}

/// Narrows the unknowns in the values of the unknowns that were bound. Clash where a rigid variable
/// stands outside of its scope. `count` is how many rigid variables have numbers: a node that is none of
/// them, which never comes, is answered as want of memory.
pub fn narrow_bound(
    alloc: Global,
    graph: &Graph,
    count: u64,
    scopes: &mut ScopeTable,
    bounds: &mut Bounds,
) -> Result<(), Stop>
    ensures opened { OnOk result ((n : ℕ) → AreOpen scopes.old.lists.items n → AreOpen scopes.new.lists.items n) }
    ensures clash { result ≡ Err Stop.Clash → AreOpen scopes.old.lists.items count → ⊥ }
    ensures narrows { OnOk result (AreScopes scopes.old.lists.items bounds.old.scopes.items → Narrows graph.now.nodes.items scopes.old.lists.items scopes.new.lists.items bounds.old.scopes.items bounds.new.scopes.items) }
    ensures covers { OnOk result (length bounds.old.scopes.items ≤ length graph.now.nodes.items → length bounds.new.scopes.items ≡ length graph.now.nodes.items) }
    ensures narrowed { OnOk result (AreScopes scopes.old.lists.items bounds.old.scopes.items → AreNarrowed graph.now.nodes.items scopes.new.lists.items bounds.new.scopes.items graph.now.writes.items (length graph.now.writes.items)) }
    ensures keeps { OnOk result ((may : ℕ → ℕ → Bool) (v : ℕ → Tree) → AreScopes scopes.old.lists.items bounds.old.scopes.items → Solves v graph.now.nodes.items → AllKeep may scopes.old.lists.items bounds.old.scopes.items v → AllKeep may scopes.new.lists.items bounds.new.scopes.items v) }
    ensures escapes { result ≡ Err Stop.Clash → (may : ℕ → ℕ → Bool) (v : ℕ → Tree) → AreScopes scopes.old.lists.items bounds.old.scopes.items → Solves v graph.now.nodes.items → AllKeep may scopes.old.lists.items bounds.old.scopes.items v → ⊥ }
{
    match narrow_written(alloc, graph, scopes, bounds) {
        Ok(()) => Ok(()),
        Err(stop) => match stop {
            Stop::Clash => if are_numbered(graph.nodes.as_slice(), count) {
                Err(Stop::Clash)
            } else {
                Err(Stop::Memory)
            },
            Stop::Memory => Err(Stop::Memory),
        },
    }
}
