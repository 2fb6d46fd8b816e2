// The occurs check: whether an unknown is a part of a node's value. It visits each node once.
ghost use Rattle.std.specs.Prelude.{◌≡◌, ◌<◌, ◌≤◌, ◌+◌, ℕ, true, false, OnOk, IfOk, slice_get, Some, Err, Ok, MatchOption, [], ◌∷◌, ◌++◌, eqb, ◌||◌};
ghost use Rattle.psc_graph.specs.Tree.{Tree, size};
ghost use Rattle.psc_graph.specs.Model.{Solves};
ghost use Rattle.psc_graph.specs.Settled.{IsApart};
ghost use Rattle.psc_graph.specs.Explore.{Visited, AllWithin, parts_of};
ghost use Rattle.std.specs.BTreeSet.{contains};
ghost use Rattle.std.specs.Ordering.{nat_cmp};

use crate::links::find;
use crate::node::{Node, Stop};
use std::alloc::Global;
use std::collections::BTreeSet;

/// Adds a place to a list of them.
pub fn note(work: &mut Vec<usize>, at: usize) -> Result<(), Stop>
    ensures ok { OnOk result (work.new.items ≡ work.old.items ++ at ∷ []) }
    ensures clash { result ≡ Err Stop.Clash → ⊥ }
{
    match work.push(at) {
        Ok(()) => Ok(()),
        Err(_) => Err(Stop::Memory),
    }
}

/// Takes the place that was noted last.
pub fn take_note(work: &mut Vec<usize>) -> Option<usize>
    ensures { MatchOption result (work.old.items ≡ []) (λ last. work.old.items ≡ work.new.items ++ last ∷ []) }
{
    work.pop()
}

/// Whether a place was seen.
pub fn is_seen(seen: &BTreeSet<usize>, at: usize) -> bool
    ensures { result ≡ contains nat_cmp seen.now at }
{
    seen.contains(&at)
}

/// Marks a place as seen.
pub fn see(seen: &mut BTreeSet<usize>, at: usize) -> Result<(), Stop>
    ensures seen { OnOk result ((q : ℕ) → contains nat_cmp seen.new q ≡ (eqb q at || contains nat_cmp seen.old q)) }
    ensures clash { result ≡ Err Stop.Clash → ⊥ }
{
    match seen.insert(at) {
        Ok(_) => Ok(()),
        Err(_) => Err(Stop::Memory),
    }
}

fn note_parts(work: &mut Vec<usize>, node: Node) -> Result<(), Stop>
    ensures ok { OnOk result (work.new.items ≡ work.old.items ++ parts_of node) }
    ensures clash { result ≡ Err Stop.Clash → ⊥ }
{
    match node {
        Node::Join(_, left, right) => {
            note(work, left)?;
            note(work, right)?;
            Ok(())
        }
        Node::Field(_, head, rest) => {
            note(work, head)?;
            note(work, rest)?;
            Ok(())
        }
        Node::Free(_) | Node::Link(_) | Node::Atom(_) => Ok(()),
    }
}

/// Looks at one node: whether it is the unknown `root`. Its parts are noted at its first visit.
fn visit(
    nodes: &[Node],
    root: usize,
    seen: &mut BTreeSet<usize>,
    work: &mut Vec<usize>,
    at: usize,
) -> Result<bool, Stop>
    ensures found { result ≡ Ok true → (v : ℕ → Tree) → Solves v nodes.now → v at ≡ v root }
    ensures visited { result ≡ Ok false → Visited root nodes.now at (contains nat_cmp seen.old) (contains nat_cmp seen.new) work.old.items work.new.items }
    ensures within { result ≡ Ok false → (n : ℕ) (v : ℕ → Tree) → Solves v nodes.now → size (v at) ≤ n → AllWithin v n work.old.items → AllWithin v n work.new.items }
    ensures clash { result ≡ Err Stop.Clash → ⊥ }
{
    let (end, node) = find(nodes, at)?;
    if end == root {
        return Ok(true);
    }
    if is_seen(seen, end) {
        return Ok(false);
    }
    see(seen, end)?;
    note_parts(work, node)?;
    Ok(false)
}

fn nothing_seen(alloc: Global) -> BTreeSet<usize>
    ensures { (q : ℕ) → contains nat_cmp result q ≡ false }
{
    BTreeSet::new(alloc)
}

fn pair(alloc: Global, left: usize, right: usize) -> Result<Vec<usize>, Stop>
    ensures ok { IfOk result (λ w. w.items ≡ left ∷ right ∷ []) }
    ensures clash { result ≡ Err Stop.Clash → ⊥ }
{
    let mut work = Vec::new(alloc);
    note(&mut work, left)?;
    note(&mut work, right)?;
    Ok(work)
}

/// Whether the unknown `root` is a part of one of two values.
fn is_in_either(
    alloc: Global,
    nodes: &[Node],
    root: usize,
    left: usize,
    right: usize,
) -> Result<bool, Stop>
    ensures within { result ≡ Ok true → (v : ℕ → Tree) → Solves v nodes.now → size (v root) ≤ size (v left) + size (v right) }
    ensures apart { result ≡ Ok false → IsApart root nodes.now left × IsApart root nodes.now right }
    ensures clash { result ≡ Err Stop.Clash → ⊥ }
{
    let mut seen = nothing_seen(alloc);
    let mut work = pair(alloc, left, right)?;
    for _ in 0..u64::MAX {
        match take_note(&mut work) {
            None => return Ok(false),
            Some(at) => if visit(nodes, root, &mut seen, &mut work, at)? {
                return Ok(true);
            },
        }
    }
    Err(Stop::Memory)
}

/// Whether the unknown `root` is a part of the value of the node `to`, which it is not itself. If it
/// is, no solution has the two equal.
pub fn is_inside(
    alloc: Global,
    nodes: &[Node],
    root: usize,
    to: usize,
    node: Node,
) -> Result<bool, Stop>
    requires target { slice_get nodes.now to ≡ Some node }
    requires apart { root ≡ to → ⊥ }
    requires ends { (j : ℕ) → node ≡ Node.Link j → ⊥ }
    ensures never { result ≡ Ok true → (v : ℕ → Tree) → Solves v nodes.now → v root ≡ v to → ⊥ }
    ensures apart { result ≡ Ok false → IsApart root nodes.now to }
    ensures clash { result ≡ Err Stop.Clash → ⊥ }
{
    match node {
        Node::Join(_, left, right) => is_in_either(alloc, nodes, root, left, right),
        Node::Field(_, head, rest) => is_in_either(alloc, nodes, root, head, rest),
        _ => Ok(false),
    }
}
