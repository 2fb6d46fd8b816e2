// The walk from a bound unknown over its value.
ghost use Rattle.std.specs.Prelude.{◌≡◌, ℕ, ◌<◌, ◌≤◌, ◌-◌, Bool, true, false, List, [], ◌∷◌, ◌++◌, length, get_or, slice_get, slice_set, OnOk, OnErr, MatchOption, None, Some, Err};
ghost use Rattle.std.specs.BTreeSet.{contains};
ghost use Rattle.std.specs.Ordering.{nat_cmp};
ghost use Rattle.psc_graph.specs.Tree.{Tree};
ghost use Rattle.psc_graph.specs.Model.{Solves};
ghost use Rattle.psc_graph.specs.Explore.{parts_of};
ghost use Rattle.psc_scopes.specs.Scope.{AllRise, AreOpen, HasBeyond, IsGiven, Lies, IsWithin, Extends};
ghost use Rattle.psc_scopes.specs.Keeping.{Keeps, scope_at, IsScope, AreScopes, IsLeft, Narrows, AllKeep, IsNarrowed};
ghost use Rattle.psc_scopes.specs.Walking.{Meeting, Looked, NotedKeep};
ghost use Rattle.psc_scopes.specs.Restoring.{Restores, undone};

use crate::table::ScopeTable;
use psc_graph::{Leaf, Node, Stop, find, is_seen, note, see, take_note};
use std::alloc::Global;
use std::collections::BTreeSet;

/// The scope of each node that is or was an unknown, by place; 0 at every other node. `writes` has the
/// scopes that were narrowed, as they were before.
#[derive(Debug, Drop)]
pub struct Bounds {
    pub scopes: Vec<u64>,
    pub writes: Vec<(usize, u64)>,
}

impl Bounds {
    /// No node has a scope.
    pub fn new(alloc: Global) -> Bounds
        ensures { result.scopes.items ≡ [] }
    {
        Bounds {
            scopes: Vec::new(alloc),
            writes: Vec::new(alloc),
        }
    }

    /// The scope at a place.
    pub fn at(&self, place: usize) -> u64
        ensures { result ≡ get_or self.now.scopes.items place 0 }
    {
        self.scopes.get(place).copied().unwrap_or(0)
    }

    /// Gives the first `count` places a scope, where they have none.
    pub fn cover(&mut self, count: usize) -> Result<(), Stop>
        ensures zeros { OnOk result ((q : ℕ) → scope_at self.new.scopes.items q ≡ scope_at self.old.scopes.items q) }
        ensures longer { OnOk result (length self.old.scopes.items ≤ length self.new.scopes.items) }
        ensures covered { OnOk result (count ≤ length self.new.scopes.items) }
        ensures exact { OnOk result (length self.old.scopes.items ≤ count → length self.new.scopes.items ≡ count) }
        ensures restores { (xs : List ℕ) → Restores self.old xs → Restores self.new xs }
        ensures clash { result ≡ Err Stop.Clash → ⊥ }
    {
        for _place in self.scopes.len()..count {
            self.add_none()?;
        }
        Ok(())
    }

    fn add_none(&mut self) -> Result<(), Stop>
        ensures added { OnOk result (self.new.scopes.items ≡ self.old.scopes.items ++ 0 ∷ []) }
        ensures restores { (xs : List ℕ) → Restores self.old xs → Restores self.new xs }
        ensures clash { result ≡ Err Stop.Clash → ⊥ }
    {
        match self.scopes.push(0) {
            Ok(()) => Ok(()),
            Err(_) => Err(Stop::Memory),
        }
    }

    fn scope_at(&self, place: usize) -> Option<u64>
        ensures { result ≡ slice_get self.now.scopes.items place }
    {
        self.scopes.get(place).copied()
    }

    fn note_write(&mut self, place: usize, old: u64) -> Result<(), Stop>
        ensures scopes { self.new.scopes ≡ self.old.scopes }
        ensures noted { OnOk result (self.new.writes.items ≡ self.old.writes.items ++ (place, old) ∷ []) }
        ensures none { OnErr result (self.new.writes.items ≡ self.old.writes.items) }
        ensures clash { result ≡ Err Stop.Clash → ⊥ }
    {
        match self.writes.push((place, old)) {
            Ok(()) => Ok(()),
            Err(_) => Err(Stop::Memory),
        }
    }

    fn take_write(&mut self) -> Option<(usize, u64)>
        ensures scopes { self.new.scopes ≡ self.old.scopes }
        ensures taken { MatchOption result (self.old.writes.items ≡ []) (λ last. self.old.writes.items ≡ self.new.writes.items ++ last ∷ []) }
        ensures none { result ≡ None → self.new.writes.items ≡ self.old.writes.items }
    {
        self.writes.pop()
    }

    fn write(&mut self, place: usize, scope: u64)
        ensures scopes { self.new.scopes.items ≡ slice_set self.old.scopes.items place scope }
        ensures writes { self.new.writes ≡ self.old.writes }
    {
        if place < self.scopes.len() {
            self.scopes[place] = scope;
        }
    }

    /// Puts a scope at a place.
    pub fn put(&mut self, place: usize, scope: u64) -> Result<(), Stop>
        ensures written { OnOk result (self.new.scopes.items ≡ slice_set self.old.scopes.items place scope) }
        ensures restores { (xs : List ℕ) → Restores self.old xs → Restores self.new xs }
        ensures clash { result ≡ Err Stop.Clash → ⊥ }
    {
        let Some(old) = self.scope_at(place) else {
            return Ok(());
        };
        self.note_write(place, old)?;
        self.write(place, scope);
        Ok(())
    }

    /// Takes back the write that was made last, if there is one.
    fn undo(&mut self)
        ensures same { undone self.new.scopes.items self.new.writes.items ≡ undone self.old.scopes.items self.old.writes.items }
        ensures fewer { length self.new.writes.items ≡ length self.old.writes.items - 1 }
    {
        let Some((place, scope)) = self.take_write() else {
            return;
        };
        self.write(place, scope);
    }

    /// Takes back all writes, and the places past the first `count`.
    pub fn take_back(&mut self, count: usize)
        ensures { (xs : List ℕ) → length xs ≡ count → Restores self.old xs → self.new.scopes.items ≡ xs }
    {
        for _turn in 0..self.writes.as_slice().len() {
            self.undo();
        }
        self.scopes.truncate(count);
    }

    /// Forgets what the scopes were before.
    pub fn keep(&mut self)
        ensures same { self.new.scopes ≡ self.old.scopes }
        ensures restores { Restores self.new self.old.scopes.items }
    {
        self.writes.clear();
    }
}

/// What a walk with one scope has.
#[derive(Drop)]
struct Walk {
    scope: u64,
    seen: BTreeSet<usize>,
    work: Vec<usize>,
}

fn nothing_seen(alloc: Global) -> BTreeSet<usize>
    ensures { (q : ℕ) → contains nat_cmp result q ≡ false }
{
    BTreeSet::new(alloc)
}

/// Narrows the scope of an unknown that is left.
fn narrow_free(
    alloc: Global,
    table: &mut ScopeTable,
    bounds: &mut Bounds,
    scope: u64,
    at: usize,
) -> Result<(), Stop>
    ensures within { OnOk result (at < length bounds.old.scopes.items → IsWithin table.new.lists.items (get_or bounds.new.scopes.items at 0) scope) }
    ensures narrows { OnOk result ((nodes : List Node) → AreScopes table.old.lists.items bounds.old.scopes.items → IsScope table.old.lists.items scope → IsLeft nodes at → Narrows nodes table.old.lists.items table.new.lists.items bounds.old.scopes.items bounds.new.scopes.items) }
    ensures meeting { OnOk result (AreScopes table.old.lists.items bounds.old.scopes.items → IsScope table.old.lists.items scope → Meeting table.new.lists.items scope at bounds.old.scopes.items bounds.new.scopes.items) }
    ensures length { OnOk result (length bounds.new.scopes.items ≡ length bounds.old.scopes.items) }
    ensures kept { OnOk result (Extends table.old.lists.items table.new.lists.items) }
    ensures opened { OnOk result ((n : ℕ) → AreOpen table.old.lists.items n → AreOpen table.new.lists.items n) }
    ensures restores { (xs : List ℕ) → Restores bounds.old xs → Restores bounds.new xs }
    ensures clash { result ≡ Err Stop.Clash → ⊥ }
{
    let old = bounds.at(at);
    if table.is_within(old, scope) {
        return Ok(());
    }
    let both = table.meet(alloc, old, scope)?;
    bounds.put(at, both)?;
    Ok(())
}

/// Looks at the end of one node's links. Clash at a rigid variable that is not in the scope.
fn narrow_end(
    alloc: Global,
    table: &mut ScopeTable,
    bounds: &mut Bounds,
    walk: &mut Walk,
    end: usize,
    node: Node,
) -> Result<(), Stop>
    ensures inside { OnOk result ((r k : ℕ) → node ≡ Node.Atom (Leaf.Rigid r k) → Lies table.old.lists.items walk.old.scope r) }
    ensures narrowed { OnOk result ((k : ℕ) → node ≡ Node.Free k → end < length bounds.old.scopes.items → IsWithin table.new.lists.items (get_or bounds.new.scopes.items end 0) walk.old.scope) }
    ensures narrows { OnOk result ((nodes : List Node) → AreScopes table.old.lists.items bounds.old.scopes.items → IsScope table.old.lists.items walk.old.scope → slice_get nodes end ≡ Some node → Narrows nodes table.old.lists.items table.new.lists.items bounds.old.scopes.items bounds.new.scopes.items) }
    ensures meeting { OnOk result (AreScopes table.old.lists.items bounds.old.scopes.items → IsScope table.old.lists.items walk.old.scope → Meeting table.new.lists.items walk.old.scope end bounds.old.scopes.items bounds.new.scopes.items) }
    ensures length { OnOk result (length bounds.new.scopes.items ≡ length bounds.old.scopes.items) }
    ensures noted { OnOk result (walk.new.work.items ≡ walk.old.work.items ++ parts_of node) }
    ensures seen { walk.new.seen ≡ walk.old.seen }
    ensures clash { result ≡ Err Stop.Clash → (r k : ℕ) × (node ≡ Node.Atom (Leaf.Rigid r k)) × (AllRise table.old.lists.items → Lies table.old.lists.items walk.old.scope r → ⊥) }
    ensures kept { OnOk result (Extends table.old.lists.items table.new.lists.items) }
    ensures opened { OnOk result ((n : ℕ) → AreOpen table.old.lists.items n → AreOpen table.new.lists.items n) }
    ensures scope { walk.new.scope ≡ walk.old.scope }
    ensures restores { (xs : List ℕ) → Restores bounds.old xs → Restores bounds.new xs }
{
    match node {
        Node::Free(_) => {
            narrow_free(alloc, table, bounds, walk.scope, end)?;
            Ok(())
        }
        Node::Atom(leaf) => match leaf {
            Leaf::Rigid(rigid, _) => if table.has(walk.scope, rigid) {
                Ok(())
            } else {
                Err(Stop::Clash)
            },
            Leaf::Constant(_, _) | Leaf::Bound(_) | Leaf::NoArgument => Ok(()),
        },
        Node::Link(_) => Ok(()),
        Node::Join(_, left, right) => {
            note(&mut walk.work, left)?;
            note(&mut walk.work, right)?;
            Ok(())
        }
        Node::Field(_, head, rest) => {
            note(&mut walk.work, head)?;
            note(&mut walk.work, rest)?;
            Ok(())
        }
    }
}

/// Looks at one node. A part that is an unknown with a narrower scope needs no further look, since its
/// own value lies in that scope.
fn narrow_at(
    alloc: Global,
    nodes: &[Node],
    table: &mut ScopeTable,
    bounds: &mut Bounds,
    walk: &mut Walk,
    at: usize,
) -> Result<(), Stop>
    ensures restores { (xs : List ℕ) → Restores bounds.old xs → Restores bounds.new xs }
    ensures kept { OnOk result (Extends table.old.lists.items table.new.lists.items) }
    ensures opened { OnOk result ((n : ℕ) → AreOpen table.old.lists.items n → AreOpen table.new.lists.items n) }
    ensures scope { walk.new.scope ≡ walk.old.scope }
    ensures narrows { OnOk result (AreScopes table.old.lists.items bounds.old.scopes.items → IsScope table.old.lists.items walk.old.scope → Narrows nodes.now table.old.lists.items table.new.lists.items bounds.old.scopes.items bounds.new.scopes.items) }
    ensures length { OnOk result (length bounds.new.scopes.items ≡ length bounds.old.scopes.items) }
    ensures marked { OnOk result ((q : ℕ) → contains nat_cmp walk.old.seen q ≡ true → contains nat_cmp walk.new.seen q ≡ true) }
    ensures looked { OnOk result ((all : List ℕ) → AreScopes table.old.lists.items bounds.old.scopes.items → IsScope table.old.lists.items walk.old.scope → length nodes.now ≤ length bounds.old.scopes.items → all ≡ walk.old.work.items ++ at ∷ [] → Looked nodes.now table.old.lists.items bounds.old.scopes.items walk.old.scope (contains nat_cmp walk.old.seen) all → Looked nodes.now table.new.lists.items bounds.new.scopes.items walk.old.scope (contains nat_cmp walk.new.seen) walk.new.work.items) }
    ensures keeps { OnOk result ((may : ℕ → ℕ → Bool) (v : ℕ → Tree) → AreScopes table.old.lists.items bounds.old.scopes.items → IsScope table.old.lists.items walk.old.scope → Solves v nodes.now → Keeps may (Lies table.old.lists.items walk.old.scope) (v at) → AllKeep may table.old.lists.items bounds.old.scopes.items v → AllKeep may table.new.lists.items bounds.new.scopes.items v) }
    ensures noted { OnOk result ((may : ℕ → ℕ → Bool) (v : ℕ → Tree) → Solves v nodes.now → Keeps may (Lies table.old.lists.items walk.old.scope) (v at) → NotedKeep may table.old.lists.items walk.old.scope v walk.old.work.items → NotedKeep may table.new.lists.items walk.old.scope v walk.new.work.items) }
    ensures escapes { result ≡ Err Stop.Clash → (may : ℕ → ℕ → Bool) (v : ℕ → Tree) → AreScopes table.old.lists.items bounds.old.scopes.items → Solves v nodes.now → Keeps may (Lies table.old.lists.items walk.old.scope) (v at) → ⊥ }
    ensures clash { result ≡ Err Stop.Clash → (n : ℕ) → IsGiven table.old.lists.items walk.old.scope → AreOpen table.old.lists.items n → HasBeyond nodes.now n }
{
    let own = bounds.at(at);
    if own != 0 && table.is_within(own, walk.scope) {
        return Ok(());
    }
    let (end, node) = find(nodes, at)?;
    if is_seen(&walk.seen, end) {
        return Ok(());
    }
    see(&mut walk.seen, end)?;
    narrow_end(alloc, table, bounds, walk, end, node)?;
    Ok(())
}

/// Narrows the unknowns in the value of a bound unknown to its scope. Clash where a rigid variable that
/// is not in the scope stands in the value. For a scope that no call gave, which never comes, it answers want
/// of memory.
pub fn narrow(
    alloc: Global,
    nodes: &[Node],
    table: &mut ScopeTable,
    bounds: &mut Bounds,
    unknown: usize,
) -> Result<(), Stop>
    ensures narrows { OnOk result (AreScopes table.old.lists.items bounds.old.scopes.items → Narrows nodes.now table.old.lists.items table.new.lists.items bounds.old.scopes.items bounds.new.scopes.items) }
    ensures length { OnOk result (length bounds.new.scopes.items ≡ length bounds.old.scopes.items) }
    ensures narrowed { OnOk result (AreScopes table.old.lists.items bounds.old.scopes.items → length nodes.now ≤ length bounds.old.scopes.items → IsNarrowed nodes.now table.new.lists.items bounds.new.scopes.items unknown) }
    ensures keeps { OnOk result ((may : ℕ → ℕ → Bool) (v : ℕ → Tree) → AreScopes table.old.lists.items bounds.old.scopes.items → Solves v nodes.now → AllKeep may table.old.lists.items bounds.old.scopes.items v → AllKeep may table.new.lists.items bounds.new.scopes.items v) }
    ensures escapes { result ≡ Err Stop.Clash → (may : ℕ → ℕ → Bool) (v : ℕ → Tree) → AreScopes table.old.lists.items bounds.old.scopes.items → Solves v nodes.now → AllKeep may table.old.lists.items bounds.old.scopes.items v → ⊥ }
    ensures restores { (xs : List ℕ) → Restores bounds.old xs → Restores bounds.new xs }
    ensures opened { OnOk result ((n : ℕ) → AreOpen table.old.lists.items n → AreOpen table.new.lists.items n) }
    ensures clash { result ≡ Err Stop.Clash → (n : ℕ) → AreOpen table.old.lists.items n → HasBeyond nodes.now n }
{
    let scope = bounds.at(unknown);
    if scope == 0 {
        return Ok(());
    }
    if !table.is_given(scope) {
        return Err(Stop::Memory);
    }
    let (end, node) = find(nodes, unknown)?;
    let mut walk = Walk {
        scope,
        seen: nothing_seen(alloc),
        work: Vec::new(alloc),
    };
    see(&mut walk.seen, end)?;
    narrow_end(alloc, table, bounds, &mut walk, end, node)?;
    for _ in 0..u64::MAX {
        let Some(at) = take_note(&mut walk.work) else {
            return Ok(());
        };
        narrow_at(alloc, nodes, table, bounds, &mut walk, at)?;
    }
    Err(Stop::Memory)
}
