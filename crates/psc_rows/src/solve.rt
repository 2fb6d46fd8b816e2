// The steps of solving, and the loop over them.
ghost use Rattle.std.specs.Prelude.{◌≡◌, ℕ, ◌<◌, length, List, [], ◌∷◌, OnOk, slice_get, Some, Err};
ghost use Rattle.psc_graph.specs.Tree.{Tree};
ghost use Rattle.psc_graph.specs.Model.{Holds};
ghost use Rattle.psc_graph.specs.General.{IsSolution, IsReady};
ghost use Rattle.psc_rows.specs.Steps.{Steps, AreInside, IsTaskInside};
ghost use Rattle.psc_rows.specs.Writes.{Remembers};

use crate::graph::{Graph, ask};
use crate::rows::relate_rows;
use psc_graph::{
    Former, Leaf, Node, Stop, Task, add, find, is_same_former, is_same_leaf, node_at, take_last,
};
use std::alloc::Global;

/// Two joins are equal where their formers are one and their parts are equal.
fn relate_joins(
    graph: &Graph,
    work: &mut Vec<Task>,
    places: (usize, usize),
    formers: (Former, Former),
    left: (usize, usize),
    right: (usize, usize),
) -> Result<(), Stop>
    requires at_left { slice_get graph.now.nodes.items places.0 ≡ Some (Node.Join formers.0 left.0 left.1) }
    requires at_right { slice_get graph.now.nodes.items places.1 ≡ Some (Node.Join formers.1 right.0 right.1) }
    ensures steps { OnOk result (IsReady graph.now.nodes.items graph.now.kinds.items → AreInside (length graph.now.nodes.items) work.old.items → Steps (λ v. v places.0 ≡ v places.1) graph.now.nodes.items graph.now.nodes.items graph.now.kinds.items work.old.items work.new.items) }
    ensures clash { result ≡ Err Stop.Clash → (v : ℕ → Tree) → IsSolution v graph.now.nodes.items → v places.0 ≡ v places.1 → ⊥ }
{
    if !is_same_former(formers.0, formers.1) {
        return Err(Stop::Clash);
    }
    add(work, Task::Merge(places.0, places.1))?;
    ask(graph, work, left.1, right.1)?;
    ask(graph, work, left.0, right.0)?;
    Ok(())
}

/// Two types without parts are equal where they are one.
fn relate_leaves(graph: &mut Graph, left: usize, right: usize, x: Leaf, y: Leaf) -> Result<(), Stop>
    requires at_left { slice_get graph.old.nodes.items left ≡ Some (Node.Atom x) }
    requires at_right { slice_get graph.old.nodes.items right ≡ Some (Node.Atom y) }
    ensures steps { OnOk result ((work : List Task) → IsReady graph.old.nodes.items graph.old.kinds.items → AreInside (length graph.old.nodes.items) work → Steps (λ v. v left ≡ v right) graph.old.nodes.items graph.new.nodes.items graph.new.kinds.items work work) }
    ensures remembers { OnOk result (Remembers graph.old graph.new) }
    ensures clash { result ≡ Err Stop.Clash → (v : ℕ → Tree) → IsSolution v graph.old.nodes.items → v left ≡ v right → ⊥ }
{
    if !is_same_leaf(x, y) {
        return Err(Stop::Clash);
    }
    match graph.merge(left, right) {
        Ok(()) => Ok(()),
        Err(stop) => Err(stop),
    }
}

/// Solves one equation between two different ends, neither of which is free, or puts equations in
/// its place.
fn relate_formed(
    alloc: Global,
    graph: &mut Graph,
    work: &mut Vec<Task>,
    left: usize,
    right: usize,
    x: Node,
    y: Node,
) -> Result<(), Stop>
    requires at_left { slice_get graph.old.nodes.items left ≡ Some x }
    requires at_right { slice_get graph.old.nodes.items right ≡ Some y }
    requires free { (k : ℕ) → y ≡ Node.Free k → ⊥ }
    requires link { (j : ℕ) → y ≡ Node.Link j → ⊥ }
    ensures steps { OnOk result (IsReady graph.old.nodes.items graph.old.kinds.items → AreInside (length graph.old.nodes.items) work.old.items → Steps (λ v. v left ≡ v right) graph.old.nodes.items graph.new.nodes.items graph.new.kinds.items work.old.items work.new.items) }
    ensures remembers { OnOk result (Remembers graph.old graph.new) }
    ensures clash { result ≡ Err Stop.Clash → (v : ℕ → Tree) → IsSolution v graph.old.nodes.items → v left ≡ v right → ⊥ }
{
    match x {
        Node::Join(former, a, b) => {
            let Node::Join(other, c, d) = y else {
                return Err(Stop::Clash);
            };
            relate_joins(graph, work, (left, right), (former, other), (a, b), (c, d))
        }
        Node::Field(_, _, _) => {
            let Node::Field(_, _, _) = y else {
                return Err(Stop::Clash);
            };
            relate_rows(alloc, graph, work, left, right)
        }
        Node::Atom(leaf) => {
            let Node::Atom(other) = y else {
                return Err(Stop::Clash);
            };
            match relate_leaves(graph, left, right, leaf, other) {
                Ok(()) => Ok(()),
                Err(stop) => Err(stop),
            }
        }
        Node::Free(_) | Node::Link(_) => Err(Stop::Memory),
    }
}

/// Solves one equation between two different ends, of which the left one is not free, or puts equations
/// in its place.
fn relate_solid(
    alloc: Global,
    graph: &mut Graph,
    work: &mut Vec<Task>,
    left: usize,
    right: usize,
    x: Node,
    y: Node,
) -> Result<(), Stop>
    requires at_left { slice_get graph.old.nodes.items left ≡ Some x }
    requires at_right { slice_get graph.old.nodes.items right ≡ Some y }
    requires apart { left ≡ right → ⊥ }
    requires left_ends { (j : ℕ) → x ≡ Node.Link j → ⊥ }
    requires right_ends { (j : ℕ) → y ≡ Node.Link j → ⊥ }
    ensures steps { OnOk result (IsReady graph.old.nodes.items graph.old.kinds.items → AreInside (length graph.old.nodes.items) work.old.items → Steps (λ v. v left ≡ v right) graph.old.nodes.items graph.new.nodes.items graph.new.kinds.items work.old.items work.new.items) }
    ensures remembers { OnOk result (Remembers graph.old graph.new) }
    ensures clash { result ≡ Err Stop.Clash → IsReady graph.old.nodes.items graph.old.kinds.items → (v : ℕ → Tree) → IsSolution v graph.old.nodes.items → v left ≡ v right → ⊥ }
{
    match y {
        Node::Free(kind) => match graph.bind(alloc, right, kind, left, x) {
            Ok(()) => Ok(()),
            Err(stop) => Err(stop),
        },
        _ => relate_formed(alloc, graph, work, left, right, x, y),
    }
}

/// Solves one equation between two ends of links, or puts equations in its place.
fn relate_ends(
    alloc: Global,
    graph: &mut Graph,
    work: &mut Vec<Task>,
    left: usize,
    right: usize,
    x: Node,
    y: Node,
) -> Result<(), Stop>
    requires at_left { slice_get graph.old.nodes.items left ≡ Some x }
    requires at_right { slice_get graph.old.nodes.items right ≡ Some y }
    requires left_ends { (j : ℕ) → x ≡ Node.Link j → ⊥ }
    requires right_ends { (j : ℕ) → y ≡ Node.Link j → ⊥ }
    ensures steps { OnOk result (IsReady graph.old.nodes.items graph.old.kinds.items → AreInside (length graph.old.nodes.items) work.old.items → Steps (λ v. v left ≡ v right) graph.old.nodes.items graph.new.nodes.items graph.new.kinds.items work.old.items work.new.items) }
    ensures remembers { OnOk result (Remembers graph.old graph.new) }
    ensures clash { result ≡ Err Stop.Clash → IsReady graph.old.nodes.items graph.old.kinds.items → (v : ℕ → Tree) → IsSolution v graph.old.nodes.items → v left ≡ v right → ⊥ }
{
    if left == right {
        return Ok(());
    }
    match x {
        Node::Free(kind) => match graph.bind(alloc, left, kind, right, y) {
            Ok(()) => Ok(()),
            Err(stop) => Err(stop),
        },
        _ => relate_solid(alloc, graph, work, left, right, x, y),
    }
}

/// Solves one equation, or puts equations in its place.
fn step(
    alloc: Global,
    graph: &mut Graph,
    work: &mut Vec<Task>,
    a: usize,
    b: usize,
) -> Result<(), Stop>
    ensures steps { OnOk result (IsReady graph.old.nodes.items graph.old.kinds.items → AreInside (length graph.old.nodes.items) work.old.items → Steps (λ v. v a ≡ v b) graph.old.nodes.items graph.new.nodes.items graph.new.kinds.items work.old.items work.new.items) }
    ensures remembers { OnOk result (Remembers graph.old graph.new) }
    ensures clash { result ≡ Err Stop.Clash → IsReady graph.old.nodes.items graph.old.kinds.items → (v : ℕ → Tree) → IsSolution v graph.old.nodes.items → v a ≡ v b → ⊥ }
{
    let (left, x) = find(graph.nodes.as_slice(), a)?;
    let (right, y) = find(graph.nodes.as_slice(), b)?;
    match relate_ends(alloc, graph, work, left, right, x, y) {
        Ok(()) => Ok(()),
        Err(stop) => Err(stop),
    }
}

fn perform(alloc: Global, graph: &mut Graph, work: &mut Vec<Task>, task: Task) -> Result<(), Stop>
    ensures steps { OnOk result (IsReady graph.old.nodes.items graph.old.kinds.items → AreInside (length graph.old.nodes.items) work.old.items → Steps (λ v. Holds v task) graph.old.nodes.items graph.new.nodes.items graph.new.kinds.items work.old.items work.new.items) }
    ensures remembers { OnOk result (Remembers graph.old graph.new) }
    ensures clash { result ≡ Err Stop.Clash → IsReady graph.old.nodes.items graph.old.kinds.items → (v : ℕ → Tree) → IsSolution v graph.old.nodes.items → Holds v task → ⊥ }
{
    match task {
        Task::Equal(a, b) => match step(alloc, graph, work, a, b) {
            Ok(()) => Ok(()),
            Err(stop) => Err(stop),
        },
        Task::Merge(a, b) => match graph.merge(a, b) {
            Ok(()) => Ok(()),
            Err(stop) => Err(stop),
        },
    }
}

/// Lets the links from a place on lead further, so that the next walk over them is shorter.
fn shorten(graph: &mut Graph, at: usize) -> Result<(), Stop>
    ensures steps { OnOk result ((work : List Task) → IsReady graph.old.nodes.items graph.old.kinds.items → AreInside (length graph.old.nodes.items) work → Steps (λ v. Unit {0}) graph.old.nodes.items graph.new.nodes.items graph.new.kinds.items work work) }
    ensures remembers { OnOk result (Remembers graph.old graph.new) }
    ensures clash { result ≡ Err Stop.Clash → ⊥ }
{
    let mut place = at;
    for _ in 0..u64::MAX {
        let Some(Node::Link(to)) = node_at(graph.nodes.as_slice(), place) else {
            return Ok(());
        };
        let Some(Node::Link(_)) = node_at(graph.nodes.as_slice(), to) else {
            return Ok(());
        };
        graph.skip(place)?;
        place = to;
    }
    Err(Stop::Memory)
}

/// Shortens the links from both sides of the task that was added last.
fn shorten_last(graph: &mut Graph, work: &[Task]) -> Result<(), Stop>
    ensures steps { OnOk result ((tasks : List Task) → IsReady graph.old.nodes.items graph.old.kinds.items → AreInside (length graph.old.nodes.items) tasks → Steps (λ v. Unit {0}) graph.old.nodes.items graph.new.nodes.items graph.new.kinds.items tasks tasks) }
    ensures remembers { OnOk result (Remembers graph.old graph.new) }
    ensures clash { result ≡ Err Stop.Clash → ⊥ }
{
    match work.last().copied() {
        Some(Task::Equal(a, b)) => {
            shorten(graph, a)?;
            shorten(graph, b)?;
            Ok(())
        }
        _ => Ok(()),
    }
}

/// Makes two nodes equal, exactly where a solution of the graph does.
pub fn make_equal(alloc: Global, graph: &mut Graph, a: usize, b: usize) -> Result<(), Stop>
    ensures steps { OnOk result (IsReady graph.old.nodes.items graph.old.kinds.items → Steps (λ v. v a ≡ v b) graph.old.nodes.items graph.new.nodes.items graph.new.kinds.items [] []) }
    ensures remembers { OnOk result (Remembers graph.old graph.new) }
    ensures clash { result ≡ Err Stop.Clash → IsReady graph.old.nodes.items graph.old.kinds.items → (v : ℕ → Tree) → IsSolution v graph.old.nodes.items → v a ≡ v b → ⊥ }
{
    let mut work = Vec::new(alloc);
    ask(graph, &mut work, a, b)?;
    for _ in 0..u64::MAX {
        shorten_last(graph, work.as_slice())?;
        let Some(task) = take_last(&mut work) else {
            return Ok(());
        };
        match perform(alloc, graph, &mut work, task) {
            Ok(()) => {}
            Err(stop) => return Err(stop),
        }
    }
    Err(Stop::Memory)
}
