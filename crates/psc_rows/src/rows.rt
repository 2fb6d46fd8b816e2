// One equation between two rows: tasks for the types of equal labels, and for the tails.
ghost use Rattle.std.specs.Prelude.{◌≡◌, ℕ, ◌<◌, length, List, [], ◌∷◌, ◌++◌, OnOk, IfOk, slice_get, Some, Err, true, false};
ghost use Rattle.psc_graph.specs.Tree.{Tree};
ghost use Rattle.psc_graph.specs.Model.{Solves};
ghost use Rattle.psc_graph.specs.General.{IsSolution, IsReady};
ghost use Rattle.psc_rows.specs.Row.{row_of, Rising, Apart, IsTail, HeadsBelow, tasks_of};
ghost use Rattle.psc_rows.specs.Steps.{Steps, AreInside};
ghost use Rattle.psc_rows.specs.Writes.{Remembers};

use crate::align::{align, sort_fields};
use crate::fields::{Field, Row, are_heads_inside, is_without_fields, push_row, read_row};
use crate::graph::{Graph, ask};
use psc_graph::{Node, Stop, Task, add, node_at};
use std::alloc::Global;

/// The number of the kind of rows.
pub const ROW: u64 = 0;

/// The row that begins at a node, with its fields sorted by label.
fn sorted_row(alloc: Global, nodes: &[Node], at: usize) -> Result<Row, Stop>
    ensures rising { IfOk result (λ r. Rising r.fields.items) }
    ensures tail { IfOk result (λ r. IsTail nodes.now r.tail) }
    ensures value { IfOk result (λ r. (v : ℕ → Tree) → Solves v nodes.now → v at ≡ row_of v r.fields.items (v r.tail)) }
    ensures clash { result ≡ Err Stop.Clash → ⊥ }
{
    let mut row = read_row(alloc, nodes, at)?;
    sort_fields(&mut row.fields)?;
    Ok(row)
}

fn pair_at(pairs: &[(usize, usize)], at: usize) -> Option<(usize, usize)>
    ensures { result ≡ slice_get pairs.now at }
{
    pairs.get(at).copied()
}

/// Asks that the places of each pair be equal.
fn ask_pairs(graph: &Graph, work: &mut Vec<Task>, pairs: &[(usize, usize)]) -> Result<(), Stop>
    ensures asked { OnOk result (work.new.items ≡ work.old.items ++ tasks_of pairs.now) }
    ensures inside { OnOk result (AreInside (length graph.now.nodes.items) (tasks_of pairs.now)) }
    ensures clash { result ≡ Err Stop.Clash → ⊥ }
{
    for index in 0..pairs.len() {
        let Some((left, right)) = pair_at(pairs, index) else {
            return Err(Stop::Memory);
        };
        ask(graph, work, left, right)?;
    }
    Ok(())
}

/// Puts the equations of two rows in the place of the equation between them.
pub fn relate_rows(
    alloc: Global,
    graph: &mut Graph,
    work: &mut Vec<Task>,
    left: usize,
    right: usize,
) -> Result<(), Stop>
    ensures steps { OnOk result (IsReady graph.old.nodes.items graph.old.kinds.items → AreInside (length graph.old.nodes.items) work.old.items → Steps (λ v. v left ≡ v right) graph.old.nodes.items graph.new.nodes.items graph.new.kinds.items work.old.items work.new.items) }
    ensures remembers { OnOk result (Remembers graph.old graph.new) }
    ensures clash { result ≡ Err Stop.Clash → (v : ℕ → Tree) → IsSolution v graph.old.nodes.items → v left ≡ v right → ⊥ }
{
    let one = sorted_row(alloc, graph.nodes.as_slice(), left)?;
    let two = sorted_row(alloc, graph.nodes.as_slice(), right)?;
    let aligned = align(alloc, one.fields.as_slice(), two.fields.as_slice())?;
    add(work, Task::Merge(left, right))?;
    ask_pairs(graph, work, aligned.pairs.as_slice())?;
    match relate_tails(
        graph,
        work,
        aligned.left.as_slice(),
        aligned.right.as_slice(),
        one.tail,
        two.tail,
    ) {
        Ok(()) => Ok(()),
        Err(stop) => Err(stop),
    }
}

/// Whether a tail is an unknown row.
fn is_open(nodes: &[Node], tail: usize) -> bool
    ensures unknown { result ≡ true → slice_get nodes.now tail ≡ Some (Node.Free 0) }
    ensures other { result ≡ false → slice_get nodes.now tail ≡ Some (Node.Free 0) → ⊥ }
{
    match node_at(nodes, tail) {
        Some(Node::Free(kind)) => kind == ROW,
        _ => false,
    }
}

/// Asks that a tail be a row with these fields before the rest.
fn extend_tail(
    graph: &mut Graph,
    work: &mut Vec<Task>,
    tail: usize,
    fields: &[Field],
    rest: usize,
) -> Result<(), Stop>
    requires heads { HeadsBelow (length graph.old.nodes.items) fields.now }
    requires tail_inside { tail < length graph.old.nodes.items }
    requires rest_inside { rest < length graph.old.nodes.items }
    ensures steps { OnOk result (IsReady graph.old.nodes.items graph.old.kinds.items → AreInside (length graph.old.nodes.items) work.old.items → Steps (λ v. v tail ≡ row_of v fields.now (v rest)) graph.old.nodes.items graph.new.nodes.items graph.new.kinds.items work.old.items work.new.items) }
    ensures remembers { OnOk result (Remembers graph.old graph.new) }
    ensures clash { result ≡ Err Stop.Clash → ⊥ }
{
    let row = push_row(graph, fields, rest)?;
    ask(graph, work, tail, row)?;
    Ok(())
}

/// Both tails are unknown: each gets the other's own fields before a new unknown.
fn share_tail(
    graph: &mut Graph,
    work: &mut Vec<Task>,
    one: &[Field],
    two: &[Field],
    left: usize,
    right: usize,
) -> Result<(), Stop>
    requires apart { Apart one.now two.now }
    requires one_heads { HeadsBelow (length graph.old.nodes.items) one.now }
    requires two_heads { HeadsBelow (length graph.old.nodes.items) two.now }
    requires left_open { slice_get graph.old.nodes.items left ≡ Some (Node.Free 0) }
    requires right_inside { right < length graph.old.nodes.items }
    ensures steps { OnOk result (IsReady graph.old.nodes.items graph.old.kinds.items → AreInside (length graph.old.nodes.items) work.old.items → Steps (λ v. row_of v one.now (v left) ≡ row_of v two.now (v right)) graph.old.nodes.items graph.new.nodes.items graph.new.kinds.items work.old.items work.new.items) }
    ensures remembers { OnOk result (Remembers graph.old graph.new) }
    ensures clash { result ≡ Err Stop.Clash → ⊥ }
{
    let rest = graph.push(Node::Free(ROW))?;
    let for_left = push_row(graph, two, rest)?;
    let for_right = push_row(graph, one, rest)?;
    ask(graph, work, right, for_right)?;
    ask(graph, work, left, for_left)?;
    Ok(())
}

/// The tail of each side is what the other side has alone, and a common rest.
fn relate_tails(
    graph: &mut Graph,
    work: &mut Vec<Task>,
    one: &[Field],
    two: &[Field],
    left: usize,
    right: usize,
) -> Result<(), Stop>
    requires apart { Apart one.now two.now }
    requires left_tail { IsTail graph.old.nodes.items left }
    requires right_tail { IsTail graph.old.nodes.items right }
    ensures steps { OnOk result (IsReady graph.old.nodes.items graph.old.kinds.items → AreInside (length graph.old.nodes.items) work.old.items → Steps (λ v. row_of v one.now (v left) ≡ row_of v two.now (v right)) graph.old.nodes.items graph.new.nodes.items graph.new.kinds.items work.old.items work.new.items) }
    ensures remembers { OnOk result (Remembers graph.old graph.new) }
    ensures clash { result ≡ Err Stop.Clash → (v : ℕ → Tree) → IsSolution v graph.old.nodes.items → row_of v one.now (v left) ≡ row_of v two.now (v right) → ⊥ }
{
    if !are_heads_inside(graph.nodes.as_slice(), one) {
        return Err(Stop::Memory);
    }
    if !are_heads_inside(graph.nodes.as_slice(), two) {
        return Err(Stop::Memory);
    }
    if left >= graph.nodes.len() {
        return Err(Stop::Memory);
    }
    if right >= graph.nodes.len() {
        return Err(Stop::Memory);
    }
    if is_without_fields(one) {
        extend_tail(graph, work, left, two, right)?;
        return Ok(());
    }
    if is_without_fields(two) {
        extend_tail(graph, work, right, one, left)?;
        return Ok(());
    }
    if left == right {
        return Err(Stop::Clash);
    }
    if !is_open(graph.nodes.as_slice(), left) {
        return Err(Stop::Clash);
    }
    if !is_open(graph.nodes.as_slice(), right) {
        return Err(Stop::Clash);
    }
    share_tail(graph, work, one, two, left, right)
}
