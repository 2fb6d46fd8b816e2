// The nodes of a type. A variable that a `forall` binds is told by how far out its `forall` is.
ghost use Rattle.std.specs.Prelude.{◌≡◌, ℕ, ◌<◌, [], ◌∷◌, ◌++◌, length, OnOk, IfOk, IfSome, IsTrue, slice_get, get_or, Some, None};
ghost use Rattle.psc_graph.specs.General.{IsReady};
ghost use Rattle.psc_rows.specs.Writes.{Remembers};
ghost use Rattle.psc_unify.specs.Meaning.{is_plain};
ghost use Rattle.psc_unify.specs.Naming.{Naming};
ghost use Rattle.psc_unify.specs.Reading.{place_of};
ghost use Rattle.psc_unify.specs.Solved.{Adds, Continues, Means};
ghost use Rattle.psc_unify.specs.Tables.{IsResult};

use crate::kinds::{ROW, STAR};
use crate::names::Constant;
use crate::tables::Names;
use psc_graph::{Former, Leaf, Node};
use psc_rows::Graph;
use psc_text::{Ident, Label, NoMemory, Qualified};
use psc_type::{Kind, Ty};

/// Adds a node.
pub fn push(graph: &mut Graph, node: Node) -> Result<usize, NoMemory>
    ensures adds { OnOk result (Adds graph.old graph.new) }
    ensures remembers { OnOk result (Remembers graph.old graph.new) }
    ensures place { IfOk result (λ r. slice_get graph.new.nodes.items r ≡ Some node) }
    ensures last { IfOk result (λ r. r ≡ length graph.old.nodes.items) }
    ensures pushed { OnOk result (graph.new.nodes.items ≡ graph.old.nodes.items ++ node ∷ []) }
{
    match graph.push(node) {
        Ok(place) => Ok(place),
        Err(_) => Err(NoMemory),
    }
}

/// Adds a constant, which has the kind that is given if it is new.
fn push_constant(
    graph: &mut Graph,
    names: &mut Names,
    constant: Constant,
    kind: u64,
) -> Result<usize, NoMemory>
    ensures adds { OnOk result (Adds graph.old graph.new) }
    ensures remembers { OnOk result (Remembers graph.old graph.new) }
    ensures names { OnOk result (Continues names.old names.new) }
    ensures place { IfOk result (λ r. (i k : ℕ) × (slice_get names.new.constants.rows.items i ≡ Some (constant, k)) × (slice_get graph.new.nodes.items r ≡ Some (Node.Atom (Leaf.Constant i k)))) }
{
    let (number, kind) = names.constant(constant, kind)?;
    let place = push(graph, Node::Atom(Leaf::Constant(number, kind)))?;
    Ok(place)
}

/// Adds a rigid variable, which has the kind of types if it is new.
fn push_rigid(graph: &mut Graph, names: &mut Names, name: &Ident) -> Result<usize, NoMemory>
    ensures adds { OnOk result (Adds graph.old graph.new) }
    ensures remembers { OnOk result (Remembers graph.old graph.new) }
    ensures names { OnOk result (Continues names.old names.new) }
    ensures place { IfOk result (λ r. (i k : ℕ) × (slice_get names.new.rigids.rows.items i ≡ Some (name.now, k)) × (slice_get graph.new.nodes.items r ≡ Some (Node.Atom (Leaf.Rigid i k)))) }
{
    let (number, kind) = names.rigid(name, STAR)?;
    let place = push(graph, Node::Atom(Leaf::Rigid(number, kind)))?;
    Ok(place)
}

/// The place of an unknown: by its number, or downwards from the greatest number for one that the
/// solver made itself.
pub fn known_place(graph: &Graph, unknowns: &[usize], unknown: u64) -> Option<usize>
    ensures inside { IfSome result (λ r. r < length graph.now.nodes.items) }
    ensures known { unknown < length unknowns.now → IfSome result (λ r. slice_get unknowns.now unknown ≡ Some r) }
    ensures place { IfSome result (λ r. r ≡ place_of unknowns.now unknown) }
{
    let place = match unknowns.get(unknown as usize).copied() {
        Some(place) => place,
        None => (u64::MAX - unknown) as usize,
    };
    if place < graph.nodes.len() {
        Some(place)
    } else {
        None
    }
}

/// The place of an unknown. One that is not of this solver gets a node that no value shows.
fn place_in(graph: &mut Graph, unknowns: &[usize], unknown: u64) -> Result<usize, NoMemory>
    ensures adds { OnOk result (Adds graph.old graph.new) }
    ensures remembers { OnOk result (Remembers graph.old graph.new) }
    ensures inside { IfOk result (λ r. r < length graph.new.nodes.items) }
    ensures place { unknown < length unknowns.now → IfOk result (λ r. slice_get unknowns.now unknown ≡ Some r) }
{
    match known_place(graph, unknowns, unknown) {
        Some(place) => Ok(place),
        None => if unknown < unknowns.len() as u64 {
            Err(NoMemory)
        } else {
            push(graph, Node::Free(STAR))
        },
    }
}

/// How many `forall`s further out a variable is bound, where it is.
fn binder_of(binders: &[Ident], name: &Ident) -> Option<u64>
    ensures { binders.now ≡ [] → result ≡ None }
{
    for index in 0..binders.len() {
        if binders[binders.len() - 1 - index].same(name) {
            return Some(index as u64);
        }
    }
    None
}

fn add_variable(
    graph: &mut Graph,
    names: &mut Names,
    binders: &[Ident],
    name: &Ident,
) -> Result<usize, NoMemory>
    ensures adds { OnOk result (Adds graph.old graph.new) }
    ensures remembers { OnOk result (Remembers graph.old graph.new) }
    ensures names { OnOk result (Continues names.old names.new) }
    ensures inside { IfOk result (λ r. r < length graph.new.nodes.items) }
    ensures place { binders.now ≡ [] → IfOk result (λ r. (i k : ℕ) × (slice_get names.new.rigids.rows.items i ≡ Some (name.now, k)) × (slice_get graph.new.nodes.items r ≡ Some (Node.Atom (Leaf.Rigid i k)))) }
{
    match binder_of(binders, name) {
        Some(index) => {
            let place = push(graph, Node::Atom(Leaf::Bound(index)))?;
            Ok(place)
        }
        None => push_rigid(graph, names, name),
    }
}

/// The kind of the node at a place. None where it has none.
pub fn kind_at(graph: &Graph, at: usize) -> Option<u64>
    ensures { result ≡ get_or graph.now.kinds.items at None }
{
    match graph.kinds.as_slice().get(at) {
        Some(kind) => *kind,
        None => None,
    }
}

/// Adds an application, whose kind is what the function's kind gives.
fn push_application(
    graph: &mut Graph,
    names: &Names,
    left: usize,
    right: usize,
) -> Result<usize, NoMemory>
    ensures adds { OnOk result (Adds graph.old graph.new) }
    ensures remembers { OnOk result (Remembers graph.old graph.new) }
    ensures place { IfOk result (λ r. (k : ℕ) × IsResult names.now.kinds.results.items (get_or graph.old.kinds.items left None) k × (slice_get graph.new.nodes.items r ≡ Some (Node.Join (Former.Apply k) left right))) }
{
    let Some(result) = names.kinds.result(kind_at(graph, left)) else {
        return Err(NoMemory);
    };
    let place = push(graph, Node::Join(Former::Apply(result), left, right))?;
    Ok(place)
}

fn push_forall(
    graph: &mut Graph,
    names: &mut Names,
    kind: &Kind,
    body: usize,
) -> Result<usize, NoMemory>
    ensures adds { OnOk result (Adds graph.old graph.new) }
    ensures remembers { OnOk result (Remembers graph.old graph.new) }
    ensures names { OnOk result (Continues names.old names.new) }
    ensures inside { IfOk result (λ r. r < length graph.new.nodes.items) }
{
    let number = names.kind(kind)?;
    let none = push(graph, Node::Atom(Leaf::NoArgument))?;
    let place = push(graph, Node::Join(Former::Forall(number), none, body))?;
    Ok(place)
}

fn push_given(
    graph: &mut Graph,
    names: &mut Names,
    class: &Qualified,
    arguments: usize,
    body: usize,
) -> Result<usize, NoMemory>
    ensures adds { OnOk result (Adds graph.old graph.new) }
    ensures remembers { OnOk result (Remembers graph.old graph.new) }
    ensures names { OnOk result (Continues names.old names.new) }
    ensures inside { IfOk result (λ r. r < length graph.new.nodes.items) }
{
    let number = names.class(class)?;
    let place = push(graph, Node::Join(Former::Given(number), arguments, body))?;
    Ok(place)
}

fn push_any(graph: &mut Graph, names: &mut Names, kind: &Kind) -> Result<usize, NoMemory>
    ensures adds { OnOk result (Adds graph.old graph.new) }
    ensures remembers { OnOk result (Remembers graph.old graph.new) }
    ensures names { OnOk result (Continues names.old names.new) }
    ensures inside { IfOk result (λ r. r < length graph.new.nodes.items) }
{
    let number = names.kind(kind)?;
    let place = push_constant(graph, names, Constant::Any(number), number)?;
    Ok(place)
}

fn push_field(
    graph: &mut Graph,
    names: &mut Names,
    label: &Label,
    head: usize,
    rest: usize,
) -> Result<usize, NoMemory>
    ensures adds { OnOk result (Adds graph.old graph.new) }
    ensures remembers { OnOk result (Remembers graph.old graph.new) }
    ensures names { OnOk result (Continues names.old names.new) }
    ensures place { IfOk result (λ r. (i : ℕ) × (slice_get names.new.labels.rows.items i ≡ Some label.now) × (slice_get graph.new.nodes.items r ≡ Some (Node.Field i head rest))) }
{
    let number = names.label(label)?;
    let place = push(graph, Node::Field(number, head, rest))?;
    Ok(place)
}

/// Adds the nodes of a type under binders, the innermost last, and gives its place.
#[cycle(add)]
pub fn add_type(
    graph: &mut Graph,
    names: &mut Names,
    unknowns: &[usize],
    binders: &mut Vec<Ident>,
    ty: &Ty,
) -> Result<usize, NoMemory>
    ensures adds { OnOk result (Adds graph.old graph.new) }
    ensures remembers { OnOk result (Remembers graph.old graph.new) }
    ensures names { OnOk result (Continues names.old names.new) }
    ensures restored { OnOk result (binders.new.items ≡ binders.old.items) }
    ensures inside { IfOk result (λ r. r < length graph.new.nodes.items) }
    ensures value { IfOk result (λ r. binders.old.items ≡ [] → IsTrue (is_plain (length unknowns.now) ty.now) → IsReady graph.old.nodes.items graph.old.kinds.items → Means names.new graph.new.nodes.items unknowns.now ty.now r) }
{
    match ty {
        Ty::Var(name) => {
            let variable = add_variable(graph, names, binders.as_slice(), name)?;
            Ok(variable)
        }
        Ty::Unknown(number) => {
            let unknown = place_in(graph, unknowns, *number)?;
            Ok(unknown)
        }
        Ty::Con(name) => {
            let constructor = push_constant(graph, names, Constant::Con(name.clone()?), STAR)?;
            Ok(constructor)
        }
        Ty::App(function, argument) => {
            let left = add_type(graph, names, unknowns, binders, function.get())?;
            let right = add_type(graph, names, unknowns, binders, argument.get())?;
            let application = push_application(graph, names, left, right)?;
            Ok(application)
        }
        Ty::Forall(name, kind, body) => {
            binders.push(name.clone()?)?;
            let inner = add_type(graph, names, unknowns, binders, body.get())?;
            binders.pop();
            let forall = push_forall(graph, names, kind, inner)?;
            Ok(forall)
        }
        Ty::Given(constraint, body) => {
            let inner = add_type(graph, names, unknowns, binders, body.get())?;
            let arguments = add_arguments(
                graph,
                names,
                unknowns,
                binders,
                constraint.args.as_slice(),
            )?;
            let given = push_given(graph, names, &constraint.class, arguments, inner)?;
            Ok(given)
        }
        Ty::RowCons(label, head, rest) => {
            let first = add_type(graph, names, unknowns, binders, head.get())?;
            let others = add_type(graph, names, unknowns, binders, rest.get())?;
            let row = push_field(graph, names, label, first, others)?;
            Ok(row)
        }
        Ty::RowNil => {
            let empty = push_constant(graph, names, Constant::EmptyRow, ROW)?;
            Ok(empty)
        }
        Ty::Symbol(text) => {
            let kind = names.kind(&Kind::Sym)?;
            let symbol = push_constant(graph, names, Constant::Symbol(text.clone()?), kind)?;
            Ok(symbol)
        }
        Ty::Any(kind) => {
            let any = push_any(graph, names, kind)?;
            Ok(any)
        }
    }
}

/// Adds the arguments of a constraint.
#[cycle(add)]
fn add_arguments(
    graph: &mut Graph,
    names: &mut Names,
    unknowns: &[usize],
    binders: &mut Vec<Ident>,
    arguments: &[Ty],
) -> Result<usize, NoMemory>
    ensures adds { OnOk result (Adds graph.old graph.new) }
    ensures remembers { OnOk result (Remembers graph.old graph.new) }
    ensures names { OnOk result (Continues names.old names.new) }
    ensures restored { OnOk result (binders.new.items ≡ binders.old.items) }
    ensures inside { IfOk result (λ r. r < length graph.new.nodes.items) }
{
    let mut place = push(graph, Node::Atom(Leaf::NoArgument))?;
    for argument in arguments {
        let head = add_type(graph, names, unknowns, binders, argument)?;
        let next = push(graph, Node::Join(Former::Argument, head, place))?;
        place = next;
    }
    Ok(place)
}
