// Types read back from the graph. What is shared in the graph is shared in the type. Values have no
// binders, so the refusals of nodes that stand under binders alone never come.
ghost use Rattle.std.specs.Prelude.{◌≡◌, ◌<◌, length, OnOk, IfOk, slice_get, Some, true};
ghost use Rattle.psc_graph.specs.General.{IsReady};
ghost use Rattle.psc_type.specs.declared.ty.Ty.{Ty};
ghost use Rattle.psc_unify.specs.declared.state.State.{State};
ghost use Rattle.psc_unify.specs.Reading.{Reads, AllRead, IsLeafOf, IsJoinOf, IsFieldOf};

use crate::add::kind_at;
use crate::names::Constant;
use crate::state::{State, no_memory};
use psc_graph::{Former, Leaf, Node, find, node_at};
use psc_items::{Shared, SharedItems};
use psc_text::NoMemory;
use psc_type::{Constraint, Ty};
use std::alloc::Global;
use std::collections::BTreeMap;

/// A node that is to be looked at, or whose parts are read.
#[derive(Clone, Copy)]
enum Visit {
    Enter(usize),
    Leave(usize),
}

/// The types that were read, by place.
#[derive(Drop)]
pub struct Reader {
    done: BTreeMap<usize, Shared<Ty>>,
}

fn read_constant(state: &State, number: u64, kind: u64) -> Result<Ty, NoMemory>
    ensures { IfOk result (λ ty. IsLeafOf state.now ty (Leaf.Constant number kind)) }
{
    let Some(row) = state.names.constants.get(number) else {
        return Err(NoMemory);
    };
    if row.1 != kind {
        return Err(NoMemory);
    }
    match &row.0 {
        Constant::Con(name) => Ok(Ty::Con(name.clone()?)),
        Constant::Symbol(text) => Ok(Ty::Symbol(text.clone()?)),
        Constant::EmptyRow => Ok(Ty::RowNil),
        Constant::Any(kind) => {
            let Some(kind) = state.names.kinds.kind(*kind) else {
                return Err(NoMemory);
            };
            Ok(Ty::Any(kind.clone()?))
        }
    }
}

fn read_rigid(state: &State, number: u64, kind: u64) -> Result<Ty, NoMemory>
    ensures { IfOk result (λ ty. IsLeafOf state.now ty (Leaf.Rigid number kind)) }
{
    let Some(row) = state.names.rigids.get(number) else {
        return Err(NoMemory);
    };
    if row.1 != kind {
        return Err(NoMemory);
    }
    Ok(Ty::Var(row.0.clone()?))
}

/// The type of a leaf. Values have no bound variable and no argument list.
fn read_leaf(state: &State, leaf: Leaf) -> Result<Ty, NoMemory>
    ensures { IfOk result (λ ty. IsLeafOf state.now ty leaf) }
{
    match leaf {
        Leaf::Rigid(number, kind) => read_rigid(state, number, kind),
        Leaf::Constant(number, kind) => read_constant(state, number, kind),
        Leaf::Bound(_) | Leaf::NoArgument => Err(NoMemory),
    }
}

/// The node that a place's links lead to, with its place.
fn end_of(state: &State, at: usize) -> Result<(usize, Node), NoMemory>
    ensures node { IfOk result (λ r. slice_get state.now.graph.nodes.items r.0 ≡ Some r.1) }
    ensures same { IfOk result (λ r. (ty : Ty) → Reads state.now ty r.0 → Reads state.now ty at) }
{
    match find(state.graph.nodes.as_slice(), at) {
        Ok(end) => Ok(end),
        Err(stop) => Err(no_memory(stop)),
    }
}

fn read_unknown(state: &State, place: usize) -> Result<Ty, NoMemory>
    ensures { IfOk result (λ ty. Reads state.now ty place) }
{
    match state.number_at(place) {
        Some(number) => Ok(Ty::Unknown(number)),
        None => Err(NoMemory),
    }
}

/// Whether the place is one of a node.
fn is_node(state: &State, at: usize) -> bool
    ensures { result ≡ true → at < length state.now.graph.nodes.items }
{
    match node_at(state.graph.nodes.as_slice(), at) {
        Some(_) => true,
        None => false,
    }
}

/// The application of what was read. Its kind is that which its head's kind gives.
fn read_join(
    state: &State,
    former: Former,
    left: usize,
    one: Shared<Ty>,
    two: Shared<Ty>,
) -> Result<Ty, NoMemory>
    ensures { IfOk result (λ ty. IsJoinOf state.now ty former left one two) }
{
    let Former::Apply(kind) = former else {
        return Err(NoMemory);
    };
    if !is_node(state, left) {
        return Err(NoMemory);
    }
    match state.names.kinds.result(kind_at(&state.graph, left)) {
        Some(result) => if result == kind {
            Ok(Ty::App(one, two))
        } else {
            Err(NoMemory)
        },
        None => Err(NoMemory),
    }
}

fn read_field(state: &State, label: u64, one: Shared<Ty>, two: Shared<Ty>) -> Result<Ty, NoMemory>
    ensures { IfOk result (λ ty. IsFieldOf state.now ty label one two) }
{
    match state.names.labels.get(label) {
        Some(name) => Ok(Ty::RowCons(name.clone()?, one, two)),
        None => Err(NoMemory),
    }
}

impl Reader {
    pub fn new(alloc: Global) -> Reader
        ensures { (state : State) → AllRead state result }
    {
        Reader {
            done: BTreeMap::new(alloc),
        }
    }

    fn keep(&mut self, alloc: Global, place: usize, ty: Ty) -> Result<(), NoMemory>
        ensures { OnOk result ((state : State) → Reads state ty place → AllRead state self.old → AllRead state self.new) }
    {
        self.done.insert(place, Shared::new(alloc, ty)?)?;
        Ok(())
    }

    /// What was read at the end of a place's links.
    fn part(&self, state: &State, at: usize) -> Result<Shared<Ty>, NoMemory>
        ensures { IfOk result (λ ty. AllRead state.now self.now → Reads state.now ty at) }
    {
        let (end, _) = end_of(state, at)?;
        match self.done.get(&end) {
            Some(ty) => {
                let copy = ty.clone()?;
                Ok(copy)
            }
            None => Err(NoMemory),
        }
    }

    fn enter(
        &mut self,
        alloc: Global,
        state: &State,
        work: &mut Vec<Visit>,
        at: usize,
    ) -> Result<(), NoMemory>
        ensures { OnOk result (AllRead state.now self.old → AllRead state.now self.new) }
    {
        let (end, node) = end_of(state, at)?;
        if self.done.contains_key(&end) {
            return Ok(());
        }
        match node {
            Node::Free(_) => {
                let ty = read_unknown(state, end)?;
                self.keep(alloc, end, ty)?;
                Ok(())
            }
            Node::Link(_) => Err(NoMemory),
            Node::Atom(leaf) => {
                let atom = read_leaf(state, leaf)?;
                self.keep(alloc, end, atom)?;
                Ok(())
            }
            Node::Join(_, left, right) | Node::Field(_, left, right) => {
                work.push(Visit::Leave(end))?;
                work.push(Visit::Enter(right))?;
                work.push(Visit::Enter(left))?;
                Ok(())
            }
        }
    }

    /// Puts the type of a node together, whose parts were read.
    fn leave(&mut self, alloc: Global, state: &State, at: usize) -> Result<(), NoMemory>
        ensures { OnOk result (IsReady state.now.graph.nodes.items state.now.graph.kinds.items → AllRead state.now self.old → AllRead state.now self.new) }
    {
        let Some(node) = node_at(state.graph.nodes.as_slice(), at) else {
            return Err(NoMemory);
        };
        match node {
            Node::Field(label, left, right) => {
                let one = self.part(state, left)?;
                let two = self.part(state, right)?;
                let row = read_field(state, label, one, two)?;
                self.keep(alloc, at, row)?;
                Ok(())
            }
            Node::Join(former, left, right) => {
                let head = self.part(state, left)?;
                let argument = self.part(state, right)?;
                let application = read_join(state, former, left, head, argument)?;
                self.keep(alloc, at, application)?;
                Ok(())
            }
            Node::Free(_) | Node::Link(_) | Node::Atom(_) => Err(NoMemory),
        }
    }

    fn visit(
        &mut self,
        alloc: Global,
        state: &State,
        work: &mut Vec<Visit>,
        visit: Visit,
    ) -> Result<(), NoMemory>
        ensures { OnOk result (IsReady state.now.graph.nodes.items state.now.graph.kinds.items → AllRead state.now self.old → AllRead state.now self.new) }
    {
        match visit {
            Visit::Enter(place) => {
                self.enter(alloc, state, work, place)?;
                Ok(())
            }
            Visit::Leave(place) => {
                self.leave(alloc, state, place)?;
                Ok(())
            }
        }
    }

    /// The type at a place.
    pub fn read(&mut self, alloc: Global, state: &State, at: usize) -> Result<Ty, NoMemory>
        ensures { IfOk result (λ ty. IsReady state.now.graph.nodes.items state.now.graph.kinds.items → AllRead state.now self.old → Reads state.now ty at) }
    {
        let mut work = Vec::new(alloc);
        work.push(Visit::Enter(at))?;
        for _ in 0..u64::MAX {
            let Some(visit) = work.pop() else {
                let ty = self.part(state, at)?;
                let copy = ty.get().clone()?;
                return Ok(copy);
            };
            self.visit(alloc, state, &mut work, visit)?;
        }
        Err(NoMemory)
    }

    /// A type with the values of its unknowns.
    #[cycle(apply)]
    pub fn apply(&mut self, alloc: Global, state: &State, ty: &Ty) -> Result<Ty, NoMemory> {
        match ty {
            Ty::Unknown(number) => match state.known_place(*number) {
                Some(place) => self.read(alloc, state, place),
                None => Ok(Ty::Unknown(*number)),
            },
            Ty::App(function, argument) => {
                let left = self.apply_shared(alloc, state, function.get())?;
                let right = self.apply_shared(alloc, state, argument.get())?;
                Ok(Ty::App(left, right))
            }
            Ty::Forall(name, kind, body) => {
                let body = self.apply_shared(alloc, state, body.get())?;
                Ok(Ty::Forall(name.clone()?, kind.clone()?, body))
            }
            Ty::Given(constraint, body) => {
                let constraint = self.apply_constraint(alloc, state, constraint)?;
                let body = self.apply_shared(alloc, state, body.get())?;
                Ok(Ty::Given(constraint, body))
            }
            Ty::RowCons(label, head, rest) => {
                let head = self.apply_shared(alloc, state, head.get())?;
                let rest = self.apply_shared(alloc, state, rest.get())?;
                Ok(Ty::RowCons(label.clone()?, head, rest))
            }
            Ty::Var(_) | Ty::Con(_) | Ty::RowNil | Ty::Symbol(_) | Ty::Any(_) => Ok(ty.clone()?),
        }
    }

    #[cycle(apply)]
    fn apply_shared(
        &mut self,
        alloc: Global,
        state: &State,
        ty: &Ty,
    ) -> Result<Shared<Ty>, NoMemory> {
        let value = self.apply(alloc, state, ty)?;
        Ok(Shared::new(alloc, value)?)
    }

    #[cycle(apply)]
    fn apply_constraint(
        &mut self,
        alloc: Global,
        state: &State,
        constraint: &Constraint,
    ) -> Result<Constraint, NoMemory> {
        let mut args = Vec::new(alloc);
        for argument in constraint.args.as_slice() {
            args.push(self.apply(alloc, state, argument)?)?;
        }
        Ok(Constraint {
            class: constraint.class.clone()?,
            args: SharedItems::from_vec(alloc, args)?,
        })
    }
}
