// What a solver has: the graph, the scopes of its unknowns, and the names of what stands in it.
ghost use Rattle.std.specs.Prelude.{◌≡◌, ℕ, ◌<◌, ◌≤◌, List, [], ◌∷◌, ◌++◌, length, get_or, OnOk, IfOk, IfSome, true, slice_get, slice_set, Some};
ghost use Rattle.psc_scopes.specs.Scope.{Holds, Rises, AllRise, AreOpen, Extends};
ghost use Rattle.psc_unify.specs.Tables.{AreAmong, HasNumbers, AreNumbersOf, IsScopeOf};
ghost use Rattle.psc_type.specs.declared.ty.Ty.{Ty};
ghost use Rattle.psc_unify.specs.Solved.{Stands, Continues};
ghost use Rattle.psc_unify.specs.Reading.{place_of};

use crate::add::{known_place, push};
use crate::kinds::STAR;
use crate::tables::Names;
use psc_graph::{Node, Stop};
use psc_rows::Graph;
use psc_scopes::{Bounds, ScopeTable};
use psc_text::{Ident, NoMemory};
use std::alloc::Global;
use std::collections::BTreeMap;

/// The nodes of a solver. An unknown that a caller asked for goes by its number in `unknowns`, and one
/// that stands for the rest of two rows by the greatest numbers, downwards from its place.
#[derive(Drop)]
pub struct State {
    pub graph: Graph,
    pub scopes: ScopeTable,
    pub bounds: Bounds,
    pub names: Names,
    pub unknowns: Vec<usize>,
    pub numbers: BTreeMap<usize, u64>,
}

/// A refusal of the graph that is no clash is want of memory.
pub fn no_memory(_stop: Stop) -> NoMemory {
    NoMemory
}

/// Whether an unknown of this number is at the place.
fn is_at(unknowns: &[usize], number: u64, place: usize) -> bool
    ensures { result ≡ true → place_of unknowns.now number ≡ place }
{
    match unknowns.get(number as usize).copied() {
        Some(own) => own == place,
        None => false,
    }
}

/// The number of an unknown that the solver made itself.
fn made_number(unknowns: &[usize], place: usize) -> Option<u64>
    ensures { IfSome result (λ number. place_of unknowns.now number ≡ place) }
{
    let number = u64::MAX - place as u64;
    match unknowns.get(number as usize) {
        Some(_) => None,
        None => Some(number),
    }
}

/// Gives the first places a scope, where they have none. What the scopes were before is forgotten.
fn cover_places(bounds: &mut Bounds, count: usize) -> Result<(), NoMemory>
    ensures exact { OnOk result (length bounds.old.scopes.items ≤ count → length bounds.new.scopes.items ≡ count) }
    ensures zeros { OnOk result ((q : ℕ) → get_or bounds.new.scopes.items q 0 ≡ get_or bounds.old.scopes.items q 0) }
{
    bounds.keep();
    match bounds.cover(count) {
        Ok(()) => Ok(()),
        Err(stop) => Err(no_memory(stop)),
    }
}

/// Puts a scope at a place.
fn put_scope(bounds: &mut Bounds, place: usize, scope: u64) -> Result<(), NoMemory>
    ensures { OnOk result (bounds.new.scopes.items ≡ slice_set bounds.old.scopes.items place scope) }
{
    match bounds.put(place, scope) {
        Ok(()) => Ok(()),
        Err(stop) => Err(no_memory(stop)),
    }
}

impl State {
    /// The state without unknowns.
    pub fn new(alloc: Global) -> Result<State, NoMemory>
        ensures stands { IfOk result (λ state. Stands state.graph state.names state.unknowns.items [] []) }
        ensures scopes { IfOk result (λ state. state.scopes.lists.items ≡ []) }
        ensures bounds { IfOk result (λ state. state.bounds.scopes.items ≡ []) }
        ensures nodes { IfOk result (λ state. state.graph.nodes.items ≡ []) }
        ensures unknowns { IfOk result (λ state. state.unknowns.items ≡ []) }
    {
        let names = Names::new(alloc)?;
        let graph = Graph::new(alloc);
        let unknowns = Vec::new(alloc);
        Ok(State {
            graph,
            scopes: ScopeTable::new(alloc),
            bounds: Bounds::new(alloc),
            names,
            unknowns,
            numbers: BTreeMap::new(alloc),
        })
    }

    /// The place of an unknown of this solver.
    pub fn known_place(&self, unknown: u64) -> Option<usize>
        ensures known { unknown < length self.now.unknowns.items → IfSome result (λ place. slice_get self.now.unknowns.items unknown ≡ Some place) }
        ensures place { IfSome result (λ place. place ≡ place_of self.now.unknowns.items unknown) }
    {
        known_place(&self.graph, self.unknowns.as_slice(), unknown)
    }

    /// Adds an unknown, and gives its number.
    pub fn push_unknown(&mut self, kind: u64, scope: u64) -> Result<u64, NoMemory>
        ensures number { IfOk result (λ number. number ≡ length self.old.unknowns.items) }
        ensures names { self.new.names ≡ self.old.names }
        ensures scopes { self.new.scopes ≡ self.old.scopes }
        ensures pushed { OnOk result (self.new.graph.nodes.items ≡ self.old.graph.nodes.items ++ Node.Free kind ∷ []) }
        ensures placed { OnOk result (self.new.unknowns.items ≡ self.old.unknowns.items ++ length self.old.graph.nodes.items ∷ []) }
        ensures scoped { OnOk result (length self.old.bounds.scopes.items ≡ length self.old.graph.nodes.items → self.new.bounds.scopes.items ≡ self.old.bounds.scopes.items ++ scope ∷ []) }
        ensures stands { OnOk result ((kinds : List ℕ) (eqs : List (Ty × Ty)) → Stands self.old.graph self.old.names self.old.unknowns.items kinds eqs → Stands self.new.graph self.new.names self.new.unknowns.items (kinds ++ kind ∷ []) eqs) }
    {
        let place = push(&mut self.graph, Node::Free(kind))?;
        let number = self.unknowns.len() as u64;
        self.unknowns.push(place)?;
        self.numbers.insert(place, number)?;
        cover_places(&mut self.bounds, self.graph.nodes.as_slice().len())?;
        put_scope(&mut self.bounds, place, scope)?;
        Ok(number)
    }

    /// The number of the unknown at a place.
    pub fn number_at(&self, place: usize) -> Option<u64>
        ensures { IfSome result (λ number. place_of self.now.unknowns.items number ≡ place) }
    {
        match self.numbers.get(&place).copied() {
            Some(number) => if is_at(self.unknowns.as_slice(), number, place) {
                Some(number)
            } else {
                None
            },
            None => made_number(self.unknowns.as_slice(), place),
        }
    }
}

fn name_at(names: &[Ident], at: usize) -> Option<&Ident>
    ensures { IfSome result (λ name. slice_get names.now at ≡ Some name.now) }
{
    names.get(at)
}

/// The numbers of rigid variables, in the order of their names.
fn numbers_of(alloc: Global, names: &mut Names, rigid: &[Ident]) -> Result<Vec<u64>, NoMemory>
    ensures names { OnOk result (Continues names.old names.new) }
    ensures numbers { IfOk result (λ list. HasNumbers names.new.rigids.rows.items rigid.now (length rigid.now) list.items) }
    ensures only { IfOk result (λ list. AreNumbersOf names.new.rigids.rows.items rigid.now list.items) }
{
    let mut list = Vec::new(alloc);
    for index in 0..rigid.len() {
        let Some(name) = name_at(rigid, index) else {
            return Err(NoMemory);
        };
        let (number, _) = names.rigid(name, STAR)?;
        list.push(number)?;
    }
    Ok(list)
}

fn sort(list: &mut Vec<u64>) -> Result<(), NoMemory>
    ensures rises { OnOk result (Rises list.new.items) }
    ensures holds { OnOk result ((r : ℕ) → Holds list.old.items r → Holds list.new.items r) }
    ensures only { OnOk result ((r : ℕ) → Holds list.new.items r → Holds list.old.items r) }
{
    list.sort()?;
    Ok(())
}

/// The number of a scope: the one that was used last where it has the same rigid variables.
pub fn scope_number(
    alloc: Global,
    scopes: &mut ScopeTable,
    names: &mut Names,
    rigid: &[Ident],
    last: u64,
) -> Result<u64, NoMemory>
    ensures names { OnOk result (Continues names.old names.new) }
    ensures given { IfOk result (λ scope. IsScopeOf scopes.new.lists.items names.new.rigids.rows.items rigid.now scope) }
    ensures kept { OnOk result (Extends scopes.old.lists.items scopes.new.lists.items) }
    ensures rise { OnOk result (AllRise scopes.old.lists.items → AllRise scopes.new.lists.items) }
    ensures opened { OnOk result (AreOpen scopes.old.lists.items (length names.new.rigids.rows.items) → AreAmong names.new.rigids.rows.items rigid.now → AreOpen scopes.new.lists.items (length names.new.rigids.rows.items)) }
{
    let mut list = numbers_of(alloc, names, rigid)?;
    sort(&mut list)?;
    if scopes.has_exactly(last, list.as_slice()) {
        return Ok(last);
    }
    match scopes.add(list) {
        Ok(number) => Ok(number),
        Err(stop) => Err(no_memory(stop)),
    }
}
