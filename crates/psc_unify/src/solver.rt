// The solver's calls. After want of memory it is spent; after a clash it answers that clash.

ghost use Rattle.std.specs.Prelude.{◌≡◌, ℕ, ◌<◌, ◌≤◌, List, [], ◌∷◌, ◌++◌, length, Option, None, Some, OnOk, OnErr, IfOk, IsTrue, Ok, Err, true, false};
ghost use Rattle.psc_type.specs.declared.ty.Ty.{Ty};
ghost use Rattle.psc_unify.specs.Solved.{Stands, HasNone, ArePlain, Continues};
ghost use Rattle.psc_scopes.specs.Scope.{AreOpen};
ghost use Rattle.psc_text.specs.declared.names.Ident.{Ident};
ghost use Rattle.psc_unify.specs.Meaning.{is_plain};
ghost use Rattle.psc_unify.specs.Scoped.{KeepsScopes, HasNoneScoped, HasSome};
ghost use Rattle.psc_unify.specs.Tables.{AreAmong};
ghost use Rattle.psc_unify.specs.Promise.{IsSolved, IsUnsolvable, ArePlainIn, IsValue, HaveRigidsOf, HaveAllRigids, IsScopedSolved, IsScopedUnsolvable, IsSolvable};

use crate::equate::{narrow_bound, relate};
use crate::names::Constant;
use crate::opened::{Opened, has_binder};
use crate::read::Reader;
use crate::state::{State, scope_number};
use crate::tables::Names;
use psc_graph::Stop;
use psc_text::{Ident, NoMemory, Qualified, Text};
use psc_type::{Kind, Scope, Ty};
use std::alloc::Global;

/// A type constructor with its kind.
#[derive(Drop)]
pub struct TypeKind {
    pub name: Qualified,
    pub kind: Kind,
}

/// An equation without a solution: its sides under the most general solution of the equations before
/// it, and whether there is a solution when scopes are ignored.
#[derive(Debug, Drop)]
pub struct Clash {
    pub left: Ty,
    pub right: Ty,
    pub scopes_only: bool,
}

/// Equations between types, with a most general solution of them.
#[derive(Drop)]
pub struct Solver {
    state: State,
    made: u64,
    last_scope: u64,
    clash: Option<Clash>,
    is_spent: bool,
}

/// How an equation ended: with a solution, with none, or with none that keeps to the scopes.
#[derive(Clone, Copy)]
enum Ended {
    Solved,
    Clashed,
    Escaped,
}

/// Gives constructors their numbers and kinds.
fn add_constructors(names: &mut Names, kinds: &[TypeKind]) -> Result<(), NoMemory>
    ensures { OnOk result (Continues names.old names.new) }
{
    for row in kinds {
        let kind = names.kind(&row.kind)?;
        names.constant(Constant::Con(row.name.clone()?), kind)?;
    }
    Ok(())
}

fn copy_clash(clash: &Clash) -> Result<Clash, NoMemory>
    ensures { IfOk result (λ copy. copy ≡ clash.now) }
{
    Ok(Clash {
        left: clash.left.clone()?,
        right: clash.right.clone()?,
        scopes_only: clash.scopes_only,
    })
}

/// Takes an equation back: the nodes past the first `count`, and what was written since.
fn take_back(state: &mut State, count: usize) -> Result<(), NoMemory>
    ensures names { state.new.names ≡ state.old.names }
    ensures before { OnOk result (length state.new.graph.nodes.items ≤ count) }
{
    state.graph.take_back(0, count);
    state.bounds.take_back(count);
    if count < state.graph.nodes.len() {
        return Err(NoMemory);
    }
    Ok(())
}

/// Whether a `forall` stands in one of both types.
fn any_binder(a: &Ty, b: &Ty) -> bool
    ensures { result ≡ true → (n : ℕ) → IsTrue (is_plain n a.now) → IsTrue (is_plain n b.now) → ⊥ }
{
    has_binder(a) || has_binder(b)
}

/// Both types with their binders opened.
fn open_both(alloc: Global, names: &mut Names, a: &Ty, b: &Ty) -> Result<(Ty, Ty), NoMemory>
    ensures { OnOk result (Continues names.old names.new) }
{
    let mut opened = Opened::new(alloc);
    let left = opened.whole(a)?;
    let right = opened.whole(b)?;
    opened.name_all(names)?;
    Ok((left, right))
}

/// Whether both types can be made equal. What was solved is taken back.
fn is_solved(alloc: Global, state: &mut State, a: &Ty, b: &Ty) -> Result<bool, NoMemory>
    ensures names { OnOk result (Continues state.old.names state.new.names) }
    ensures before { OnOk result (length state.new.graph.nodes.items ≤ length state.old.graph.nodes.items) }
{
    let count = state.graph.nodes.len();
    state.graph.writes.clear();
    let solved = relate(
        alloc,
        &mut state.graph,
        &mut state.names,
        state.unknowns.as_slice(),
        a,
        b,
    )?;
    take_back(state, count)?;
    Ok(solved)
}

/// Ends an equation without a solution. It is one of scopes only where binders, compared with rigid
/// variables that any unknown may take, leave one.
fn end_clashed(alloc: Global, state: &mut State, a: &Ty, b: &Ty) -> Result<Ended, NoMemory>
    ensures names { OnOk result (Continues state.old.names state.new.names) }
    ensures before { OnOk result (length state.new.graph.nodes.items ≤ length state.old.graph.nodes.items) }
    ensures unsolved { result ≡ Ok Ended.Solved → ⊥ }
    ensures plain { result ≡ Ok Ended.Escaped → (n : ℕ) → IsTrue (is_plain n a.now) → IsTrue (is_plain n b.now) → ⊥ }
{
    if !any_binder(a, b) {
        return Ok(Ended::Clashed);
    }
    let (left, right) = open_both(alloc, &mut state.names, a, b)?;
    let solved = is_solved(alloc, state, &left, &right)?;
    if solved {
        return Ok(Ended::Escaped);
    }
    Ok(Ended::Clashed)
}

/// Ends an equation that was solved, but in which a rigid variable left its scope.
fn end_escaped(state: &mut State, count: usize) -> Result<Ended, NoMemory>
    ensures names { state.new.names ≡ state.old.names }
    ensures before { OnOk result (length state.new.graph.nodes.items ≤ count) }
    ensures escaped { IfOk result (λ ended. ended ≡ Ended.Escaped) }
{
    take_back(state, count)?;
    Ok(Ended::Escaped)
}

/// Adds an equation. After a clash the state is as it was before.
fn add_equation(alloc: Global, state: &mut State, a: &Ty, b: &Ty) -> Result<Ended, NoMemory>
    ensures solved { result ≡ Ok Ended.Solved → ArePlain state.old.unknowns.items a.now b.now → (kinds : List ℕ) (eqs : List (Ty × Ty)) → Stands state.old.graph state.old.names state.old.unknowns.items kinds eqs → Stands state.new.graph state.new.names state.new.unknowns.items kinds ((a.now, b.now) ∷ eqs) }
    ensures clash { result ≡ Ok Ended.Clashed → ArePlain state.old.unknowns.items a.now b.now → (kinds : List ℕ) (eqs : List (Ty × Ty)) → Stands state.old.graph state.old.names state.old.unknowns.items kinds eqs → HasNone state.new.names kinds ((a.now, b.now) ∷ eqs) }
    ensures scoped { result ≡ Ok Ended.Solved → ArePlain state.old.unknowns.items a.now b.now → (kinds : List ℕ) (scopes : List (List Ident)) (eqs : List (Ty × Ty)) → Stands state.old.graph state.old.names state.old.unknowns.items kinds eqs → KeepsScopes state.old.graph state.old.names state.old.scopes.lists.items state.old.bounds.scopes.items state.old.unknowns.items scopes → KeepsScopes state.new.graph state.new.names state.new.scopes.lists.items state.new.bounds.scopes.items state.new.unknowns.items scopes }
    ensures refused { result ≡ Ok Ended.Escaped → ArePlain state.old.unknowns.items a.now b.now → (kinds : List ℕ) (scopes : List (List Ident)) (eqs : List (Ty × Ty)) → Stands state.old.graph state.old.names state.old.unknowns.items kinds eqs → KeepsScopes state.old.graph state.old.names state.old.scopes.lists.items state.old.bounds.scopes.items state.old.unknowns.items scopes → HasNoneScoped state.new.names kinds scopes ((a.now, b.now) ∷ eqs) }
    ensures ignored { result ≡ Ok Ended.Escaped → ArePlain state.old.unknowns.items a.now b.now → (kinds : List ℕ) (eqs : List (Ty × Ty)) → Stands state.old.graph state.old.names state.old.unknowns.items kinds eqs → HasSome state.new.names kinds ((a.now, b.now) ∷ eqs) }
    ensures opened { result ≡ Ok Ended.Solved → (n : ℕ) → AreOpen state.old.scopes.lists.items n → AreOpen state.new.scopes.lists.items n }
    ensures plain { result ≡ Ok Ended.Escaped → ArePlain state.old.unknowns.items a.now b.now → AreOpen state.old.scopes.lists.items (length state.new.names.rigids.rows.items) → ⊥ }
    ensures clash_before { result ≡ Ok Ended.Clashed → length state.new.graph.nodes.items ≤ length state.old.graph.nodes.items }
    ensures escape_before { result ≡ Ok Ended.Escaped → length state.new.graph.nodes.items ≤ length state.old.graph.nodes.items }
{
    let count = state.graph.nodes.len();
    state.graph.writes.clear();
    state.bounds.keep();
    let solved = relate(
        alloc,
        &mut state.graph,
        &mut state.names,
        state.unknowns.as_slice(),
        a,
        b,
    )?;
    if !solved {
        take_back(state, count)?;
        let ended = end_clashed(alloc, state, a, b)?;
        return Ok(ended);
    }
    let known = state.names.rigids.rows.len() as u64;
    match narrow_bound(
        alloc,
        &state.graph,
        known,
        &mut state.scopes,
        &mut state.bounds,
    ) {
        Ok(()) => Ok(Ended::Solved),
        Err(Stop::Clash) => end_escaped(state, count),
        Err(Stop::Memory) => Err(NoMemory),
    }
}

fn clash_of(
    alloc: Global,
    state: &State,
    a: &Ty,
    b: &Ty,
    scopes_only: bool,
) -> Result<Clash, NoMemory>
    ensures { IfOk result (λ clash. clash.scopes_only ≡ scopes_only) }
{
    let mut reader = Reader::new(alloc);
    let left = reader.apply(alloc, state, a)?;
    let right = reader.apply(alloc, state, b)?;
    Ok(Clash {
        left,
        right,
        scopes_only,
    })
}

impl Solver {
    /// A solver without equations, over constructors of these kinds. A constructor that is not among
    /// them has the kind `Type`.
    pub fn start(alloc: Global, kinds: &[TypeKind]) -> Result<Solver, NoMemory>
        ensures solved { IfOk result (λ solver. IsSolved solver [] []) }
        ensures scoped { IfOk result (λ solver. IsScopedSolved solver [] [] []) }
        ensures opened { IfOk result (λ solver. HaveAllRigids solver) }
    {
        let mut state = State::new(alloc)?;
        add_constructors(&mut state.names, kinds)?;
        Ok(Solver {
            state,
            made: 0,
            last_scope: 0,
            clash: None,
            is_spent: false,
        })
    }

    /// A new rigid variable, whose name is the given one, `$` and the number of rigid variables before
    /// it. After want of memory here, in `fresh` or in `equate`, every call answers it.
    pub fn rigid(&mut self, alloc: Global, name: &Ident, kind: Kind) -> Result<Ident, NoMemory>
        ensures solved { OnOk result ((kinds : List ℕ) (eqs : List (Ty × Ty)) → IsSolved self.old kinds eqs → IsSolved self.new kinds eqs) }
        ensures scoped { OnOk result ((kinds : List ℕ) (scopes : List (List Ident)) (eqs : List (Ty × Ty)) → IsScopedSolved self.old kinds scopes eqs → IsScopedSolved self.new kinds scopes eqs) }
        ensures scopes { self.new.state.scopes ≡ self.old.state.scopes }
        ensures stays { self.new.clash ≡ self.old.clash }
        ensures spent { self.old.is_spent ≡ true → (self.new.is_spent ≡ true) × OnOk result ⊥ }
        ensures spends { OnErr result (self.new.is_spent ≡ true) }
    {
        if self.is_spent {
            return Err(NoMemory);
        }
        self.is_spent = true;
        let before = self.made;
        let text = format!(in alloc; "{}${}", name.0.as_str(), before)?;
        let made = Ident(Text::from_string(text)?);
        let kind = self.state.names.kind(&kind)?;
        self.state.names.rigid(&made, kind)?;
        self.made = before.saturating_add(1);
        self.is_spent = false;
        Ok(made)
    }

    /// A new unknown of a kind, in whose value the rigid variables of the scope may stand. The numbers
    /// of unknowns count from 0.
    pub fn fresh(&mut self, alloc: Global, kind: Kind, scope: &Scope) -> Result<u64, NoMemory>
        ensures number { IfOk result (λ number. (kinds : List ℕ) (eqs : List (Ty × Ty)) → IsSolved self.old kinds eqs → number ≡ length kinds) }
        ensures solved { OnOk result ((kinds : List ℕ) (eqs : List (Ty × Ty)) → IsSolved self.old kinds eqs → (k : ℕ) × IsSolved self.new (kinds ++ k ∷ []) eqs) }
        ensures scoped { OnOk result ((kinds : List ℕ) (scopes : List (List Ident)) (eqs : List (Ty × Ty)) → IsScopedSolved self.old kinds scopes eqs → (k : ℕ) × IsScopedSolved self.new (kinds ++ k ∷ []) (scopes ++ scope.now.rigid ∷ []) eqs) }
        ensures opened { OnOk result (HaveRigidsOf self.old self.new → AreAmong self.new.state.names.rigids.rows.items scope.now.rigid → HaveAllRigids self.new) }
        ensures stays { self.new.clash ≡ self.old.clash }
        ensures spent { self.old.is_spent ≡ true → (self.new.is_spent ≡ true) × OnOk result ⊥ }
        ensures spends { OnErr result (self.new.is_spent ≡ true) }
    {
        if self.is_spent {
            return Err(NoMemory);
        }
        self.is_spent = true;
        let kind = self.state.names.kind(&kind)?;
        let bound = scope_number(
            alloc,
            &mut self.state.scopes,
            &mut self.state.names,
            scope.rigid.as_slice(),
            self.last_scope,
        )?;
        self.last_scope = bound;
        let number = self.state.push_unknown(kind, bound)?;
        self.is_spent = false;
        Ok(number)
    }

    /// Keeps a clash, which every further equation is answered.
    fn refuse(
        &mut self,
        alloc: Global,
        a: &Ty,
        b: &Ty,
        scopes_only: bool,
    ) -> Result<Clash, NoMemory>
        ensures clash { IfOk result (λ clash. clash.scopes_only ≡ scopes_only) }
        ensures state { self.new.state ≡ self.old.state }
        ensures kept { IfOk result (λ clash. self.new.clash ≡ Some clash) }
        ensures spent { self.new.is_spent ≡ self.old.is_spent }
    {
        let clash = clash_of(alloc, &self.state, a, b, scopes_only)?;
        let copy = copy_clash(&clash)?;
        self.clash = Some(clash);
        Ok(copy)
    }

    fn try_equate(&mut self, alloc: Global, a: &Ty, b: &Ty) -> Result<Result<(), Clash>, NoMemory>
        ensures solved { result ≡ Ok (Ok tt) → ArePlainIn self.old a.now b.now → (kinds : List ℕ) (eqs : List (Ty × Ty)) → IsSolved self.old kinds eqs → IsSolved self.new kinds ((a.now, b.now) ∷ eqs) }
        ensures clash { (clash : Clash) → result ≡ Ok (Err clash) → clash.scopes_only ≡ false → ArePlainIn self.old a.now b.now → (kinds : List ℕ) (eqs : List (Ty × Ty)) → IsSolved self.old kinds eqs → IsUnsolvable self.new kinds ((a.now, b.now) ∷ eqs) }
        ensures scoped { result ≡ Ok (Ok tt) → ArePlainIn self.old a.now b.now → (kinds : List ℕ) (scopes : List (List Ident)) (eqs : List (Ty × Ty)) → IsScopedSolved self.old kinds scopes eqs → IsScopedSolved self.new kinds scopes ((a.now, b.now) ∷ eqs) }
        ensures refused { (clash : Clash) → result ≡ Ok (Err clash) → ArePlainIn self.old a.now b.now → (kinds : List ℕ) (scopes : List (List Ident)) (eqs : List (Ty × Ty)) → IsScopedSolved self.old kinds scopes eqs → IsScopedUnsolvable self.new kinds scopes ((a.now, b.now) ∷ eqs) }
        ensures ignored { (clash : Clash) → result ≡ Ok (Err clash) → clash.scopes_only ≡ true → ArePlainIn self.old a.now b.now → (kinds : List ℕ) (eqs : List (Ty × Ty)) → IsSolved self.old kinds eqs → IsSolvable self.new kinds ((a.now, b.now) ∷ eqs) }
        ensures opened { result ≡ Ok (Ok tt) → (n : ℕ) → AreOpen self.old.state.scopes.lists.items n → AreOpen self.new.state.scopes.lists.items n }
        ensures plain { (clash : Clash) → result ≡ Ok (Err clash) → self.old.clash ≡ None → ArePlainIn self.old a.now b.now → HaveRigidsOf self.old self.new → clash.scopes_only ≡ false }
        ensures stays { (clash : Clash) → self.old.clash ≡ Some clash → (self.new.clash ≡ Some clash) × IfOk result (λ r. r ≡ Err clash) }
        ensures kept { (clash : Clash) → result ≡ Ok (Err clash) → self.new.clash ≡ Some clash }
        ensures before { (clash : Clash) → result ≡ Ok (Err clash) → length self.new.state.graph.nodes.items ≤ length self.old.state.graph.nodes.items }
        ensures spent { self.new.is_spent ≡ self.old.is_spent }
    {
        if let Some(clash) = &self.clash {
            let copy = copy_clash(clash)?;
            return Ok(Err(copy));
        }
        let ended = add_equation(alloc, &mut self.state, a, b)?;
        match ended {
            Ended::Solved => Ok(Ok(())),
            Ended::Clashed => {
                let clash = self.refuse(alloc, a, b, false)?;
                Ok(Err(clash))
            }
            Ended::Escaped => {
                let escape = self.refuse(alloc, a, b, true)?;
                Ok(Err(escape))
            }
        }
    }

    /// Adds an equation. Clash where the equations so far have no solution with it; the values are then
    /// those of the equations before, and each further call answers that clash.
    pub fn equate(&mut self, alloc: Global, a: &Ty, b: &Ty) -> Result<Result<(), Clash>, NoMemory>
        ensures solved { result ≡ Ok (Ok tt) → ArePlainIn self.old a.now b.now → (kinds : List ℕ) (eqs : List (Ty × Ty)) → IsSolved self.old kinds eqs → IsSolved self.new kinds ((a.now, b.now) ∷ eqs) }
        ensures clash { (clash : Clash) → result ≡ Ok (Err clash) → clash.scopes_only ≡ false → ArePlainIn self.old a.now b.now → (kinds : List ℕ) (eqs : List (Ty × Ty)) → IsSolved self.old kinds eqs → IsUnsolvable self.new kinds ((a.now, b.now) ∷ eqs) }
        ensures scoped { result ≡ Ok (Ok tt) → ArePlainIn self.old a.now b.now → (kinds : List ℕ) (scopes : List (List Ident)) (eqs : List (Ty × Ty)) → IsScopedSolved self.old kinds scopes eqs → IsScopedSolved self.new kinds scopes ((a.now, b.now) ∷ eqs) }
        ensures refused { (clash : Clash) → result ≡ Ok (Err clash) → ArePlainIn self.old a.now b.now → (kinds : List ℕ) (scopes : List (List Ident)) (eqs : List (Ty × Ty)) → IsScopedSolved self.old kinds scopes eqs → IsScopedUnsolvable self.new kinds scopes ((a.now, b.now) ∷ eqs) }
        ensures ignored { (clash : Clash) → result ≡ Ok (Err clash) → clash.scopes_only ≡ true → ArePlainIn self.old a.now b.now → (kinds : List ℕ) (eqs : List (Ty × Ty)) → IsSolved self.old kinds eqs → IsSolvable self.new kinds ((a.now, b.now) ∷ eqs) }
        ensures opened { result ≡ Ok (Ok tt) → HaveRigidsOf self.old self.new → HaveAllRigids self.new }
        ensures plain { (clash : Clash) → result ≡ Ok (Err clash) → self.old.clash ≡ None → ArePlainIn self.old a.now b.now → HaveRigidsOf self.old self.new → clash.scopes_only ≡ false }
        ensures stays { (clash : Clash) → self.old.clash ≡ Some clash → (self.new.clash ≡ Some clash) × IfOk result (λ r. r ≡ Err clash) }
        ensures kept { (clash : Clash) → result ≡ Ok (Err clash) → self.new.clash ≡ Some clash }
        ensures spent { self.old.is_spent ≡ true → (self.new.is_spent ≡ true) × OnOk result ⊥ }
        ensures spends { OnErr result (self.new.is_spent ≡ true) }
        ensures before { (clash : Clash) → result ≡ Ok (Err clash) → length self.new.state.graph.nodes.items ≤ length self.old.state.graph.nodes.items }
    {
        if self.is_spent {
            return Err(NoMemory);
        }
        self.is_spent = true;
        let answer = self.try_equate(alloc, a, b)?;
        self.is_spent = false;
        Ok(answer)
    }

    /// The value of an unknown in a most general solution of the equations so far. For an unknown that
    /// is not of this solver it answers want of memory.
    pub fn value(&self, alloc: Global, unknown: u64) -> Result<Ty, NoMemory>
        ensures value { IfOk result (λ ty. (kinds : List ℕ) (eqs : List (Ty × Ty)) → IsSolved self.now kinds eqs → unknown < length kinds → IsValue self.now unknown ty) }
        ensures spent { self.now.is_spent ≡ true → OnOk result ⊥ }
    {
        if self.is_spent {
            return Err(NoMemory);
        }
        let Some(place) = self.state.known_place(unknown) else {
            return Err(NoMemory);
        };
        let mut reader = Reader::new(alloc);
        let ty = reader.read(alloc, &self.state, place)?;
        Ok(ty)
    }
}
