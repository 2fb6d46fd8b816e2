// Scopes by number. Number 0 is the scope that no call has given yet: every rigid variable.
ghost use Rattle.std.specs.Prelude.{◌≡◌, ℕ, ◌-◌, ◌<◌, ◌∷◌, ◌++◌, [], true, false, length, OnOk, IfOk, IfSome, Err, None, Some, slice_get, IsTrue, ◌↔◌};
ghost use Rattle.psc_scopes.specs.Scope.{Holds, HoldsBelow, Rises, AllRise, AreOpen, IsGiven, IsGivenAs, Lies, IsWithin, Extends};
ghost use Rattle.psc_scopes.specs.Keeping.{IsScope};

use psc_graph::Stop;
use std::alloc::Global;

/// Lists of rigid variables, ascending. The list at a place is the scope of the next number.
#[derive(Debug, Drop)]
pub struct ScopeTable {
    pub lists: Vec<Vec<u64>>,
}

/// Whether a rigid variable is in a list, which does not fall.
fn is_in(list: &[u64], rigid: u64) -> bool
    ensures yes { result ≡ true → Holds list.now rigid }
    ensures no { result ≡ false → Rises list.now → Holds list.now rigid → ⊥ }
{
    list.binary_search(&rigid).is_ok()
}

fn rigid_at(list: &[u64], at: usize) -> Option<u64>
    ensures { result ≡ slice_get list.now at }
{
    list.get(at).copied()
}

fn keep(list: &mut Vec<u64>, rigid: u64) -> Result<(), Stop>
    ensures ok { OnOk result (list.new.items ≡ list.old.items ++ rigid ∷ []) }
    ensures clash { result ≡ Err Stop.Clash → ⊥ }
{
    match list.push(rigid) {
        Ok(()) => Ok(()),
        Err(_) => Err(Stop::Memory),
    }
}

fn is_same_list(list: &[u64], other: &[u64]) -> bool
    ensures { IsTrue result ↔ (list.now ≡ other.now) }
{
    list == other
}

/// What lies in both lists.
fn keep_common(alloc: Global, left: &[u64], right: &[u64]) -> Result<Vec<u64>, Stop>
    ensures left { IfOk result (λ list. (r : ℕ) → Holds list.items r → Holds left.now r) }
    ensures right { IfOk result (λ list. (r : ℕ) → Holds list.items r → Holds right.now r) }
    ensures rises { IfOk result (λ list. Rises left.now → Rises list.items) }
    ensures common { IfOk result (λ list. (r : ℕ) → Rises right.now → Holds left.now r → Holds right.now r → Holds list.items r) }
    ensures both { IfOk result (λ list. (n : ℕ) → Rises right.now → HoldsBelow left.now n → HoldsBelow right.now n → HoldsBelow list.items n) }
    ensures clash { result ≡ Err Stop.Clash → ⊥ }
{
    let mut common = Vec::new(alloc);
    for index in 0..left.len() {
        let Some(rigid) = rigid_at(left, index) else {
            return Err(Stop::Memory);
        };
        if is_in(right, rigid) {
            keep(&mut common, rigid)?;
        }
    }
    Ok(common)
}

/// Whether each rigid variable of a list is in another one.
fn are_in(list: &[u64], other: &[u64]) -> bool
    ensures { result ≡ true → (r : ℕ) → Holds list.now r → Holds other.now r }
{
    for index in 0..list.len() {
        let Some(rigid) = rigid_at(list, index) else {
            return false;
        };
        if !is_in(other, rigid) {
            return false;
        }
    }
    true
}

impl ScopeTable {
    /// The table with the scope 0 alone.
    pub fn new(alloc: Global) -> ScopeTable
        ensures { result.lists.items ≡ [] }
    {
        ScopeTable {
            lists: Vec::new(alloc),
        }
    }

    /// The rigid variables of a scope. None at 0, and at a number that was not given.
    fn list(&self, scope: u64) -> Option<&Vec<u64>>
        ensures list { IfSome result (λ list. slice_get self.now.lists.items (scope - 1) ≡ Some list.now) }
        ensures none { result ≡ None → (scope ≡ 0 → ⊥) → slice_get self.now.lists.items (scope - 1) ≡ None }
        ensures given { IfSome result (λ list. scope ≡ 0 → ⊥) }
    {
        if scope == 0 {
            return None;
        }
        self.lists.get((scope - 1) as usize)
    }

    /// Whether a call gave the scope. The scope 0 is given by none.
    pub fn is_given(&self, scope: u64) -> bool
        ensures { result ≡ true → IsGiven self.now.lists.items scope }
    {
        match self.list(scope) {
            Some(_) => true,
            None => false,
        }
    }

    fn push_list(&mut self, list: Vec<u64>) -> Result<(), Stop>
        ensures pushed { OnOk result (self.new.lists.items ≡ self.old.lists.items ++ list ∷ []) }
        ensures clash { result ≡ Err Stop.Clash → ⊥ }
    {
        match self.lists.push(list) {
            Ok(()) => Ok(()),
            Err(_) => Err(Stop::Memory),
        }
    }

    /// Adds a scope with these rigid variables, ascending, and gives its number.
    pub fn add(&mut self, list: Vec<u64>) -> Result<u64, Stop>
        ensures number { IfOk result (λ scope. (scope ≡ 0 → ⊥) × (slice_get self.new.lists.items (scope - 1) ≡ Some list)) }
        ensures kept { OnOk result (Extends self.old.lists.items self.new.lists.items) }
        ensures rise { OnOk result (AllRise self.old.lists.items → Rises list.items → AllRise self.new.lists.items) }
        ensures opened { OnOk result ((n : ℕ) → AreOpen self.old.lists.items n → Rises list.items → HoldsBelow list.items n → AreOpen self.new.lists.items n) }
        ensures clash { result ≡ Err Stop.Clash → ⊥ }
    {
        self.push_list(list)?;
        Ok(self.lists.len() as u64)
    }

    /// Whether the scope has these rigid variables and no others.
    pub fn has_exactly(&self, scope: u64, list: &[u64]) -> bool
        ensures list { result ≡ true → IsGivenAs self.now.lists.items scope list.now }
        ensures given { result ≡ true → scope ≡ 0 → ⊥ }
        ensures other { result ≡ false → (scope ≡ 0 → ⊥) → IsGivenAs self.now.lists.items scope list.now → ⊥ }
    {
        match self.list(scope) {
            Some(own) => is_same_list(own.as_slice(), list),
            None => false,
        }
    }

    /// Whether a rigid variable lies in the scope.
    pub fn has(&self, scope: u64, rigid: u64) -> bool
        ensures yes { result ≡ true → Lies self.now.lists.items scope rigid }
        ensures no { result ≡ false → AllRise self.now.lists.items → Lies self.now.lists.items scope rigid → ⊥ }
    {
        if scope == 0 {
            return true;
        }
        match self.list(scope) {
            Some(own) => is_in(own.as_slice(), rigid),
            None => false,
        }
    }

    /// Whether each rigid variable of the one lies in the other.
    pub fn is_within(&self, inner: u64, outer: u64) -> bool
        ensures { result ≡ true → IsWithin self.now.lists.items inner outer }
    {
        if inner == outer {
            return true;
        }
        if outer == 0 {
            return true;
        }
        let Some(bound) = self.list(outer) else {
            return false;
        };
        let Some(own) = self.list(inner) else {
            return false;
        };
        are_in(own.as_slice(), bound.as_slice())
    }

    /// The scope of the rigid variables that lie in both.
    pub fn meet(&mut self, alloc: Global, left: u64, right: u64) -> Result<u64, Stop>
        ensures left { IfOk result (λ scope. IsWithin self.new.lists.items scope left) }
        ensures right { IfOk result (λ scope. IsWithin self.new.lists.items scope right) }
        ensures both { IfOk result (λ scope. (r : ℕ) → AllRise self.old.lists.items → IsScope self.old.lists.items left → IsScope self.old.lists.items right → Lies self.new.lists.items left r → Lies self.new.lists.items right r → Lies self.new.lists.items scope r) }
        ensures scope { IfOk result (λ scope. IsScope self.old.lists.items left → IsScope self.old.lists.items right → IsScope self.new.lists.items scope) }
        ensures rise { OnOk result (AllRise self.old.lists.items → AllRise self.new.lists.items) }
        ensures kept { OnOk result (Extends self.old.lists.items self.new.lists.items) }
        ensures opened { OnOk result ((n : ℕ) → AreOpen self.old.lists.items n → AreOpen self.new.lists.items n) }
        ensures clash { result ≡ Err Stop.Clash → ⊥ }
    {
        if self.is_within(left, right) {
            return Ok(left);
        }
        if self.is_within(right, left) {
            return Ok(right);
        }
        let (Some(one), Some(two)) = (self.list(left), self.list(right)) else {
            return Err(Stop::Memory);
        };
        let common = keep_common(alloc, one.as_slice(), two.as_slice())?;
        let scope = self.add(common)?;
        Ok(scope)
    }
}
