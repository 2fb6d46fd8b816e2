// Small calls on lists of nodes and of tasks, each with one equation.
ghost use Rattle.std.specs.Prelude.{◌≡◌, OnOk, Err, MatchOption, IsTrue, ◌↔◌, [], ◌∷◌, ◌++◌};

use crate::node::{Former, Leaf, Stop, Task};

/// Adds a task.
pub fn add(work: &mut Vec<Task>, task: Task) -> Result<(), Stop>
    ensures ok { OnOk result (work.new.items ≡ work.old.items ++ task ∷ []) }
    ensures clash { result ≡ Err Stop.Clash → ⊥ }
{
    match work.push(task) {
        Ok(()) => Ok(()),
        Err(_) => Err(Stop::Memory),
    }
}

/// Takes the task that was added last.
pub fn take_last(work: &mut Vec<Task>) -> Option<Task>
    ensures { MatchOption result (work.old.items ≡ []) (λ last. work.old.items ≡ work.new.items ++ last ∷ []) }
{
    work.pop()
}

/// Whether two leaves are one.
pub fn is_same_leaf(x: Leaf, y: Leaf) -> bool
    ensures { IsTrue result ↔ (x ≡ y) }
{
    x == y
}

/// Whether two formers are one.
pub fn is_same_former(x: Former, y: Former) -> bool
    ensures { IsTrue result ↔ (x ≡ y) }
{
    x == y
}
