//! How many numbers a case takes: they are known before its parts are erased.

ghost use Rattle.std.specs.Prelude.{◌≡◌, IfOk, map};
ghost use Rattle.psc_core.specs.Expr as spec;

use crate::typed::{Typed, TypedBranch, TypedOutcome, TypedRow, TypedTest};
use psc_core_cases::{Numbers, after};
use psc_text::NoMemory;

fn test_binds(test: &TypedTest) -> bool
    ensures { result ≡ (spec.test test.now).binds }
{
    match test {
        TypedTest::Holds(_) => false,
        TypedTest::Binds(_, _) => true,
    }
}

#[tactic(auto, unfolding(crate::specs::Expr::any_binds))]
fn tests_bind(tests: &[TypedTest]) -> bool
    ensures { result ≡ spec.any_binds (map spec.test tests.now) }
{
    for test in tests {
        if test_binds(test) {
            return true;
        }
    }
    false
}

fn branch_binds(branch: &TypedBranch) -> bool
    ensures { result ≡ (spec.branch branch.now).binds }
{
    tests_bind(branch.tests.as_slice())
}

/// Whether a test of a branch is `p <- e`.
#[tactic(auto, unfolding(crate::specs::Expr::any_binds))]
pub(crate) fn branches_bind(branches: &[TypedBranch]) -> bool
    ensures { result ≡ spec.any_binds (map spec.branch branches.now) }
{
    for branch in branches {
        if branch_binds(branch) {
            return true;
        }
    }
    false
}

fn guarded_places(branches: &[TypedBranch]) -> usize
    ensures { result ≡ spec.guarded_places (map spec.branch branches.now) }
{
    if branches_bind(branches) {
        branches.len()
    } else {
        0
    }
}

fn places_of(outcome: &TypedOutcome) -> usize
    ensures { result ≡ (spec.outcome outcome.now).places }
{
    match outcome {
        TypedOutcome::Always(_) => 0,
        TypedOutcome::Guarded(branches) => guarded_places(branches.as_slice()),
    }
}

fn row_places(row: &TypedRow) -> usize
    ensures { result ≡ (spec.row row.now).places }
{
    places_of(&row.outcome)
}

#[tactic(auto, unfolding(crate::specs::Expr::after_row))]
fn after_row(subjects: usize, places: usize, numbers: Numbers) -> Result<Numbers, NoMemory>
    ensures { IfOk result (λ next. next ≡ spec.after_row subjects places numbers) }
{
    if places == 0 {
        Ok(numbers)
    } else {
        after(numbers, subjects, places)
    }
}

/// The numbers that come next after those of rows, in a case of so many subjects.
#[tactic(auto, unfolding(crate::specs::Expr::after_rows))]
fn after_rows(subjects: usize, rows: &[TypedRow], numbers: Numbers) -> Result<Numbers, NoMemory>
    ensures { IfOk result (λ next. next ≡ spec.after_rows subjects (map spec.row rows.now) numbers) }
{
    let mut next = numbers;
    for row in rows {
        next = after_row(subjects, row_places(row), next)?;
    }
    Ok(next)
}

/// The numbers that come next after those that a case takes for itself.
pub(crate) fn after_case(
    subjects: &[Typed],
    rows: &[TypedRow],
    numbers: Numbers,
) -> Result<Numbers, NoMemory>
    ensures { IfOk result (λ next. next ≡ spec.after_case (map spec.expr subjects.now) (map spec.row rows.now) numbers) }
{
    Ok(after_rows(subjects.len(), rows, numbers)?)
}
