//! The alternatives of a case, when their types are gone, as CoreFn has them.
//!
//! A guard of CoreFn is one boolean. Several tests of a branch are nested cases of them. A case in which
//! a test is `p <- e` can't be said by guards: its subjects are named, and what happens where a branch
//! fails is named too, as a place where the case goes on.

ghost use Rattle.std.specs.Prelude.{◌≡◌, ◌+◌, ◌++◌, ◌∷◌, [], length, reverse, IfOk, map, true, false};
ghost use Rattle.psc_core_cases.specs.Rows as spec;

use crate::made::{
    any_binder, bound, boxed, forced, place_name, subject_name, thunk, truth, variable,
};
use crate::numbering::{Numbers, after, behind};
use psc_core_tree::{
    Ann, CoreAlternative, CoreBind, CoreBinder, CoreExpr, CoreGuarded, CoreOutcome,
};
use psc_text::{NoMemory, Span};
use sqlite_items::Items;
use std::alloc::Global;

/// A test: whether the value is of the form of the binder.
#[derive(Drop)]
pub struct Test {
    pub binder: CoreBinder,
    pub value: CoreExpr,
}

/// An expression behind tests.
#[derive(Drop)]
pub struct Branch {
    pub tests: Items<Test>,
    pub body: CoreExpr,
}

/// An alternative of a case.
#[derive(Drop)]
pub enum Row {
    /// CoreFn can say it.
    Plain(CoreAlternative),
    /// A test of a branch is `p <- e`.
    Attempt {
        binders: Items<CoreBinder>,
        branches: Items<Branch>,
    },
}

/// Where a case goes on at a test that fails.
#[derive(Clone, Copy, Debug)]
pub enum Failure {
    /// It gives `false`.
    False,
    /// At the place of this number.
    GoOn(usize),
}

/// A list with one more behind it.
fn with_last<T: Drop>(before: Items<T>, last: T) -> Result<Items<T>, NoMemory>
    ensures { IfOk result (λ all. all ≡ before ++ last ∷ []) }
{
    let mut all = before;
    match all.push(last) {
        Ok(()) => Ok(all),
        Err(_) => Err(NoMemory),
    }
}

/// The list of one.
fn one<T: Drop>(alloc: Global, only: T) -> Result<Items<T>, NoMemory>
    ensures { IfOk result (λ all. all ≡ only ∷ []) }
{
    with_last(Items::new(alloc), only)
}

/// A list in the other order.
fn reversed<T: Drop>(alloc: Global, items: Items<T>) -> Result<Items<T>, NoMemory>
    ensures { IfOk result (λ other. other ≡ reverse items) }
{
    let mut items = items;
    let mut other = Items::new(alloc);
    while let Some(item) = items.pop() {
        other.push(item)?;
    }
    Ok(other)
}

/// A case of these subjects, of which there is one.
fn case_of_one(
    alloc: Global,
    at: Span,
    subject: CoreExpr,
    alternatives: Items<CoreAlternative>,
) -> Result<CoreExpr, NoMemory>
    ensures { IfOk result (λ core. core ≡ spec.case_at at (subject ∷ []) alternatives) }
{
    match one(alloc, subject) {
        Ok(subjects) => Ok(CoreExpr::Case {
            ann: Ann::plain(at),
            subjects,
            alternatives,
        }),
        Err(error) => Err(error),
    }
}

/// Binds round a body.
fn let_at(
    alloc: Global,
    at: Span,
    binds: Items<CoreBind>,
    body: CoreExpr,
) -> Result<CoreExpr, NoMemory>
    ensures { IfOk result (λ core. core ≡ spec.let_at at binds body) }
{
    match boxed(alloc, body) {
        Ok(body) => Ok(CoreExpr::Let {
            ann: Ann::plain(at),
            binds,
            body,
        }),
        Err(error) => Err(error),
    }
}

fn going_on(alloc: Global, at: Span, number: usize) -> Result<CoreExpr, NoMemory>
    ensures { IfOk result (λ core. core ≡ spec.going_on at number) }
{
    match place_name(alloc, number) {
        Ok(place) => forced(alloc, at, variable(at, place)),
        Err(error) => Err(error),
    }
}

fn failed(alloc: Global, at: Span, failure: Failure) -> Result<CoreExpr, NoMemory>
    ensures { IfOk result (λ core. core ≡ spec.failed at failure) }
{
    match failure {
        Failure::False => Ok(truth(at, false)),
        Failure::GoOn(number) => going_on(alloc, at, number),
    }
}

pub fn alternative(binders: Items<CoreBinder>, body: CoreExpr) -> CoreAlternative
    ensures { result ≡ spec.alternative binders body }
{
    CoreAlternative {
        binders,
        outcome: CoreOutcome::Always(body),
    }
}

/// What comes where no other alternative does.
fn any_alternative(alloc: Global, at: Span, body: CoreExpr) -> Result<CoreAlternative, NoMemory>
    ensures { IfOk result (λ made. made ≡ spec.any_alternative at body) }
{
    match one(alloc, any_binder(at)) {
        Ok(binders) => Ok(alternative(binders, body)),
        Err(error) => Err(error),
    }
}

/// An alternative of one binder.
fn of_binder(alloc: Global, binder: CoreBinder, body: CoreExpr) -> Result<CoreAlternative, NoMemory>
    ensures { IfOk result (λ made. made ≡ spec.alternative (binder ∷ []) body) }
{
    match one(alloc, binder) {
        Ok(binders) => Ok(alternative(binders, body)),
        Err(error) => Err(error),
    }
}

/// An alternative of one binder, and what comes where it does not.
fn test_alternatives(
    alloc: Global,
    binder: CoreBinder,
    body: CoreExpr,
    otherwise: CoreAlternative,
) -> Result<Items<CoreAlternative>, NoMemory>
    ensures { IfOk result (λ alternatives. alternatives ≡ spec.alternative (binder ∷ []) body ∷ otherwise ∷ []) }
{
    match of_binder_alone(alloc, binder, body) {
        Ok(alternatives) => with_last(alternatives, otherwise),
        Err(error) => Err(error),
    }
}

fn of_binder_alone(
    alloc: Global,
    binder: CoreBinder,
    body: CoreExpr,
) -> Result<Items<CoreAlternative>, NoMemory>
    ensures { IfOk result (λ alternatives. alternatives ≡ spec.alternative (binder ∷ []) body ∷ []) }
{
    match of_binder(alloc, binder, body) {
        Ok(alternative) => one(alloc, alternative),
        Err(error) => Err(error),
    }
}

/// The alternative behind a test.
fn failed_alternative(
    alloc: Global,
    at: Span,
    failure: Failure,
) -> Result<CoreAlternative, NoMemory>
    ensures { IfOk result (λ made. made ≡ spec.any_alternative at (spec.failed at failure)) }
{
    match failed(alloc, at, failure) {
        Ok(otherwise) => any_alternative(alloc, at, otherwise),
        Err(error) => Err(error),
    }
}

/// The case of a value by one binder, with what comes where it is not of its form.
fn tested_or(
    alloc: Global,
    at: Span,
    test: Test,
    body: CoreExpr,
    otherwise: CoreAlternative,
) -> Result<CoreExpr, NoMemory>
    ensures { IfOk result (λ core. core ≡ spec.case_at at (test.value ∷ []) (spec.alternative (test.binder ∷ []) body ∷ otherwise ∷ [])) }
{
    let Test { binder, value } = test;
    match test_alternatives(alloc, binder, body, otherwise) {
        Ok(alternatives) => case_of_one(alloc, at, value, alternatives),
        Err(error) => Err(error),
    }
}

/// The case of a test, with what stands behind it.
fn tested(
    alloc: Global,
    at: Span,
    test: Test,
    body: CoreExpr,
    failure: Failure,
) -> Result<CoreExpr, NoMemory>
    ensures { IfOk result (λ core. core ≡ spec.tested at test body failure) }
{
    match failed_alternative(alloc, at, failure) {
        Ok(otherwise) => tested_or(alloc, at, test, body, otherwise),
        Err(error) => Err(error),
    }
}

/// The nested cases of tests, with what stands behind the last one.
#[tactic(auto, using(crate::proofs::RowRules::nested_last), unfolding(crate::specs::Rows::nested))]
fn nested(
    alloc: Global,
    at: Span,
    tests: Items<Test>,
    body: CoreExpr,
    failure: Failure,
) -> Result<CoreExpr, NoMemory>
    ensures { IfOk result (λ core. core ≡ spec.nested at failure tests body) }
{
    let mut tests = tests;
    let mut made = body;
    while let Some(test) = tests.pop() {
        made = tested(alloc, at, test, made, failure)?;
    }
    Ok(made)
}

fn value_of(test: Test) -> CoreExpr
    ensures { result ≡ test.value }
{
    let Test { binder: _, value } = test;
    value
}

/// One boolean for the tests of a branch.
#[tactic(auto, using(crate::proofs::RowRules::guard_last), unfolding(crate::specs::Rows::guard))]
fn guard(alloc: Global, at: Span, tests: Items<Test>) -> Result<CoreExpr, NoMemory>
    ensures { IfOk result (λ core. core ≡ spec.guard at tests) }
{
    let mut tests = tests;
    match tests.pop() {
        None => Ok(truth(at, true)),
        Some(last) => nested(alloc, at, tests, value_of(last), Failure::False),
    }
}

fn guarded(alloc: Global, at: Span, branch: Branch) -> Result<CoreGuarded, NoMemory>
    ensures { IfOk result (λ core. core ≡ spec.guarded at branch) }
{
    let Branch { tests, body } = branch;
    match guard(alloc, at, tests) {
        Ok(guard) => Ok(CoreGuarded { guard, body }),
        Err(error) => Err(error),
    }
}

/// The branches of an alternative that CoreFn can say.
fn guarded_ones(
    alloc: Global,
    at: Span,
    branches: Items<Branch>,
) -> Result<Items<CoreGuarded>, NoMemory>
    ensures { IfOk result (λ core. core ≡ map (spec.guarded at) branches) }
{
    let mut waiting = reversed(alloc, branches)?;
    let mut made = Items::new(alloc);
    while let Some(branch) = waiting.pop() {
        made.push(guarded(alloc, at, branch)?)?;
    }
    Ok(made)
}

/// An alternative with guarded branches, of which one has a test `p <- e` or none.
pub fn row_of(
    alloc: Global,
    at: Span,
    binds: bool,
    binders: Items<CoreBinder>,
    branches: Items<Branch>,
) -> Result<Row, NoMemory>
    ensures { IfOk result (λ row. row ≡ spec.row_of at binds binders branches) }
{
    if binds {
        Ok(Row::Attempt { binders, branches })
    } else {
        let outcome = CoreOutcome::Guarded(guarded_ones(alloc, at, branches)?);
        Ok(Row::Plain(CoreAlternative { binders, outcome }))
    }
}

/// A place of this number, where it is gone on.
fn place(alloc: Global, at: Span, number: usize, going_on: CoreExpr) -> Result<CoreBind, NoMemory>
    ensures { IfOk result (λ core. core ≡ spec.place at number going_on) }
{
    let name = place_name(alloc, number)?;
    match thunk(alloc, at, going_on) {
        Ok(value) => Ok(bound(at, name, value)),
        Err(error) => Err(error),
    }
}

fn place_alone(
    alloc: Global,
    at: Span,
    number: usize,
    going_on: CoreExpr,
) -> Result<Items<CoreBind>, NoMemory>
    ensures { IfOk result (λ binds. binds ≡ spec.place at number going_on ∷ []) }
{
    match place(alloc, at, number, going_on) {
        Ok(bind) => one(alloc, bind),
        Err(error) => Err(error),
    }
}

/// Names a place where the body goes on.
fn placed(
    alloc: Global,
    at: Span,
    number: usize,
    going_on: CoreExpr,
    body: CoreExpr,
) -> Result<CoreExpr, NoMemory>
    ensures { IfOk result (λ core. core ≡ spec.placed at number going_on body) }
{
    match place_alone(alloc, at, number, going_on) {
        Ok(binds) => let_at(alloc, at, binds, body),
        Err(error) => Err(error),
    }
}

/// A branch that goes on at the place of this number.
fn attempt(alloc: Global, at: Span, number: usize, branch: Branch) -> Result<CoreExpr, NoMemory>
    ensures { IfOk result (λ core. core ≡ spec.attempt at number branch) }
{
    let Branch { tests, body } = branch;
    nested(alloc, at, tests, body, Failure::GoOn(number))
}

/// A branch at the place of this number, which goes on with what stands behind it.
fn attempt_placed(
    alloc: Global,
    at: Span,
    number: usize,
    branch: Branch,
    behind: CoreExpr,
) -> Result<CoreExpr, NoMemory>
    ensures { IfOk result (λ core. core ≡ spec.placed at number behind (spec.attempt at number branch)) }
{
    match attempt(alloc, at, number, branch) {
        Ok(tried) => placed(alloc, at, number, behind, tried),
        Err(error) => Err(error),
    }
}

/// Branches before another one, each of which goes on with the next.
#[tactic(auto, using(crate::proofs::RowRules::before_last), unfolding(crate::specs::Rows::attempts_before))]
fn attempts_before(
    alloc: Global,
    at: Span,
    first: usize,
    branches: Items<Branch>,
    last: CoreExpr,
) -> Result<CoreExpr, NoMemory>
    ensures { IfOk result (λ core. core ≡ spec.attempts_before at first branches last) }
{
    let mut branches = branches;
    let mut made = last;
    while let Some(branch) = branches.pop() {
        let number = behind(first, branches.len())?;
        made = attempt_placed(alloc, at, number, branch, made)?;
    }
    Ok(made)
}

/// Branches, the last of which goes on at the place of this number.
fn attempts_up_to(
    alloc: Global,
    at: Span,
    first: usize,
    number: usize,
    before: Items<Branch>,
    last: Branch,
) -> Result<CoreExpr, NoMemory>
    ensures { IfOk result (λ core. core ≡ spec.attempts_before at first before (spec.attempt at number last)) }
{
    match attempt(alloc, at, number, last) {
        Ok(last) => attempts_before(alloc, at, first, before, last),
        Err(error) => Err(error),
    }
}

/// The branches of an alternative, whose places have the numbers from this one on.
#[tactic(auto, using(crate::proofs::RowRules::attempts_last), unfolding(crate::specs::Rows::attempts))]
fn attempts(
    alloc: Global,
    at: Span,
    first: usize,
    branches: Items<Branch>,
) -> Result<CoreExpr, NoMemory>
    ensures { IfOk result (λ core. core ≡ spec.attempts at first branches) }
{
    let mut branches = branches;
    match branches.pop() {
        None => going_on(alloc, at, first),
        Some(last) => {
            let number = behind(first, branches.len())?;
            attempts_up_to(alloc, at, first, number, branches, last)
        }
    }
}

fn subject(alloc: Global, at: Span, number: usize) -> Result<CoreExpr, NoMemory>
    ensures { IfOk result (λ core. core ≡ spec.subject at number) }
{
    Ok(variable(at, subject_name(alloc, number)?))
}

/// The names of subjects, whose numbers begin with this one.
#[tactic(auto, unfolding(crate::specs::Rows::subjects_named))]
fn subjects_named(
    alloc: Global,
    at: Span,
    first: usize,
    subjects: &[CoreExpr],
) -> Result<Items<CoreExpr>, NoMemory>
    ensures { IfOk result (λ core. core ≡ spec.subjects_named at first subjects.now) }
{
    let mut made = Items::new(alloc);
    let mut number = first;
    for _subject in subjects {
        made.push(subject(alloc, at, number)?)?;
        number = behind(number, 1)?;
    }
    Ok(made)
}

#[tactic(auto, unfolding(crate::specs::Rows::any_binders))]
fn any_binders(
    alloc: Global,
    at: Span,
    subjects: &[CoreExpr],
) -> Result<Items<CoreBinder>, NoMemory>
    ensures { IfOk result (λ core. core ≡ spec.any_binders at subjects.now) }
{
    let mut made = Items::new(alloc);
    for _subject in subjects {
        made.push(any_binder(at))?;
    }
    Ok(made)
}

/// A subject with its name.
fn subject_bind(
    alloc: Global,
    at: Span,
    number: usize,
    subject: CoreExpr,
) -> Result<CoreBind, NoMemory>
    ensures { IfOk result (λ bind. bind ≡ spec.subject_bind at number subject) }
{
    match subject_name(alloc, number) {
        Ok(name) => Ok(bound(at, name, subject)),
        Err(error) => Err(error),
    }
}

/// Binds with that of one more subject behind them.
fn with_subject(
    alloc: Global,
    at: Span,
    number: usize,
    before: Items<CoreBind>,
    subject: CoreExpr,
) -> Result<Items<CoreBind>, NoMemory>
    ensures { IfOk result (λ binds. binds ≡ before ++ spec.subject_bind at number subject ∷ []) }
{
    match subject_bind(alloc, at, number, subject) {
        Ok(bind) => with_last(before, bind),
        Err(error) => Err(error),
    }
}

#[tactic(auto, unfolding(crate::specs::Rows::subject_binds))]
fn subject_binds(
    alloc: Global,
    at: Span,
    first: usize,
    subjects: Items<CoreExpr>,
) -> Result<Items<CoreBind>, NoMemory>
    ensures { IfOk result (λ core. core ≡ spec.subject_binds at first subjects) }
{
    let mut waiting = reversed(alloc, subjects)?;
    let mut made = Items::new(alloc);
    let mut number = first;
    while let Some(subject) = waiting.pop() {
        made = with_subject(alloc, at, number, made, subject)?;
        number = behind(number, 1)?;
    }
    Ok(made)
}

/// Names the subjects of a case round a body.
fn with_subjects(
    alloc: Global,
    at: Span,
    first: usize,
    subjects: Items<CoreExpr>,
    body: CoreExpr,
) -> Result<CoreExpr, NoMemory>
    ensures { IfOk result (λ core. core ≡ spec.with_subjects at first subjects body) }
{
    match subject_binds(alloc, at, first, subjects) {
        Ok(binds) => let_at(alloc, at, binds, body),
        Err(error) => Err(error),
    }
}

/// An alternative that has branches to try.
fn tried_alternative(
    alloc: Global,
    at: Span,
    binders: Items<CoreBinder>,
    first: usize,
    branches: Items<Branch>,
) -> Result<CoreAlternative, NoMemory>
    ensures { IfOk result (λ made. made ≡ spec.alternative binders (spec.attempts at first branches)) }
{
    match attempts(alloc, at, first, branches) {
        Ok(body) => Ok(alternative(binders, body)),
        Err(error) => Err(error),
    }
}

/// The alternative that goes on where none gives a value.
fn last_alternative(
    alloc: Global,
    at: Span,
    any: Items<CoreBinder>,
    last: usize,
) -> Result<CoreAlternative, NoMemory>
    ensures { IfOk result (λ made. made ≡ spec.alternative any (spec.going_on at last)) }
{
    match going_on(alloc, at, last) {
        Ok(body) => Ok(alternative(any, body)),
        Err(error) => Err(error),
    }
}

/// The alternatives up to one that has branches to try.
fn up_to_tried(
    alloc: Global,
    at: Span,
    before: Items<CoreAlternative>,
    binders: Items<CoreBinder>,
    first: usize,
    branches: Items<Branch>,
) -> Result<Items<CoreAlternative>, NoMemory>
    ensures { IfOk result (λ core. core ≡ before ++ spec.alternative binders (spec.attempts at first branches) ∷ []) }
{
    match tried_alternative(alloc, at, binders, first, branches) {
        Ok(alternative) => with_last(before, alternative),
        Err(error) => Err(error),
    }
}

/// Alternatives, and the one that goes on where none gives a value.
fn with_going_on(
    alloc: Global,
    at: Span,
    before: Items<CoreAlternative>,
    any: Items<CoreBinder>,
    last: usize,
) -> Result<Items<CoreAlternative>, NoMemory>
    ensures { IfOk result (λ core. core ≡ before ++ spec.alternative any (spec.going_on at last) ∷ []) }
{
    match last_alternative(alloc, at, any, last) {
        Ok(alternative) => with_last(before, alternative),
        Err(error) => Err(error),
    }
}

/// The alternatives up to one that has branches to try, and the one that goes on where none gives a value.
fn tried(
    alloc: Global,
    at: Span,
    before: Items<CoreAlternative>,
    binders: Items<CoreBinder>,
    any: Items<CoreBinder>,
    first: usize,
    last: usize,
    branches: Items<Branch>,
) -> Result<Items<CoreAlternative>, NoMemory>
    ensures { IfOk result (λ core. core ≡ spec.tried at before binders any first last branches) }
{
    match up_to_tried(alloc, at, before, binders, first, branches) {
        Ok(alternatives) => with_going_on(alloc, at, alternatives, any, last),
        Err(error) => Err(error),
    }
}

/// The alternatives of a case up to one that has branches to try, for subjects that are named.
fn tried_of(
    alloc: Global,
    at: Span,
    subjects: &[CoreExpr],
    before: Items<CoreAlternative>,
    binders: Items<CoreBinder>,
    first: usize,
    last: usize,
    branches: Items<Branch>,
) -> Result<Items<CoreAlternative>, NoMemory>
    ensures { IfOk result (λ core. core ≡ spec.tried at before binders (spec.any_binders at subjects.now) first last branches) }
{
    match any_binders(alloc, at, subjects) {
        Ok(any) => tried(alloc, at, before, binders, any, first, last, branches),
        Err(error) => Err(error),
    }
}

/// The case of subjects that are named, with these alternatives.
fn case_of_names(
    alloc: Global,
    at: Span,
    first: usize,
    subjects: &[CoreExpr],
    alternatives: Items<CoreAlternative>,
) -> Result<CoreExpr, NoMemory>
    ensures { IfOk result (λ core. core ≡ spec.case_at at (spec.subjects_named at first subjects.now) alternatives) }
{
    match subjects_named(alloc, at, first, subjects) {
        Ok(subjects) => Ok(CoreExpr::Case {
            ann: Ann::plain(at),
            subjects,
            alternatives,
        }),
        Err(error) => Err(error),
    }
}

/// The place where a case goes on, round it, and the names of its subjects round both.
fn placed_named(
    alloc: Global,
    at: Span,
    first: usize,
    last: usize,
    subjects: Items<CoreExpr>,
    rest: CoreExpr,
    case: CoreExpr,
) -> Result<CoreExpr, NoMemory>
    ensures { IfOk result (λ core. core ≡ spec.with_subjects at first subjects (spec.placed at last rest case)) }
{
    match placed(alloc, at, last, rest, case) {
        Ok(body) => with_subjects(alloc, at, first, subjects, body),
        Err(error) => Err(error),
    }
}

/// A case whose alternatives before one with branches to try are given, and the rows behind it, the last
/// one first.
#[cycle(cases)]
fn rewritten(
    alloc: Global,
    at: Span,
    subjects: Items<CoreExpr>,
    before: Items<CoreAlternative>,
    binders: Items<CoreBinder>,
    branches: Items<Branch>,
    rows: Items<Row>,
    numbers: Numbers,
) -> Result<CoreExpr, NoMemory>
    ensures { IfOk result (λ core. core ≡ spec.rewritten at subjects before binders branches (reverse rows) numbers) }
{
    let Numbers {
        subjects: first,
        places,
    } = numbers;
    let last = behind(places, branches.len().saturating_sub(1))?;
    let next = after(numbers, subjects.len(), branches.len())?;
    let of = subjects.as_slice();
    let alternatives = tried_of(alloc, at, of, before, binders, places, last, branches)?;
    let case = case_of_names(alloc, at, first, of, alternatives)?;
    let again = subjects_named(alloc, at, first, of)?;
    let rest = rows_of(alloc, at, again, rows, next)?;
    placed_named(alloc, at, first, last, subjects, rest, case)
}

/// A case of these subjects and these rows, the last one first.
#[cycle(cases)]
#[tactic(auto, unfolding(crate::specs::Rows::case_of))]
fn rows_of(
    alloc: Global,
    at: Span,
    subjects: Items<CoreExpr>,
    rows: Items<Row>,
    numbers: Numbers,
) -> Result<CoreExpr, NoMemory>
    ensures { IfOk result (λ core. core ≡ spec.case_of at subjects [] (reverse rows) numbers) }
{
    let mut rows = rows;
    let mut before = Items::new(alloc);
    while let Some(row) = rows.pop() {
        match row {
            Row::Plain(alternative) => before.push(alternative)?,
            Row::Attempt { binders, branches } => {
                let core = rewritten(
                    alloc, at, subjects, before, binders, branches, rows, numbers,
                )?;
                return Ok(core);
            }
        }
    }
    Ok(CoreExpr::Case {
        ann: Ann::plain(at),
        subjects,
        alternatives: before,
    })
}

/// A case of these subjects and these rows. Its made names have the numbers from these on.
pub fn case_of(
    alloc: Global,
    at: Span,
    subjects: Items<CoreExpr>,
    rows: Items<Row>,
    numbers: Numbers,
) -> Result<CoreExpr, NoMemory>
    ensures { IfOk result (λ core. core ≡ spec.case_of at subjects [] rows numbers) }
{
    let waiting = reversed(alloc, rows)?;
    Ok(rows_of(alloc, at, subjects, waiting, numbers)?)
}
