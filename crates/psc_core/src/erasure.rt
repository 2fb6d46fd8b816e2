//! Erasure: CoreFn from the typed core.
//!
//! Types go. A lambda over a dictionary is a lambda, and its evidence an argument. The numbers of made
//! names are taken in the order of the source, by a case before those inside its parts.

ghost use Rattle.std.specs.Prelude.{◌≡◌, [], IfOk, map};
ghost use Rattle.psc_core.specs.Expr as spec;
ghost use Rattle.psc_core.specs.Numbers.{all};

use crate::binder::{erase_binder, erase_binders};
use crate::dictionary::{dictionary, super_fields};
use crate::scan::{after_case, branches_bind};
use crate::typed::{
    LocalBind, LocalGroup, Typed, TypedBranch, TypedField, TypedForm, TypedLit, TypedOutcome,
    TypedRow, TypedTest,
};
use psc_core_cases::{
    Branch, Numbers, Row, Test, alternative, case_of, row_of, true_binder, variable,
};
use psc_core_tree::{Ann, CoreBind, CoreBinder, CoreBinding, CoreExpr, Field, Literal, Meta};
use psc_items::SharedItems;
use psc_text::{Ident, NoMemory, Qualified, Span, Text};
use sqlite_items::{Boxed, Items};
use std::alloc::Global;

/// The CoreFn of a declaration's body. Made names are numbered from 0.
pub fn erase(alloc: Global, typed: &Typed) -> Result<CoreExpr, NoMemory>
    ensures { IfOk result (λ core. core ≡ spec.erase typed.now) }
{
    let mut numbers = Numbers {
        subjects: 0,
        places: 0,
    };
    erase_expr(alloc, typed, &mut numbers)
}

/// The function of a newtype's constructor.
fn identity(alloc: Global, ann: &Ann) -> Result<CoreExpr, NoMemory>
    ensures { IfOk result (λ core. core ≡ spec.identity ann.now) }
{
    let name = Text::new(alloc, "x")?;
    let body = Boxed::new(alloc, variable(ann.span, name.clone()?))?;
    Ok(CoreExpr::Abs {
        ann: ann.clone()?,
        argument: Ident(name),
        body,
    })
}

fn data_constructor(
    ann: &Ann,
    name: &Qualified,
    parent: &Qualified,
    fields: SharedItems<Ident>,
) -> Result<CoreExpr, NoMemory>
    ensures { IfOk result (λ core. core ≡ spec.data_constructor ann.now name.now parent.now fields) }
{
    let type_name = parent.name.clone()?;
    let constructor_name = name.name.clone()?;
    Ok(CoreExpr::Constructor {
        ann: ann.clone()?,
        type_name,
        constructor_name,
        field_names: fields,
    })
}

fn no_fields(alloc: Global) -> Result<SharedItems<Ident>, NoMemory>
    ensures { IfOk result (λ fields. fields ≡ []) }
{
    Ok(SharedItems::from_vec(alloc, Vec::new(alloc))?)
}

/// A constructor's own binding.
fn constructor(
    alloc: Global,
    ann: &Ann,
    name: &Qualified,
    parent: &Qualified,
) -> Result<CoreExpr, NoMemory>
    ensures { IfOk result (λ core. core ≡ spec.constructor ann.now.meta ann.now name.now parent.now) }
{
    match &ann.meta {
        Meta::IsNewtype => identity(alloc, ann),
        Meta::IsConstructor {
            sum: _,
            identifiers,
        } => data_constructor(ann, name, parent, identifiers.clone()?),
        Meta::NoMeta | Meta::IsForeign | Meta::IsWhere => {
            data_constructor(ann, name, parent, no_fields(alloc)?)
        }
    }
}

fn lambda(ann: &Ann, name: &Ident, body: Boxed<CoreExpr>) -> Result<CoreExpr, NoMemory>
    ensures { IfOk result (λ core. core ≡ spec.lambda ann.now name.now body) }
{
    let argument = name.clone()?;
    Ok(CoreExpr::Abs {
        ann: ann.clone()?,
        argument,
        body,
    })
}

#[cycle(erase)]
fn erase_expr(alloc: Global, typed: &Typed, numbers: &mut Numbers) -> Result<CoreExpr, NoMemory>
    ensures erased { IfOk result (λ core. core ≡ (spec.expr typed.now numbers.old).core) }
    ensures counted { IfOk result (λ _. numbers.new ≡ (spec.expr typed.now numbers.old).next) }
{
    erase_form(alloc, &typed.form, &typed.ann, numbers)
}

#[cycle(erase)]
fn erase_form(
    alloc: Global,
    form: &TypedForm,
    ann: &Ann,
    numbers: &mut Numbers,
) -> Result<CoreExpr, NoMemory>
    ensures erased { IfOk result (λ core. core ≡ (spec.form form.now ann.now numbers.old).core) }
    ensures counted { IfOk result (λ _. numbers.new ≡ (spec.form form.now ann.now numbers.old).next) }
{
    match form {
        TypedForm::Lit { value } => {
            let value = erase_lit(alloc, ann.span, value, numbers)?;
            Ok(CoreExpr::Literal {
                ann: ann.clone()?,
                value,
            })
        }
        TypedForm::Ctor { name, parent } => constructor(alloc, ann, name, parent),
        TypedForm::Get { subject, label } => {
            let subject = erase_boxed(alloc, subject.get(), numbers)?;
            let label = label.clone()?;
            Ok(CoreExpr::Accessor {
                ann: ann.clone()?,
                subject,
                label,
            })
        }
        TypedForm::Update { subject, updates } => {
            let subject = erase_boxed(alloc, subject.get(), numbers)?;
            let updates = erase_fields(alloc, updates.as_slice(), numbers)?;
            Ok(CoreExpr::ObjectUpdate {
                ann: ann.clone()?,
                subject,
                updates,
            })
        }
        TypedForm::Abs {
            name,
            param: _,
            body,
        } => {
            let body = erase_boxed(alloc, body.get(), numbers)?;
            Ok(lambda(ann, name, body)?)
        }
        TypedForm::App { function, argument } => {
            let function = erase_boxed(alloc, function.get(), numbers)?;
            let argument = erase_boxed(alloc, argument.get(), numbers)?;
            Ok(CoreExpr::App {
                ann: ann.clone()?,
                function,
                argument,
            })
        }
        TypedForm::Name { name } => {
            let name = name.clone()?;
            Ok(CoreExpr::Var {
                ann: ann.clone()?,
                name,
            })
        }
        TypedForm::Case {
            subjects,
            rows,
            result: _,
        } => {
            let first = *numbers;
            *numbers = after_case(subjects.as_slice(), rows.as_slice(), first)?;
            let subjects = erase_all(alloc, subjects.as_slice(), numbers)?;
            let rows = erase_rows(alloc, ann.span, rows.as_slice(), numbers)?;
            Ok(case_of(alloc, ann.span, subjects, rows, first)?)
        }
        TypedForm::Let { groups, body } => {
            let binds = erase_groups(alloc, groups.as_slice(), numbers)?;
            let body = erase_boxed(alloc, body.get(), numbers)?;
            Ok(CoreExpr::Let {
                ann: ann.clone()?,
                binds,
                body,
            })
        }
        TypedForm::TyAbs {
            name: _,
            kind: _,
            body,
        } => erase_expr(alloc, body.get(), numbers),
        TypedForm::TyApp {
            function,
            argument: _,
        } => erase_expr(alloc, function.get(), numbers),
        TypedForm::DictAbs {
            name,
            constraint: _,
            body,
        } => {
            let body = erase_boxed(alloc, body.get(), numbers)?;
            Ok(lambda(ann, name, body)?)
        }
        TypedForm::DictApp { function, evidence } => {
            let function = erase_boxed(alloc, function.get(), numbers)?;
            let argument = Boxed::new(alloc, dictionary(alloc, ann.span, evidence)?)?;
            Ok(CoreExpr::App {
                ann: ann.clone()?,
                function,
                argument,
            })
        }
    }
}

#[cycle(erase)]
fn erase_boxed(
    alloc: Global,
    typed: &Typed,
    numbers: &mut Numbers,
) -> Result<Boxed<CoreExpr>, NoMemory>
    ensures erased { IfOk result (λ core. core ≡ (spec.expr typed.now numbers.old).core) }
    ensures counted { IfOk result (λ _. numbers.new ≡ (spec.expr typed.now numbers.old).next) }
{
    let core = erase_expr(alloc, typed, numbers)?;
    Ok(Boxed::new(alloc, core)?)
}

#[cycle(erase)]
#[tactic(auto, unfolding(crate::specs::Numbers::all))]
fn erase_all(
    alloc: Global,
    exprs: &[Typed],
    numbers: &mut Numbers,
) -> Result<Items<CoreExpr>, NoMemory>
    ensures erased { IfOk result (λ core. core ≡ (all (map spec.expr exprs.now) numbers.old).core) }
    ensures counted { IfOk result (λ _. numbers.new ≡ (all (map spec.expr exprs.now) numbers.old).next) }
{
    let mut made = Items::new(alloc);
    for expr in exprs {
        made.push(erase_expr(alloc, expr, numbers)?)?;
    }
    Ok(made)
}

#[cycle(erase)]
fn erase_lit(
    alloc: Global,
    at: Span,
    literal: &TypedLit,
    numbers: &mut Numbers,
) -> Result<Literal, NoMemory>
    ensures erased { IfOk result (λ core. core ≡ (spec.literal literal.now at numbers.old).core) }
    ensures counted { IfOk result (λ _. numbers.new ≡ (spec.literal literal.now at numbers.old).next) }
{
    match literal {
        TypedLit::Int(number) => Ok(Literal::Int(*number)),
        TypedLit::Str(text) => Ok(Literal::Str(text.clone()?)),
        TypedLit::Char(letter) => Ok(Literal::Char(*letter)),
        TypedLit::Bool(truth) => Ok(Literal::Bool(*truth)),
        TypedLit::Array { element: _, items } => {
            Ok(Literal::Array(erase_all(alloc, items.as_slice(), numbers)?))
        }
        TypedLit::Object(fields) => {
            Ok(Literal::Object(erase_fields(alloc, fields.as_slice(), numbers)?))
        }
        TypedLit::Dict { supers, members } => {
            let mut fields = super_fields(alloc, at, supers.as_slice())?;
            fields.append(erase_fields(alloc, members.as_slice(), numbers)?)?;
            Ok(Literal::Object(fields))
        }
    }
}

#[cycle(erase)]
#[tactic(auto, unfolding(crate::specs::Numbers::all))]
fn erase_fields(
    alloc: Global,
    fields: &[TypedField],
    numbers: &mut Numbers,
) -> Result<Items<Field>, NoMemory>
    ensures erased { IfOk result (λ core. core ≡ (all (map spec.field fields.now) numbers.old).core) }
    ensures counted { IfOk result (λ _. numbers.new ≡ (all (map spec.field fields.now) numbers.old).next) }
{
    let mut made = Items::new(alloc);
    for field in fields {
        made.push(erase_field(alloc, field, numbers)?)?;
    }
    Ok(made)
}

#[cycle(erase)]
fn erase_field(alloc: Global, field: &TypedField, numbers: &mut Numbers) -> Result<Field, NoMemory>
    ensures erased { IfOk result (λ core. core ≡ (spec.field field.now numbers.old).core) }
    ensures counted { IfOk result (λ _. numbers.new ≡ (spec.field field.now numbers.old).next) }
{
    let label = field.label.clone()?;
    let value = erase_expr(alloc, &field.value, numbers)?;
    Ok(Field { label, value })
}

#[cycle(erase)]
#[tactic(auto, unfolding(crate::specs::Numbers::all))]
fn erase_rows(
    alloc: Global,
    at: Span,
    rows: &[TypedRow],
    numbers: &mut Numbers,
) -> Result<Items<Row>, NoMemory>
    ensures erased { IfOk result (λ core. core ≡ (all (map (spec.row_at at) (map spec.row rows.now)) numbers.old).core) }
    ensures counted { IfOk result (λ _. numbers.new ≡ (all (map (spec.row_at at) (map spec.row rows.now)) numbers.old).next) }
{
    let mut made = Items::new(alloc);
    for row in rows {
        made.push(erase_row(alloc, at, row, numbers)?)?;
    }
    Ok(made)
}

#[cycle(erase)]
fn erase_row(
    alloc: Global,
    at: Span,
    row: &TypedRow,
    numbers: &mut Numbers,
) -> Result<Row, NoMemory>
    ensures erased { IfOk result (λ core. core ≡ (spec.row_at at (spec.row row.now) numbers.old).core) }
    ensures counted { IfOk result (λ _. numbers.new ≡ (spec.row_at at (spec.row row.now) numbers.old).next) }
{
    let binders = erase_binders(alloc, row.binders.as_slice())?;
    Ok(erase_outcome(alloc, at, &row.outcome, binders, numbers)?)
}

#[cycle(erase)]
fn erase_outcome(
    alloc: Global,
    at: Span,
    outcome: &TypedOutcome,
    binders: Items<CoreBinder>,
    numbers: &mut Numbers,
) -> Result<Row, NoMemory>
    ensures erased { IfOk result (λ core. core ≡ ((spec.outcome outcome.now).erased at binders numbers.old).core) }
    ensures counted { IfOk result (λ _. numbers.new ≡ ((spec.outcome outcome.now).erased at binders numbers.old).next) }
{
    match outcome {
        TypedOutcome::Always(body) => {
            let body = erase_expr(alloc, body, numbers)?;
            Ok(Row::Plain(alternative(binders, body)))
        }
        TypedOutcome::Guarded(branches) => {
            let binds = branches_bind(branches.as_slice());
            let branches = erase_branches(alloc, at, branches.as_slice(), numbers)?;
            Ok(row_of(alloc, at, binds, binders, branches)?)
        }
    }
}

#[cycle(erase)]
#[tactic(auto, unfolding(crate::specs::Numbers::all))]
fn erase_branches(
    alloc: Global,
    at: Span,
    branches: &[TypedBranch],
    numbers: &mut Numbers,
) -> Result<Items<Branch>, NoMemory>
    ensures erased { IfOk result (λ core. core ≡ (all (map (spec.tried_at at) (map spec.branch branches.now)) numbers.old).core) }
    ensures counted { IfOk result (λ _. numbers.new ≡ (all (map (spec.tried_at at) (map spec.branch branches.now)) numbers.old).next) }
{
    let mut made = Items::new(alloc);
    for branch in branches {
        made.push(erase_branch(alloc, at, branch, numbers)?)?;
    }
    Ok(made)
}

#[cycle(erase)]
fn erase_branch(
    alloc: Global,
    at: Span,
    branch: &TypedBranch,
    numbers: &mut Numbers,
) -> Result<Branch, NoMemory>
    ensures erased { IfOk result (λ core. core ≡ (spec.tried_at at (spec.branch branch.now) numbers.old).core) }
    ensures counted { IfOk result (λ _. numbers.new ≡ (spec.tried_at at (spec.branch branch.now) numbers.old).next) }
{
    let tests = erase_tests(alloc, at, branch.tests.as_slice(), numbers)?;
    let body = erase_expr(alloc, &branch.body, numbers)?;
    Ok(Branch { tests, body })
}

#[cycle(erase)]
#[tactic(auto, unfolding(crate::specs::Numbers::all))]
fn erase_tests(
    alloc: Global,
    at: Span,
    tests: &[TypedTest],
    numbers: &mut Numbers,
) -> Result<Items<Test>, NoMemory>
    ensures erased { IfOk result (λ core. core ≡ (all (map (spec.tried_at at) (map spec.test tests.now)) numbers.old).core) }
    ensures counted { IfOk result (λ _. numbers.new ≡ (all (map (spec.tried_at at) (map spec.test tests.now)) numbers.old).next) }
{
    let mut made = Items::new(alloc);
    for test in tests {
        made.push(erase_test(alloc, at, test, numbers)?)?;
    }
    Ok(made)
}

#[cycle(erase)]
fn erase_test(
    alloc: Global,
    at: Span,
    test: &TypedTest,
    numbers: &mut Numbers,
) -> Result<Test, NoMemory>
    ensures erased { IfOk result (λ core. core ≡ (spec.tried_at at (spec.test test.now) numbers.old).core) }
    ensures counted { IfOk result (λ _. numbers.new ≡ (spec.tried_at at (spec.test test.now) numbers.old).next) }
{
    match test {
        TypedTest::Holds(value) => {
            let value = erase_expr(alloc, value, numbers)?;
            Ok(Test {
                binder: true_binder(at),
                value,
            })
        }
        TypedTest::Binds(binder, value) => {
            let binder = erase_binder(alloc, binder)?;
            let value = erase_expr(alloc, value, numbers)?;
            Ok(Test { binder, value })
        }
    }
}

#[cycle(erase)]
#[tactic(auto, unfolding(crate::specs::Numbers::all))]
fn erase_groups(
    alloc: Global,
    groups: &[LocalGroup],
    numbers: &mut Numbers,
) -> Result<Items<CoreBind>, NoMemory>
    ensures erased { IfOk result (λ core. core ≡ (all (map spec.group groups.now) numbers.old).core) }
    ensures counted { IfOk result (λ _. numbers.new ≡ (all (map spec.group groups.now) numbers.old).next) }
{
    let mut made = Items::new(alloc);
    for group in groups {
        made.push(erase_group(alloc, group, numbers)?)?;
    }
    Ok(made)
}

#[cycle(erase)]
fn erase_group(
    alloc: Global,
    group: &LocalGroup,
    numbers: &mut Numbers,
) -> Result<CoreBind, NoMemory>
    ensures erased { IfOk result (λ core. core ≡ (spec.group group.now numbers.old).core) }
    ensures counted { IfOk result (λ _. numbers.new ≡ (spec.group group.now numbers.old).next) }
{
    match group {
        LocalGroup::NonRec(bind) => Ok(CoreBind::NonRec(erase_bind(alloc, bind, numbers)?)),
        LocalGroup::Rec(binds) => {
            Ok(CoreBind::Rec(erase_binds(alloc, binds.as_slice(), numbers)?))
        }
    }
}

#[cycle(erase)]
#[tactic(auto, unfolding(crate::specs::Numbers::all))]
fn erase_binds(
    alloc: Global,
    binds: &[LocalBind],
    numbers: &mut Numbers,
) -> Result<Items<CoreBinding>, NoMemory>
    ensures erased { IfOk result (λ core. core ≡ (all (map spec.bind binds.now) numbers.old).core) }
    ensures counted { IfOk result (λ _. numbers.new ≡ (all (map spec.bind binds.now) numbers.old).next) }
{
    let mut made = Items::new(alloc);
    for bind in binds {
        made.push(erase_bind(alloc, bind, numbers)?)?;
    }
    Ok(made)
}

#[cycle(erase)]
fn erase_bind(
    alloc: Global,
    bind: &LocalBind,
    numbers: &mut Numbers,
) -> Result<CoreBinding, NoMemory>
    ensures erased { IfOk result (λ core. core ≡ (spec.bind bind.now numbers.old).core) }
    ensures counted { IfOk result (λ _. numbers.new ≡ (spec.bind bind.now numbers.old).next) }
{
    let name = bind.name.clone()?;
    let body = erase_expr(alloc, &bind.body, numbers)?;
    Ok(CoreBinding {
        ann: Ann::plain(bind.ann.span),
        name,
        body,
    })
}
