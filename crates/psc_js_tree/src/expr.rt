//! Expressions and local bindings.

ghost use Rattle.std.specs.Prelude.{◌≡◌, ◌++◌, ◌∷◌, [], IfOk, map};
ghost use Rattle.psc_js_tree.specs.Expr as spec;
ghost use Rattle.psc_js_tree.specs.Binder as of_binder;
ghost use Rattle.psc_js_tree.specs.Scope.{scope, local_name};

use crate::binder::{add_tests, add_variables, text_of};
use crate::home::{Home, local_ident, used};
use crate::js::{
    JsAlternative, JsConst, JsExpr, JsField, JsGuarded, JsOutcome, JsParameter, JsPlace, JsPlaced,
    JsTest,
};
use psc_core_tree::{
    CoreAlternative, CoreBind, CoreBinder, CoreBinding, CoreExpr, CoreGuarded, CoreOutcome, Field,
    Literal,
};
use psc_items::Shared;
use psc_text::{Ident, NoMemory, Text};
use sqlite_items::{Boxed, Items};
use std::alloc::Global;

/// The JavaScript of an expression.
#[cycle(js)]
pub(crate) fn js_expr(alloc: Global, home: &Home, expr: &CoreExpr) -> Result<JsExpr, NoMemory>
    ensures { IfOk result (λ js. js ≡ spec.expr (scope home.now) expr.now) }
{
    match expr {
        CoreExpr::Literal { ann: _, value } => js_literal(alloc, home, value),
        CoreExpr::Constructor {
            ann: _,
            type_name: _,
            constructor_name,
            field_names,
        } => js_constructor(alloc, home, constructor_name, field_names.as_slice()),
        CoreExpr::Accessor {
            ann: _,
            subject,
            label,
        } => {
            let label = label.clone()?;
            let subject = boxed_expr(alloc, home, subject.get())?;
            Ok(JsExpr::Access { subject, label })
        }
        CoreExpr::ObjectUpdate {
            ann: _,
            subject,
            updates,
        } => {
            let subject = boxed_expr(alloc, home, subject.get())?;
            let updates = js_fields(alloc, home, updates.as_slice())?;
            Ok(JsExpr::Update { subject, updates })
        }
        CoreExpr::Abs {
            ann: _,
            argument,
            body,
        } => {
            let parameter = local_ident(alloc, home, argument)?;
            let body = boxed_expr(alloc, home, body.get())?;
            Ok(JsExpr::Lambda { parameter, body })
        }
        CoreExpr::App {
            ann: _,
            function,
            argument,
        } => {
            let function = boxed_expr(alloc, home, function.get())?;
            let argument = boxed_expr(alloc, home, argument.get())?;
            Ok(JsExpr::Call { function, argument })
        }
        CoreExpr::Var { ann: _, name } => Ok(JsExpr::Name(used(alloc, home, name)?)),
        CoreExpr::Case {
            ann: _,
            subjects,
            alternatives,
        } => {
            let subjects = js_exprs(alloc, home, subjects.as_slice())?;
            let alternatives = js_alternatives(alloc, home, alternatives.as_slice())?;
            Ok(JsExpr::Case {
                subjects,
                alternatives,
            })
        }
        CoreExpr::Let {
            ann: _,
            binds,
            body,
        } => {
            let consts = js_locals(alloc, home, binds.as_slice())?;
            let body = boxed_expr(alloc, home, body.get())?;
            Ok(JsExpr::Let { consts, body })
        }
    }
}

#[cycle(js)]
fn boxed_expr(alloc: Global, home: &Home, expr: &CoreExpr) -> Result<Boxed<JsExpr>, NoMemory>
    ensures { IfOk result (λ js. js ≡ spec.expr (scope home.now) expr.now) }
{
    Ok(Boxed::new(alloc, js_expr(alloc, home, expr)?)?)
}

#[cycle(js)]
fn js_exprs(alloc: Global, home: &Home, exprs: &[CoreExpr]) -> Result<Items<JsExpr>, NoMemory>
    ensures { IfOk result (λ js. js ≡ map (spec.expr (scope home.now)) exprs.now) }
{
    let mut made = Items::new(alloc);
    for expr in exprs {
        made.push(js_expr(alloc, home, expr)?)?;
    }
    Ok(made)
}

#[cycle(js)]
fn js_literal(alloc: Global, home: &Home, literal: &Literal) -> Result<JsExpr, NoMemory>
    ensures { IfOk result (λ js. js ≡ spec.literal (scope home.now) literal.now) }
{
    match literal {
        Literal::Int(number) => Ok(JsExpr::Integer(*number)),
        Literal::Str(text) => Ok(JsExpr::Str(text.clone()?)),
        Literal::Char(letter) => Ok(JsExpr::Str(text_of(alloc, *letter)?)),
        Literal::Bool(truth) => Ok(JsExpr::Bool(*truth)),
        Literal::Array(items) => Ok(JsExpr::Array(js_exprs(alloc, home, items.as_slice())?)),
        Literal::Object(fields) => Ok(JsExpr::Record(js_fields(alloc, home, fields.as_slice())?)),
    }
}

#[cycle(js)]
fn js_fields(alloc: Global, home: &Home, fields: &[Field]) -> Result<Items<JsField>, NoMemory>
    ensures { IfOk result (λ js. js ≡ map (spec.field (scope home.now)) fields.now) }
{
    let mut made = Items::new(alloc);
    for field in fields {
        made.push(js_field(alloc, home, field)?)?;
    }
    Ok(made)
}

#[cycle(js)]
fn js_field(alloc: Global, home: &Home, field: &Field) -> Result<JsField, NoMemory>
    ensures { IfOk result (λ js. js ≡ spec.field (scope home.now) field.now) }
{
    let label = field.label.clone()?;
    let value = js_expr(alloc, home, &field.value)?;
    Ok(JsField { label, value })
}

fn parameter(alloc: Global, home: &Home, name: &Ident) -> Result<JsParameter, NoMemory>
    ensures { IfOk result (λ js. js ≡ spec.parameter (scope home.now) name.now) }
{
    let label = name.0.clone()?;
    let name = local_ident(alloc, home, name)?;
    Ok(JsParameter { label, name })
}

fn parameters(alloc: Global, home: &Home, names: &[Ident]) -> Result<Items<JsParameter>, NoMemory>
    ensures { IfOk result (λ js. js ≡ map (spec.parameter (scope home.now)) names.now) }
{
    let mut made = Items::new(alloc);
    for name in names {
        made.push(parameter(alloc, home, name)?)?;
    }
    Ok(made)
}

fn js_constructor(
    alloc: Global,
    home: &Home,
    name: &Text,
    fields: &[Ident],
) -> Result<JsExpr, NoMemory>
    ensures { IfOk result (λ js. js ≡ spec.constructor (scope home.now) name.now fields.now) }
{
    let name = name.clone()?;
    let parameters = parameters(alloc, home, fields)?;
    Ok(JsExpr::Constructor { name, parameters })
}

#[cycle(js)]
fn js_alternatives(
    alloc: Global,
    home: &Home,
    alternatives: &[CoreAlternative],
) -> Result<Items<JsAlternative>, NoMemory>
    ensures { IfOk result (λ js. js ≡ map (spec.alternative (scope home.now)) alternatives.now) }
{
    let mut made = Items::new(alloc);
    for alternative in alternatives {
        made.push(js_alternative(alloc, home, alternative)?)?;
    }
    Ok(made)
}

#[cycle(js)]
fn js_alternative(
    alloc: Global,
    home: &Home,
    alternative: &CoreAlternative,
) -> Result<JsAlternative, NoMemory>
    ensures { IfOk result (λ js. js ≡ spec.alternative (scope home.now) alternative.now) }
{
    let outcome = js_outcome(alloc, home, &alternative.outcome)?;
    let tests = tests_of(alloc, alternative.binders.as_slice())?;
    let variables = variables_of(alloc, home, alternative.binders.as_slice())?;
    Ok(JsAlternative {
        tests,
        variables,
        outcome,
    })
}

fn subject(alloc: Global, number: usize) -> Result<Shared<JsPlace>, NoMemory>
    ensures { IfOk result (λ place. place ≡ spec.subject number) }
{
    Ok(Shared::new(alloc, JsPlace::Subject(number))?)
}

#[tactic(auto, unfolding(crate::specs::Expr::at_subjects))]
fn tests_of(alloc: Global, binders: &[CoreBinder]) -> Result<Items<JsTest>, NoMemory>
    ensures { IfOk result (λ tests. tests ≡ spec.at_subjects 0 (map of_binder.tests binders.now)) }
{
    let mut tests = Items::new(alloc);
    for (number, binder) in binders.iter().enumerate() {
        add_tests(alloc, binder, &subject(alloc, number)?, &mut tests)?;
    }
    Ok(tests)
}

#[tactic(auto, unfolding(crate::specs::Expr::at_subjects))]
fn variables_of(
    alloc: Global,
    home: &Home,
    binders: &[CoreBinder],
) -> Result<Items<JsPlaced>, NoMemory>
    ensures { IfOk result (λ variables. variables ≡ spec.at_subjects 0 (map (of_binder.variables (scope home.now)) binders.now)) }
{
    let mut variables = Items::new(alloc);
    for (number, binder) in binders.iter().enumerate() {
        add_variables(
            alloc,
            home,
            binder,
            &subject(alloc, number)?,
            &mut variables,
        )?;
    }
    Ok(variables)
}

#[cycle(js)]
fn js_outcome(alloc: Global, home: &Home, outcome: &CoreOutcome) -> Result<JsOutcome, NoMemory>
    ensures { IfOk result (λ js. js ≡ spec.outcome (scope home.now) outcome.now) }
{
    match outcome {
        CoreOutcome::Always(body) => Ok(JsOutcome::Always(js_expr(alloc, home, body)?)),
        CoreOutcome::Guarded(parts) => {
            Ok(JsOutcome::Guarded(js_guarded_ones(alloc, home, parts.as_slice())?))
        }
    }
}

#[cycle(js)]
fn js_guarded_ones(
    alloc: Global,
    home: &Home,
    parts: &[CoreGuarded],
) -> Result<Items<JsGuarded>, NoMemory>
    ensures { IfOk result (λ js. js ≡ map (spec.guarded (scope home.now)) parts.now) }
{
    let mut made = Items::new(alloc);
    for part in parts {
        made.push(js_guarded(alloc, home, part)?)?;
    }
    Ok(made)
}

#[cycle(js)]
fn js_guarded(alloc: Global, home: &Home, part: &CoreGuarded) -> Result<JsGuarded, NoMemory>
    ensures { IfOk result (λ js. js ≡ spec.guarded (scope home.now) part.now) }
{
    let guard = js_expr(alloc, home, &part.guard)?;
    let body = js_expr(alloc, home, &part.body)?;
    Ok(JsGuarded { guard, body })
}

/// The constants of local bindings.
#[cycle(js)]
#[tactic(auto, unfolding(crate::specs::Expr::consts))]
fn js_locals(alloc: Global, home: &Home, binds: &[CoreBind]) -> Result<Items<JsConst>, NoMemory>
    ensures { IfOk result (λ js. js ≡ spec.consts (local_name (scope home.now)) (map (spec.bind (scope home.now)) binds.now)) }
{
    let mut consts = Items::new(alloc);
    for bind in binds {
        add_locals(alloc, home, bind, &mut consts)?;
    }
    Ok(consts)
}

#[cycle(js)]
fn add_locals(
    alloc: Global,
    home: &Home,
    bind: &CoreBind,
    consts: &mut Items<JsConst>,
) -> Result<(), NoMemory>
    ensures { IfOk result (λ _. consts.new ≡ consts.old ++ map (spec.const_of (local_name (scope home.now))) (spec.bind (scope home.now) bind.now)) }
{
    match bind {
        CoreBind::NonRec(binding) => add_local(alloc, home, binding, consts),
        CoreBind::Rec(bindings) => add_local_group(alloc, home, bindings.as_slice(), consts),
    }
}

#[cycle(js)]
fn add_local_group(
    alloc: Global,
    home: &Home,
    bindings: &[CoreBinding],
    consts: &mut Items<JsConst>,
) -> Result<(), NoMemory>
    ensures { IfOk result (λ _. consts.new ≡ consts.old ++ map (spec.const_of (local_name (scope home.now))) (map (spec.binding (scope home.now)) bindings.now)) }
{
    for binding in bindings {
        add_local(alloc, home, binding, consts)?;
    }
    Ok(())
}

#[cycle(js)]
fn add_local(
    alloc: Global,
    home: &Home,
    binding: &CoreBinding,
    consts: &mut Items<JsConst>,
) -> Result<(), NoMemory>
    ensures { IfOk result (λ _. consts.new ≡ consts.old ++ spec.const_of (local_name (scope home.now)) (spec.binding (scope home.now) binding.now) ∷ []) }
{
    let name = local_ident(alloc, home, &binding.name)?;
    let value = js_expr(alloc, home, &binding.body)?;
    consts.push(JsConst { name, value })?;
    Ok(())
}
