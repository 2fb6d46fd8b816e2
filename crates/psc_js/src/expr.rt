//! Expressions.

ghost use Rattle.std.specs.Prelude.{◌≡◌, ◌++◌, IfOk, map, true, false};
ghost use Rattle.std.specs.String.{string_bytes};
ghost use Rattle.psc_js.specs.Expr as spec;
ghost use Rattle.psc_js.specs.Literal.{separated, joined};

use crate::append::{put, put_comma, put_integer, put_label, put_name, put_string, put_truth};
use crate::place::{put_field_of, put_subject, put_tests, put_variables};
use psc_js_tree::{
    JsAlternative, JsConst, JsExpr, JsField, JsGuarded, JsName, JsOutcome, JsParameter, JsPlaced,
    JsTest,
};
use psc_text::{Label, NoMemory, Text};
use std::alloc::Global;

/// Appends an expression.
#[cycle(expr)]
pub(crate) fn put_expr(alloc: Global, out: &mut String, expr: &JsExpr) -> Result<(), NoMemory>
    ensures { IfOk result (λ _. string_bytes out.new ≡ string_bytes out.old ++ spec.expr expr.now) }
{
    match expr {
        JsExpr::Integer(number) => put_integer(out, *number),
        JsExpr::Str(text) => put_string(alloc, out, text),
        JsExpr::Bool(truth) => put_truth(out, *truth),
        JsExpr::Array(items) => put_array(alloc, out, items.as_slice()),
        JsExpr::Record(fields) => put_record(alloc, out, fields.as_slice()),
        JsExpr::Access { subject, label } => put_access(alloc, out, subject.get(), label),
        JsExpr::Update { subject, updates } => {
            put_spread(alloc, out, subject.get())?;
            put_updates(alloc, out, updates.as_slice())
        }
        JsExpr::Lambda { parameter, body } => put_lambda(alloc, out, parameter, body.get()),
        JsExpr::Call { function, argument } => {
            put_expr(alloc, out, function.get())?;
            put_argument(alloc, out, argument.get())
        }
        JsExpr::Name(name) => put_used(out, name),
        JsExpr::Constructor { name, parameters } => {
            put_constructor(alloc, out, name, parameters.as_slice())
        }
        JsExpr::Let { consts, body } => {
            put_local_consts(alloc, out, consts.as_slice())?;
            put_result(alloc, out, body.get())
        }
        JsExpr::Case {
            subjects,
            alternatives,
        } => {
            put_case_subjects(alloc, out, subjects.as_slice())?;
            put_case_alternatives(alloc, out, alternatives.as_slice())
        }
    }
}

#[cycle(expr)]
fn put_array(alloc: Global, out: &mut String, items: &[JsExpr]) -> Result<(), NoMemory>
    ensures { IfOk result (λ _. string_bytes out.new ≡ string_bytes out.old ++ spec.array (separated false (map spec.expr items.now))) }
{
    put(out, "[")?;
    put_items(alloc, out, items)?;
    put(out, "]")
}

#[cycle(expr)]
#[tactic(auto, unfolding(crate::specs::Literal::separated))]
fn put_items(alloc: Global, out: &mut String, items: &[JsExpr]) -> Result<(), NoMemory>
    ensures { IfOk result (λ _. string_bytes out.new ≡ string_bytes out.old ++ separated false (map spec.expr items.now)) }
{
    let mut later = false;
    for item in items {
        put_comma(out, later)?;
        put_expr(alloc, out, item)?;
        later = true;
    }
    Ok(())
}

#[cycle(expr)]
fn put_record(alloc: Global, out: &mut String, fields: &[JsField]) -> Result<(), NoMemory>
    ensures { IfOk result (λ _. string_bytes out.new ≡ string_bytes out.old ++ spec.record_of (separated false (map spec.field fields.now))) }
{
    put(out, "({")?;
    put_fields(alloc, out, false, fields)?;
    put(out, "})")
}

#[cycle(expr)]
#[tactic(auto, unfolding(crate::specs::Literal::separated))]
fn put_fields(
    alloc: Global,
    out: &mut String,
    behind: bool,
    fields: &[JsField],
) -> Result<(), NoMemory>
    ensures { IfOk result (λ _. string_bytes out.new ≡ string_bytes out.old ++ separated behind (map spec.field fields.now)) }
{
    let mut later = behind;
    for field in fields {
        put_comma(out, later)?;
        put_field(alloc, out, field)?;
        later = true;
    }
    Ok(())
}

#[cycle(expr)]
fn put_field(alloc: Global, out: &mut String, field: &JsField) -> Result<(), NoMemory>
    ensures { IfOk result (λ _. string_bytes out.new ≡ string_bytes out.old ++ spec.field field.now) }
{
    put_pair(alloc, out, &field.label, &field.value)
}

#[cycle(expr)]
fn put_pair(alloc: Global, out: &mut String, label: &Label, value: &JsExpr) -> Result<(), NoMemory>
    ensures { IfOk result (λ _. string_bytes out.new ≡ string_bytes out.old ++ spec.pair label.now (spec.expr value.now)) }
{
    put_label(alloc, out, label)?;
    put(out, ": ")?;
    put_expr(alloc, out, value)
}

#[cycle(expr)]
fn put_access(
    alloc: Global,
    out: &mut String,
    subject: &JsExpr,
    label: &Label,
) -> Result<(), NoMemory>
    ensures { IfOk result (λ _. string_bytes out.new ≡ string_bytes out.old ++ spec.access (spec.expr subject.now) label.now) }
{
    put_expr(alloc, out, subject)?;
    put_field_of(alloc, out, label)
}

#[cycle(expr)]
fn put_spread(alloc: Global, out: &mut String, subject: &JsExpr) -> Result<(), NoMemory>
    ensures { IfOk result (λ _. string_bytes out.new ≡ string_bytes out.old ++ spec.spread (spec.expr subject.now)) }
{
    put(out, "({...")?;
    put_expr(alloc, out, subject)
}

#[cycle(expr)]
fn put_updates(alloc: Global, out: &mut String, updates: &[JsField]) -> Result<(), NoMemory>
    ensures { IfOk result (λ _. string_bytes out.new ≡ string_bytes out.old ++ spec.updates_of (separated true (map spec.field updates.now))) }
{
    put_fields(alloc, out, true, updates)?;
    put(out, "})")
}

#[cycle(expr)]
fn put_lambda(
    alloc: Global,
    out: &mut String,
    parameter: &Text,
    body: &JsExpr,
) -> Result<(), NoMemory>
    ensures { IfOk result (λ _. string_bytes out.new ≡ string_bytes out.old ++ spec.lambda parameter.now (spec.expr body.now)) }
{
    put_parameter(out, parameter)?;
    put_expr(alloc, out, body)?;
    put(out, ")")
}

fn put_parameter(out: &mut String, name: &Text) -> Result<(), NoMemory>
    ensures { IfOk result (λ _. string_bytes out.new ≡ string_bytes out.old ++ spec.parameter name.now) }
{
    put(out, "((")?;
    put_name(out, name)?;
    put(out, ") => ")
}

#[cycle(expr)]
fn put_argument(alloc: Global, out: &mut String, argument: &JsExpr) -> Result<(), NoMemory>
    ensures { IfOk result (λ _. string_bytes out.new ≡ string_bytes out.old ++ spec.argument (spec.expr argument.now)) }
{
    put(out, "(")?;
    put_expr(alloc, out, argument)?;
    put(out, ")")
}

fn put_used(out: &mut String, name: &JsName) -> Result<(), NoMemory>
    ensures { IfOk result (λ _. string_bytes out.new ≡ string_bytes out.old ++ spec.used name.now) }
{
    match name {
        JsName::Own(name) => put_name(out, name),
        JsName::Imported { alias, name } => put_imported(out, alias, name),
        JsName::Undefined => put(out, "undefined"),
    }
}

fn put_imported(out: &mut String, alias: &Text, name: &Text) -> Result<(), NoMemory>
    ensures { IfOk result (λ _. string_bytes out.new ≡ string_bytes out.old ++ spec.imported alias.now name.now) }
{
    put_name(out, alias)?;
    put(out, ".")?;
    put_name(out, name)
}

fn put_constructor(
    alloc: Global,
    out: &mut String,
    name: &Text,
    parameters: &[JsParameter],
) -> Result<(), NoMemory>
    ensures { IfOk result (λ _. string_bytes out.new ≡ string_bytes out.old ++ spec.constructor name.now parameters.now) }
{
    put_parameters(out, parameters)?;
    put(out, "({\"$\": ")?;
    put_string(alloc, out, name)?;
    put_members(alloc, out, parameters)?;
    put(out, "})")?;
    put_ends(out, parameters)
}

#[tactic(auto, unfolding(crate::specs::Literal::joined))]
fn put_parameters(out: &mut String, parameters: &[JsParameter]) -> Result<(), NoMemory>
    ensures { IfOk result (λ _. string_bytes out.new ≡ string_bytes out.old ++ joined (map spec.parameter_of parameters.now)) }
{
    for row in parameters {
        put_parameter(out, &row.name)?;
    }
    Ok(())
}

#[tactic(auto, unfolding(crate::specs::Literal::joined))]
fn put_members(alloc: Global, out: &mut String, parameters: &[JsParameter]) -> Result<(), NoMemory>
    ensures { IfOk result (λ _. string_bytes out.new ≡ string_bytes out.old ++ joined (map spec.member_of parameters.now)) }
{
    for row in parameters {
        put_member(alloc, out, &row.label, &row.name)?;
    }
    Ok(())
}

fn put_member(alloc: Global, out: &mut String, label: &Text, name: &Text) -> Result<(), NoMemory>
    ensures { IfOk result (λ _. string_bytes out.new ≡ string_bytes out.old ++ spec.member label.now name.now) }
{
    put(out, ", ")?;
    put_string(alloc, out, label)?;
    put(out, ": ")?;
    put_name(out, name)
}

#[tactic(auto, unfolding(crate::specs::Literal::joined))]
fn put_ends(out: &mut String, parameters: &[JsParameter]) -> Result<(), NoMemory>
    ensures { IfOk result (λ _. string_bytes out.new ≡ string_bytes out.old ++ joined (map spec.end_of parameters.now)) }
{
    for _row in parameters {
        put(out, ")")?;
    }
    Ok(())
}

#[cycle(expr)]
fn put_local_consts(alloc: Global, out: &mut String, consts: &[JsConst]) -> Result<(), NoMemory>
    ensures { IfOk result (λ _. string_bytes out.new ≡ string_bytes out.old ++ spec.local_consts (joined (map spec.const_of consts.now))) }
{
    put(out, "(() => { ")?;
    put_consts(alloc, out, consts)
}

#[cycle(expr)]
#[tactic(auto, unfolding(crate::specs::Literal::joined))]
fn put_consts(alloc: Global, out: &mut String, consts: &[JsConst]) -> Result<(), NoMemory>
    ensures { IfOk result (λ _. string_bytes out.new ≡ string_bytes out.old ++ joined (map spec.const_of consts.now)) }
{
    for row in consts {
        put_const(alloc, out, row)?;
    }
    Ok(())
}

#[cycle(expr)]
fn put_const(alloc: Global, out: &mut String, row: &JsConst) -> Result<(), NoMemory>
    ensures { IfOk result (λ _. string_bytes out.new ≡ string_bytes out.old ++ spec.const_of row.now) }
{
    put_const_parts(alloc, out, &row.name, &row.value)
}

/// Appends a constant of an expression.
#[cycle(expr)]
pub(crate) fn put_const_parts(
    alloc: Global,
    out: &mut String,
    name: &Text,
    value: &JsExpr,
) -> Result<(), NoMemory>
    ensures { IfOk result (λ _. string_bytes out.new ≡ string_bytes out.old ++ spec.const_parts name.now (spec.expr value.now)) }
{
    put(out, "const ")?;
    put_name(out, name)?;
    put(out, " = ")?;
    put_expr(alloc, out, value)?;
    put(out, "; ")
}

#[cycle(expr)]
fn put_result(alloc: Global, out: &mut String, body: &JsExpr) -> Result<(), NoMemory>
    ensures { IfOk result (λ _. string_bytes out.new ≡ string_bytes out.old ++ spec.result_of (spec.expr body.now)) }
{
    put_return(alloc, out, body)?;
    put(out, "})()")
}

#[cycle(expr)]
fn put_return(alloc: Global, out: &mut String, body: &JsExpr) -> Result<(), NoMemory>
    ensures { IfOk result (λ _. string_bytes out.new ≡ string_bytes out.old ++ spec.return_of (spec.expr body.now)) }
{
    put(out, "return ")?;
    put_expr(alloc, out, body)?;
    put(out, "; ")
}

#[cycle(expr)]
fn put_case_subjects(alloc: Global, out: &mut String, subjects: &[JsExpr]) -> Result<(), NoMemory>
    ensures { IfOk result (λ _. string_bytes out.new ≡ string_bytes out.old ++ spec.case_subjects (spec.subjects_from 0 (map spec.expr subjects.now))) }
{
    put(out, "(() => { ")?;
    put_subjects(alloc, out, subjects)
}

#[cycle(expr)]
#[tactic(auto, unfolding(crate::specs::Expr::subjects_from))]
fn put_subjects(alloc: Global, out: &mut String, subjects: &[JsExpr]) -> Result<(), NoMemory>
    ensures { IfOk result (λ _. string_bytes out.new ≡ string_bytes out.old ++ spec.subjects_from 0 (map spec.expr subjects.now)) }
{
    for (number, subject) in subjects.iter().enumerate() {
        put_case_subject(alloc, out, number, subject)?;
    }
    Ok(())
}

#[cycle(expr)]
fn put_case_subject(
    alloc: Global,
    out: &mut String,
    number: usize,
    subject: &JsExpr,
) -> Result<(), NoMemory>
    ensures { IfOk result (λ _. string_bytes out.new ≡ string_bytes out.old ++ spec.case_subject number (spec.expr subject.now)) }
{
    put(out, "const ")?;
    put_subject(out, number)?;
    put(out, " = ")?;
    put_expr(alloc, out, subject)?;
    put(out, "; ")
}

#[cycle(expr)]
fn put_case_alternatives(
    alloc: Global,
    out: &mut String,
    alternatives: &[JsAlternative],
) -> Result<(), NoMemory>
    ensures { IfOk result (λ _. string_bytes out.new ≡ string_bytes out.old ++ spec.case_alternatives (joined (map spec.alternative alternatives.now))) }
{
    put_alternatives(alloc, out, alternatives)?;
    put(out, "throw new Error(\"Failed pattern match\"); })()")
}

#[cycle(expr)]
#[tactic(auto, unfolding(crate::specs::Literal::joined))]
fn put_alternatives(
    alloc: Global,
    out: &mut String,
    alternatives: &[JsAlternative],
) -> Result<(), NoMemory>
    ensures { IfOk result (λ _. string_bytes out.new ≡ string_bytes out.old ++ joined (map spec.alternative alternatives.now)) }
{
    for alternative in alternatives {
        put_alternative(alloc, out, alternative)?;
    }
    Ok(())
}

#[cycle(expr)]
fn put_alternative(
    alloc: Global,
    out: &mut String,
    alternative: &JsAlternative,
) -> Result<(), NoMemory>
    ensures { IfOk result (λ _. string_bytes out.new ≡ string_bytes out.old ++ spec.alternative alternative.now) }
{
    put_alternative_parts(
        alloc,
        out,
        &alternative.outcome,
        alternative.tests.as_slice(),
        alternative.variables.as_slice(),
    )
}

#[cycle(expr)]
fn put_alternative_parts(
    alloc: Global,
    out: &mut String,
    outcome: &JsOutcome,
    tests: &[JsTest],
    variables: &[JsPlaced],
) -> Result<(), NoMemory>
    ensures { IfOk result (λ _. string_bytes out.new ≡ string_bytes out.old ++ spec.alternative_parts tests.now variables.now (spec.outcome outcome.now)) }
{
    put_condition(alloc, out, tests, variables)?;
    put_body(alloc, out, outcome)
}

fn put_condition(
    alloc: Global,
    out: &mut String,
    tests: &[JsTest],
    variables: &[JsPlaced],
) -> Result<(), NoMemory>
    ensures { IfOk result (λ _. string_bytes out.new ≡ string_bytes out.old ++ spec.condition tests.now variables.now) }
{
    put(out, "if (")?;
    put_tests(alloc, out, tests)?;
    put(out, ") { ")?;
    put_variables(alloc, out, variables)
}

#[cycle(expr)]
fn put_body(alloc: Global, out: &mut String, outcome: &JsOutcome) -> Result<(), NoMemory>
    ensures { IfOk result (λ _. string_bytes out.new ≡ string_bytes out.old ++ spec.body (spec.outcome outcome.now)) }
{
    put_outcome(alloc, out, outcome)?;
    put(out, "} ")
}

#[cycle(expr)]
fn put_outcome(alloc: Global, out: &mut String, outcome: &JsOutcome) -> Result<(), NoMemory>
    ensures { IfOk result (λ _. string_bytes out.new ≡ string_bytes out.old ++ spec.outcome outcome.now) }
{
    match outcome {
        JsOutcome::Always(body) => put_return(alloc, out, body),
        JsOutcome::Guarded(parts) => put_guarded_ones(alloc, out, parts.as_slice()),
    }
}

#[cycle(expr)]
#[tactic(auto, unfolding(crate::specs::Literal::joined))]
fn put_guarded_ones(alloc: Global, out: &mut String, parts: &[JsGuarded]) -> Result<(), NoMemory>
    ensures { IfOk result (λ _. string_bytes out.new ≡ string_bytes out.old ++ joined (map spec.guarded parts.now)) }
{
    for part in parts {
        put_guarded(alloc, out, part)?;
    }
    Ok(())
}

#[cycle(expr)]
fn put_guarded(alloc: Global, out: &mut String, part: &JsGuarded) -> Result<(), NoMemory>
    ensures { IfOk result (λ _. string_bytes out.new ≡ string_bytes out.old ++ spec.guarded part.now) }
{
    put_guard(alloc, out, &part.guard)?;
    put_guarded_body(alloc, out, &part.body)
}

#[cycle(expr)]
fn put_guard(alloc: Global, out: &mut String, guard: &JsExpr) -> Result<(), NoMemory>
    ensures { IfOk result (λ _. string_bytes out.new ≡ string_bytes out.old ++ spec.guard (spec.expr guard.now)) }
{
    put(out, "if (")?;
    put_expr(alloc, out, guard)?;
    put(out, ") { ")
}

#[cycle(expr)]
fn put_guarded_body(alloc: Global, out: &mut String, body: &JsExpr) -> Result<(), NoMemory>
    ensures { IfOk result (λ _. string_bytes out.new ≡ string_bytes out.old ++ spec.body (spec.return_of (spec.expr body.now))) }
{
    put_return(alloc, out, body)?;
    put(out, "} ")
}
