//! Expressions and bindings.

ghost use Rattle.std.specs.Prelude.{◌≡◌, ◌++◌, IfOk, map, [], codes};
ghost use Rattle.std.specs.String.{string_bytes};
ghost use Rattle.psc_corefn.specs.Expr as spec;
ghost use Rattle.psc_corefn.specs.Binder.{binder};
ghost use Rattle.psc_corefn.specs.Json.{list};
ghost use Rattle.psc_corefn.specs.Literal as literals;

use crate::ann::put_ann;
use crate::append::{put, put_comma, put_ident, put_idents, put_label, put_qualified, put_text};
use crate::binder::put_binders;
use crate::literal::{
    put_boolean_literal, put_character_literal, put_integer_literal, put_text_literal,
};
use psc_core_tree::{
    Ann, CoreAlternative, CoreBind, CoreBinder, CoreBinding, CoreExpr, CoreGuarded, CoreOutcome,
    Field, Literal,
};
use psc_text::{Ident, Label, NoMemory, Qualified, Text};
use std::alloc::Global;

/// Appends an expression.
#[cycle(expr)]
pub(crate) fn put_expr(alloc: Global, out: &mut String, expr: &CoreExpr) -> Result<(), NoMemory>
    ensures { IfOk result (λ _. string_bytes out.new ≡ string_bytes out.old ++ spec.expr expr.now) }
{
    match expr {
        CoreExpr::Literal { ann, value } => put_literal_expr(alloc, out, ann, value),
        CoreExpr::Constructor {
            ann,
            type_name,
            constructor_name,
            field_names,
        } => {
            put_constructor(
                alloc,
                out,
                ann,
                type_name,
                constructor_name,
                field_names.as_slice(),
            )
        }
        CoreExpr::Accessor {
            ann,
            subject,
            label,
        } => { put_accessor(alloc, out, ann, subject.get(), label) }
        CoreExpr::ObjectUpdate {
            ann,
            subject,
            updates,
        } => {
            put_subject_of_update(alloc, out, ann, subject.get())?;
            put_updates(alloc, out, updates.as_slice())
        }
        CoreExpr::Abs {
            ann,
            argument,
            body,
        } => put_abs(alloc, out, ann, argument, body.get()),
        CoreExpr::App {
            ann,
            function,
            argument,
        } => {
            put_abstraction(alloc, out, function.get())?;
            put_argument(alloc, out, ann, argument.get())
        }
        CoreExpr::Var { ann, name } => put_var(alloc, out, ann, name),
        CoreExpr::Case {
            ann,
            subjects,
            alternatives,
        } => {
            put_alternatives_of(alloc, out, ann, alternatives.as_slice())?;
            put_subjects(alloc, out, subjects.as_slice())
        }
        CoreExpr::Let { ann, binds, body } => {
            put_binds_of(alloc, out, ann, binds.as_slice())?;
            put_body(alloc, out, body.get())
        }
    }
}

#[cycle(expr)]
#[tactic(auto, unfolding(crate::specs::Json::list, crate::specs::Json::rest_of_list))]
fn put_exprs(alloc: Global, out: &mut String, exprs: &[CoreExpr]) -> Result<(), NoMemory>
    ensures { IfOk result (λ _. string_bytes out.new ≡ string_bytes out.old ++ list (map spec.expr exprs.now)) }
{
    put(out, "[")?;
    let mut later = false;
    for expr in exprs {
        put_comma(out, later)?;
        put_expr(alloc, out, expr)?;
        later = true;
    }
    put(out, "]")
}

#[cycle(expr)]
fn put_literal_expr(
    alloc: Global,
    out: &mut String,
    ann: &Ann,
    literal: &Literal,
) -> Result<(), NoMemory>
    ensures { IfOk result (λ _. string_bytes out.new ≡ string_bytes out.old ++ spec.literal_expr ann.now (spec.literal literal.now)) }
{
    put(out, "{\"annotation\":")?;
    put_ann(alloc, out, ann)?;
    put(out, ",\"type\":\"Literal\",\"value\":")?;
    put_literal(alloc, out, literal)?;
    put(out, "}")
}

#[cycle(expr)]
fn put_literal(alloc: Global, out: &mut String, literal: &Literal) -> Result<(), NoMemory>
    ensures { IfOk result (λ _. string_bytes out.new ≡ string_bytes out.old ++ spec.literal literal.now) }
{
    match literal {
        Literal::Int(number) => put_integer_literal(out, *number),
        Literal::Str(text) => put_text_literal(alloc, out, text.as_str()),
        Literal::Char(letter) => put_character_literal(alloc, out, *letter),
        Literal::Bool(truth) => put_boolean_literal(out, *truth),
        Literal::Array(items) => put_array(alloc, out, items.as_slice()),
        Literal::Object(fields) => put_object(alloc, out, fields.as_slice()),
    }
}

#[cycle(expr)]
fn put_array(alloc: Global, out: &mut String, items: &[CoreExpr]) -> Result<(), NoMemory>
    ensures { IfOk result (λ _. string_bytes out.new ≡ string_bytes out.old ++ literals.array (list (map spec.expr items.now))) }
{
    put(out, "{\"literalType\":\"ArrayLiteral\",\"value\":")?;
    put_exprs(alloc, out, items)?;
    put(out, "}")
}

#[cycle(expr)]
fn put_object(alloc: Global, out: &mut String, fields: &[Field]) -> Result<(), NoMemory>
    ensures { IfOk result (λ _. string_bytes out.new ≡ string_bytes out.old ++ literals.object (list (map spec.field fields.now))) }
{
    put(out, "{\"literalType\":\"ObjectLiteral\",\"value\":")?;
    put_fields(alloc, out, fields)?;
    put(out, "}")
}

#[cycle(expr)]
#[tactic(auto, unfolding(crate::specs::Json::list, crate::specs::Json::rest_of_list))]
fn put_fields(alloc: Global, out: &mut String, fields: &[Field]) -> Result<(), NoMemory>
    ensures { IfOk result (λ _. string_bytes out.new ≡ string_bytes out.old ++ list (map spec.field fields.now)) }
{
    put(out, "[")?;
    let mut later = false;
    for field in fields {
        put_comma(out, later)?;
        put_field(alloc, out, field)?;
        later = true;
    }
    put(out, "]")
}

#[cycle(expr)]
fn put_field(alloc: Global, out: &mut String, field: &Field) -> Result<(), NoMemory>
    ensures { IfOk result (λ _. string_bytes out.new ≡ string_bytes out.old ++ spec.field field.now) }
{
    put_pair(alloc, out, &field.label, &field.value)
}

#[cycle(expr)]
fn put_pair(
    alloc: Global,
    out: &mut String,
    label: &Label,
    value: &CoreExpr,
) -> Result<(), NoMemory>
    ensures { IfOk result (λ _. string_bytes out.new ≡ string_bytes out.old ++ literals.pair label.now (spec.expr value.now)) }
{
    put(out, "[")?;
    put_label(alloc, out, label)?;
    put(out, ",")?;
    put_expr(alloc, out, value)?;
    put(out, "]")
}

fn put_constructor(
    alloc: Global,
    out: &mut String,
    ann: &Ann,
    type_name: &Text,
    name: &Text,
    fields: &[Ident],
) -> Result<(), NoMemory>
    ensures { IfOk result (λ _. string_bytes out.new ≡ string_bytes out.old ++ spec.constructor ann.now type_name.now name.now fields.now) }
{
    put(out, "{\"annotation\":")?;
    put_ann(alloc, out, ann)?;
    put(out, ",\"constructorName\":")?;
    put_text(alloc, out, name)?;
    put(out, ",\"fieldNames\":")?;
    put_idents(alloc, out, fields)?;
    put(out, ",\"type\":\"Constructor\",\"typeName\":")?;
    put_text(alloc, out, type_name)?;
    put(out, "}")
}

#[cycle(expr)]
fn put_accessor(
    alloc: Global,
    out: &mut String,
    ann: &Ann,
    subject: &CoreExpr,
    label: &Label,
) -> Result<(), NoMemory>
    ensures { IfOk result (λ _. string_bytes out.new ≡ string_bytes out.old ++ spec.accessor ann.now (spec.expr subject.now) label.now) }
{
    put(out, "{\"annotation\":")?;
    put_ann(alloc, out, ann)?;
    put(out, ",\"expression\":")?;
    put_expr(alloc, out, subject)?;
    put(out, ",\"fieldName\":")?;
    put_label(alloc, out, label)?;
    put(out, ",\"type\":\"Accessor\"}")
}

#[cycle(expr)]
fn put_subject_of_update(
    alloc: Global,
    out: &mut String,
    ann: &Ann,
    subject: &CoreExpr,
) -> Result<(), NoMemory>
    ensures { IfOk result (λ _. string_bytes out.new ≡ string_bytes out.old ++ spec.subject_of_update ann.now (spec.expr subject.now)) }
{
    put(out, "{\"annotation\":")?;
    put_ann(alloc, out, ann)?;
    put(out, ",\"expression\":")?;
    put_expr(alloc, out, subject)
}

#[cycle(expr)]
fn put_updates(alloc: Global, out: &mut String, updates: &[Field]) -> Result<(), NoMemory>
    ensures { IfOk result (λ _. string_bytes out.new ≡ string_bytes out.old ++ spec.updates_of (list (map spec.field updates.now))) }
{
    put(out, ",\"type\":\"ObjectUpdate\",\"updates\":")?;
    put_fields(alloc, out, updates)?;
    put(out, "}")
}

#[cycle(expr)]
fn put_abs(
    alloc: Global,
    out: &mut String,
    ann: &Ann,
    argument: &Ident,
    body: &CoreExpr,
) -> Result<(), NoMemory>
    ensures { IfOk result (λ _. string_bytes out.new ≡ string_bytes out.old ++ spec.abs ann.now argument.now (spec.expr body.now)) }
{
    put(out, "{\"annotation\":")?;
    put_ann(alloc, out, ann)?;
    put(out, ",\"argument\":")?;
    put_ident(alloc, out, argument)?;
    put(out, ",\"body\":")?;
    put_expr(alloc, out, body)?;
    put(out, ",\"type\":\"Abs\"}")
}

#[cycle(expr)]
fn put_abstraction(alloc: Global, out: &mut String, function: &CoreExpr) -> Result<(), NoMemory>
    ensures { IfOk result (λ _. string_bytes out.new ≡ string_bytes out.old ++ spec.abstraction_of (spec.expr function.now)) }
{
    put(out, "{\"abstraction\":")?;
    put_expr(alloc, out, function)
}

#[cycle(expr)]
fn put_argument(
    alloc: Global,
    out: &mut String,
    ann: &Ann,
    argument: &CoreExpr,
) -> Result<(), NoMemory>
    ensures { IfOk result (λ _. string_bytes out.new ≡ string_bytes out.old ++ spec.argument_of ann.now (spec.expr argument.now)) }
{
    put(out, ",\"annotation\":")?;
    put_ann(alloc, out, ann)?;
    put(out, ",\"argument\":")?;
    put_expr(alloc, out, argument)?;
    put(out, ",\"type\":\"App\"}")
}

fn put_var(alloc: Global, out: &mut String, ann: &Ann, name: &Qualified) -> Result<(), NoMemory>
    ensures { IfOk result (λ _. string_bytes out.new ≡ string_bytes out.old ++ spec.var ann.now name.now) }
{
    put(out, "{\"annotation\":")?;
    put_ann(alloc, out, ann)?;
    put(out, ",\"type\":\"Var\",\"value\":")?;
    put_qualified(alloc, out, name)?;
    put(out, "}")
}

#[cycle(expr)]
fn put_alternatives_of(
    alloc: Global,
    out: &mut String,
    ann: &Ann,
    alternatives: &[CoreAlternative],
) -> Result<(), NoMemory>
    ensures { IfOk result (λ _. string_bytes out.new ≡ string_bytes out.old ++ spec.alternatives_of ann.now (list (map spec.alternative alternatives.now))) }
{
    put(out, "{\"annotation\":")?;
    put_ann(alloc, out, ann)?;
    put(out, ",\"caseAlternatives\":")?;
    put_alternatives(alloc, out, alternatives)
}

#[cycle(expr)]
fn put_subjects(alloc: Global, out: &mut String, subjects: &[CoreExpr]) -> Result<(), NoMemory>
    ensures { IfOk result (λ _. string_bytes out.new ≡ string_bytes out.old ++ spec.subjects_of (list (map spec.expr subjects.now))) }
{
    put(out, ",\"caseExpressions\":")?;
    put_exprs(alloc, out, subjects)?;
    put(out, ",\"type\":\"Case\"}")
}

#[cycle(expr)]
fn put_binds_of(
    alloc: Global,
    out: &mut String,
    ann: &Ann,
    binds: &[CoreBind],
) -> Result<(), NoMemory>
    ensures { IfOk result (λ _. string_bytes out.new ≡ string_bytes out.old ++ spec.binds_of ann.now (list (map spec.bind binds.now))) }
{
    put(out, "{\"annotation\":")?;
    put_ann(alloc, out, ann)?;
    put(out, ",\"binds\":")?;
    put_binds(alloc, out, binds)
}

#[cycle(expr)]
fn put_body(alloc: Global, out: &mut String, body: &CoreExpr) -> Result<(), NoMemory>
    ensures { IfOk result (λ _. string_bytes out.new ≡ string_bytes out.old ++ spec.body_of (spec.expr body.now)) }
{
    put(out, ",\"expression\":")?;
    put_expr(alloc, out, body)?;
    put(out, ",\"type\":\"Let\"}")
}

#[cycle(expr)]
#[tactic(auto, unfolding(crate::specs::Json::list, crate::specs::Json::rest_of_list))]
fn put_alternatives(
    alloc: Global,
    out: &mut String,
    alternatives: &[CoreAlternative],
) -> Result<(), NoMemory>
    ensures { IfOk result (λ _. string_bytes out.new ≡ string_bytes out.old ++ list (map spec.alternative alternatives.now)) }
{
    put(out, "[")?;
    let mut later = false;
    for alternative in alternatives {
        put_comma(out, later)?;
        put_alternative(alloc, out, alternative)?;
        later = true;
    }
    put(out, "]")
}

#[cycle(expr)]
fn put_alternative(
    alloc: Global,
    out: &mut String,
    alternative: &CoreAlternative,
) -> Result<(), NoMemory>
    ensures { IfOk result (λ _. string_bytes out.new ≡ string_bytes out.old ++ spec.alternative alternative.now) }
{
    put_alternative_parts(
        alloc,
        out,
        &alternative.outcome,
        alternative.binders.as_slice(),
    )
}

#[cycle(expr)]
fn put_alternative_parts(
    alloc: Global,
    out: &mut String,
    outcome: &CoreOutcome,
    binders: &[CoreBinder],
) -> Result<(), NoMemory>
    ensures { IfOk result (λ _. string_bytes out.new ≡ string_bytes out.old ++ spec.alternative_text (list (map binder binders.now)) (spec.outcome outcome.now)) }
{
    put(out, "{\"binders\":")?;
    put_binders(alloc, out, binders)?;
    put_outcome(alloc, out, outcome)?;
    put(out, "}")
}

#[cycle(expr)]
fn put_outcome(alloc: Global, out: &mut String, outcome: &CoreOutcome) -> Result<(), NoMemory>
    ensures { IfOk result (λ _. string_bytes out.new ≡ string_bytes out.old ++ spec.outcome outcome.now) }
{
    match outcome {
        CoreOutcome::Always(body) => put_always(alloc, out, body),
        CoreOutcome::Guarded(parts) => put_guarded_ones(alloc, out, parts.as_slice()),
    }
}

#[cycle(expr)]
fn put_always(alloc: Global, out: &mut String, body: &CoreExpr) -> Result<(), NoMemory>
    ensures { IfOk result (λ _. string_bytes out.new ≡ string_bytes out.old ++ spec.always (spec.expr body.now)) }
{
    put(out, ",\"expression\":")?;
    put_expr(alloc, out, body)?;
    put(out, ",\"isGuarded\":false")
}

#[cycle(expr)]
fn put_guarded_ones(alloc: Global, out: &mut String, parts: &[CoreGuarded]) -> Result<(), NoMemory>
    ensures { IfOk result (λ _. string_bytes out.new ≡ string_bytes out.old ++ spec.guarded_ones (list (map spec.guarded parts.now))) }
{
    put(out, ",\"expressions\":")?;
    put_guarded_list(alloc, out, parts)?;
    put(out, ",\"isGuarded\":true")
}

#[cycle(expr)]
#[tactic(auto, unfolding(crate::specs::Json::list, crate::specs::Json::rest_of_list))]
fn put_guarded_list(alloc: Global, out: &mut String, parts: &[CoreGuarded]) -> Result<(), NoMemory>
    ensures { IfOk result (λ _. string_bytes out.new ≡ string_bytes out.old ++ list (map spec.guarded parts.now)) }
{
    put(out, "[")?;
    let mut later = false;
    for part in parts {
        put_comma(out, later)?;
        put_guarded(alloc, out, part)?;
        later = true;
    }
    put(out, "]")
}

#[cycle(expr)]
fn put_guarded(alloc: Global, out: &mut String, part: &CoreGuarded) -> Result<(), NoMemory>
    ensures { IfOk result (λ _. string_bytes out.new ≡ string_bytes out.old ++ spec.guarded part.now) }
{
    put_body_of_guarded(alloc, out, &part.body)?;
    put_guard(alloc, out, &part.guard)
}

#[cycle(expr)]
fn put_body_of_guarded(alloc: Global, out: &mut String, body: &CoreExpr) -> Result<(), NoMemory>
    ensures { IfOk result (λ _. string_bytes out.new ≡ string_bytes out.old ++ spec.body_of_guarded (spec.expr body.now)) }
{
    put(out, "{\"expression\":")?;
    put_expr(alloc, out, body)
}

#[cycle(expr)]
fn put_guard(alloc: Global, out: &mut String, guard: &CoreExpr) -> Result<(), NoMemory>
    ensures { IfOk result (λ _. string_bytes out.new ≡ string_bytes out.old ++ spec.guard_of (spec.expr guard.now)) }
{
    put(out, ",\"guard\":")?;
    put_expr(alloc, out, guard)?;
    put(out, "}")
}

/// Appends a list of bindings.
#[cycle(expr)]
#[tactic(auto, unfolding(crate::specs::Json::list, crate::specs::Json::rest_of_list))]
pub(crate) fn put_binds(alloc: Global, out: &mut String, binds: &[CoreBind]) -> Result<(), NoMemory>
    ensures { IfOk result (λ _. string_bytes out.new ≡ string_bytes out.old ++ list (map spec.bind binds.now)) }
{
    put(out, "[")?;
    let mut later = false;
    for bind in binds {
        put_comma(out, later)?;
        put_bind(alloc, out, bind)?;
        later = true;
    }
    put(out, "]")
}

#[cycle(expr)]
fn put_bind(alloc: Global, out: &mut String, bind: &CoreBind) -> Result<(), NoMemory>
    ensures { IfOk result (λ _. string_bytes out.new ≡ string_bytes out.old ++ spec.bind bind.now) }
{
    match bind {
        CoreBind::NonRec(binding) => {
            put_binding(alloc, out, ",\"bindType\":\"NonRec\"", binding)
        }
        CoreBind::Rec(bindings) => put_recursive(alloc, out, bindings.as_slice()),
    }
}

#[cycle(expr)]
fn put_recursive(alloc: Global, out: &mut String, bindings: &[CoreBinding]) -> Result<(), NoMemory>
    ensures { IfOk result (λ _. string_bytes out.new ≡ string_bytes out.old ++ spec.recursive (list (spec.recursive_ones bindings.now))) }
{
    put(out, "{\"bindType\":\"Rec\",\"binds\":")?;
    put_bindings(alloc, out, bindings)?;
    put(out, "}")
}

#[cycle(expr)]
#[tactic(auto, unfolding(crate::specs::Json::list, crate::specs::Json::rest_of_list))]
fn put_bindings(alloc: Global, out: &mut String, bindings: &[CoreBinding]) -> Result<(), NoMemory>
    ensures { IfOk result (λ _. string_bytes out.new ≡ string_bytes out.old ++ list (spec.recursive_ones bindings.now)) }
{
    put(out, "[")?;
    let mut later = false;
    for binding in bindings {
        put_comma(out, later)?;
        put_binding(alloc, out, "", binding)?;
        later = true;
    }
    put(out, "]")
}

#[cycle(expr)]
fn put_binding(
    alloc: Global,
    out: &mut String,
    kind: &str,
    binding: &CoreBinding,
) -> Result<(), NoMemory>
    ensures { IfOk result (λ _. string_bytes out.new ≡ string_bytes out.old ++ spec.binding binding.now kind.now) }
{
    put_binding_parts(alloc, out, kind, &binding.ann, &binding.name, &binding.body)
}

#[cycle(expr)]
fn put_binding_parts(
    alloc: Global,
    out: &mut String,
    kind: &str,
    ann: &Ann,
    name: &Ident,
    body: &CoreExpr,
) -> Result<(), NoMemory>
    ensures { IfOk result (λ _. string_bytes out.new ≡ string_bytes out.old ++ spec.binding_text ann.now name.now (spec.expr body.now) kind.now) }
{
    put(out, "{\"annotation\":")?;
    put_ann(alloc, out, ann)?;
    put(out, kind)?;
    put(out, ",\"expression\":")?;
    put_expr(alloc, out, body)?;
    put(out, ",\"identifier\":")?;
    put_ident(alloc, out, name)?;
    put(out, "}")
}
