//! Binders.

ghost use Rattle.std.specs.Prelude.{◌≡◌, ◌++◌, IfOk, map};
ghost use Rattle.std.specs.String.{string_bytes};
ghost use Rattle.psc_corefn.specs.Binder as spec;
ghost use Rattle.psc_corefn.specs.Json.{list};
ghost use Rattle.psc_corefn.specs.Literal as literals;

use crate::ann::put_ann;
use crate::append::{put, put_comma, put_ident, put_label, put_qualified};
use crate::literal::{
    put_boolean_literal, put_character_literal, put_integer_literal, put_text_literal,
};
use psc_core_tree::{Ann, BinderField, BinderLiteral, CoreBinder};
use psc_text::{Ident, Label, NoMemory, Qualified};
use std::alloc::Global;

/// Appends a binder.
#[cycle(binder)]
pub(crate) fn put_binder(
    alloc: Global,
    out: &mut String,
    binder: &CoreBinder,
) -> Result<(), NoMemory>
    ensures { IfOk result (λ _. string_bytes out.new ≡ string_bytes out.old ++ spec.binder binder.now) }
{
    match binder {
        CoreBinder::Null { ann } => put_null_binder(alloc, out, ann),
        CoreBinder::Literal { ann, value } => put_literal_binder(alloc, out, ann, value),
        CoreBinder::Var { ann, name } => put_var_binder(alloc, out, ann, name),
        CoreBinder::Constructor {
            ann,
            type_name,
            constructor_name,
            binders,
        } => {
            put_constructor_binder(
                alloc,
                out,
                ann,
                type_name,
                constructor_name,
                binders.as_slice(),
            )
        }
        CoreBinder::Named { ann, name, binder } => {
            put_named_binder(alloc, out, ann, name, binder.get())
        }
    }
}

/// Appends a list of binders.
#[cycle(binder)]
#[tactic(auto, unfolding(crate::specs::Json::list, crate::specs::Json::rest_of_list))]
pub(crate) fn put_binders(
    alloc: Global,
    out: &mut String,
    binders: &[CoreBinder],
) -> Result<(), NoMemory>
    ensures { IfOk result (λ _. string_bytes out.new ≡ string_bytes out.old ++ list (map spec.binder binders.now)) }
{
    put(out, "[")?;
    let mut later = false;
    for binder in binders {
        put_comma(out, later)?;
        put_binder(alloc, out, binder)?;
        later = true;
    }
    put(out, "]")
}

fn put_null_binder(alloc: Global, out: &mut String, ann: &Ann) -> Result<(), NoMemory>
    ensures { IfOk result (λ _. string_bytes out.new ≡ string_bytes out.old ++ spec.null_binder ann.now) }
{
    put(out, "{\"annotation\":")?;
    put_ann(alloc, out, ann)?;
    put(out, ",\"binderType\":\"NullBinder\"}")
}

fn put_var_binder(alloc: Global, out: &mut String, ann: &Ann, name: &Ident) -> Result<(), NoMemory>
    ensures { IfOk result (λ _. string_bytes out.new ≡ string_bytes out.old ++ spec.var_binder ann.now name.now) }
{
    put(out, "{\"annotation\":")?;
    put_ann(alloc, out, ann)?;
    put(out, ",\"binderType\":\"VarBinder\",\"identifier\":")?;
    put_ident(alloc, out, name)?;
    put(out, "}")
}

#[cycle(binder)]
fn put_constructor_binder(
    alloc: Global,
    out: &mut String,
    ann: &Ann,
    type_name: &Qualified,
    constructor_name: &Qualified,
    binders: &[CoreBinder],
) -> Result<(), NoMemory>
    ensures { IfOk result (λ _. string_bytes out.new ≡ string_bytes out.old ++ spec.constructor_binder ann.now type_name.now constructor_name.now (list (map spec.binder binders.now))) }
{
    put(out, "{\"annotation\":")?;
    put_ann(alloc, out, ann)?;
    put(out, ",\"binderType\":\"ConstructorBinder\",\"binders\":")?;
    put_binders(alloc, out, binders)?;
    put(out, ",\"constructorName\":")?;
    put_qualified(alloc, out, constructor_name)?;
    put(out, ",\"typeName\":")?;
    put_qualified(alloc, out, type_name)?;
    put(out, "}")
}

#[cycle(binder)]
fn put_named_binder(
    alloc: Global,
    out: &mut String,
    ann: &Ann,
    name: &Ident,
    binder: &CoreBinder,
) -> Result<(), NoMemory>
    ensures { IfOk result (λ _. string_bytes out.new ≡ string_bytes out.old ++ spec.named_binder ann.now name.now (spec.binder binder.now)) }
{
    put(out, "{\"annotation\":")?;
    put_ann(alloc, out, ann)?;
    put(out, ",\"binder\":")?;
    put_binder(alloc, out, binder)?;
    put(out, ",\"binderType\":\"NamedBinder\",\"identifier\":")?;
    put_ident(alloc, out, name)?;
    put(out, "}")
}

#[cycle(binder)]
fn put_literal_binder(
    alloc: Global,
    out: &mut String,
    ann: &Ann,
    literal: &BinderLiteral,
) -> Result<(), NoMemory>
    ensures { IfOk result (λ _. string_bytes out.new ≡ string_bytes out.old ++ spec.literal_binder ann.now (spec.literal literal.now)) }
{
    put(out, "{\"annotation\":")?;
    put_ann(alloc, out, ann)?;
    put(out, ",\"binderType\":\"LiteralBinder\",\"literal\":")?;
    put_literal(alloc, out, literal)?;
    put(out, "}")
}

#[cycle(binder)]
fn put_literal(alloc: Global, out: &mut String, literal: &BinderLiteral) -> Result<(), NoMemory>
    ensures { IfOk result (λ _. string_bytes out.new ≡ string_bytes out.old ++ spec.literal literal.now) }
{
    match literal {
        BinderLiteral::Int(number) => put_integer_literal(out, *number),
        BinderLiteral::Str(text) => put_text_literal(alloc, out, text.as_str()),
        BinderLiteral::Char(letter) => put_character_literal(alloc, out, *letter),
        BinderLiteral::Bool(truth) => put_boolean_literal(out, *truth),
        BinderLiteral::Array(items) => put_array(alloc, out, items.as_slice()),
        BinderLiteral::Object(fields) => put_object(alloc, out, fields.as_slice()),
    }
}

#[cycle(binder)]
fn put_array(alloc: Global, out: &mut String, items: &[CoreBinder]) -> Result<(), NoMemory>
    ensures { IfOk result (λ _. string_bytes out.new ≡ string_bytes out.old ++ literals.array (list (map spec.binder items.now))) }
{
    put(out, "{\"literalType\":\"ArrayLiteral\",\"value\":")?;
    put_binders(alloc, out, items)?;
    put(out, "}")
}

#[cycle(binder)]
fn put_object(alloc: Global, out: &mut String, fields: &[BinderField]) -> Result<(), NoMemory>
    ensures { IfOk result (λ _. string_bytes out.new ≡ string_bytes out.old ++ literals.object (list (map spec.field fields.now))) }
{
    put(out, "{\"literalType\":\"ObjectLiteral\",\"value\":")?;
    put_fields(alloc, out, fields)?;
    put(out, "}")
}

#[cycle(binder)]
#[tactic(auto, unfolding(crate::specs::Json::list, crate::specs::Json::rest_of_list))]
fn put_fields(alloc: Global, out: &mut String, fields: &[BinderField]) -> Result<(), NoMemory>
    ensures { IfOk result (λ _. string_bytes out.new ≡ string_bytes out.old ++ list (map spec.field fields.now)) }
{
    put(out, "[")?;
    let mut later = false;
    for field in fields {
        put_comma(out, later)?;
        put_field(alloc, out, field)?;
        later = true;
    }
    put(out, "]")
}

#[cycle(binder)]
fn put_field(alloc: Global, out: &mut String, field: &BinderField) -> Result<(), NoMemory>
    ensures { IfOk result (λ _. string_bytes out.new ≡ string_bytes out.old ++ spec.field field.now) }
{
    put_pair(alloc, out, &field.label, &field.value)
}

#[cycle(binder)]
fn put_pair(
    alloc: Global,
    out: &mut String,
    label: &Label,
    value: &CoreBinder,
) -> Result<(), NoMemory>
    ensures { IfOk result (λ _. string_bytes out.new ≡ string_bytes out.old ++ literals.pair label.now (spec.binder value.now)) }
{
    put(out, "[")?;
    put_label(alloc, out, label)?;
    put(out, ",")?;
    put_binder(alloc, out, value)?;
    put(out, "]")
}
