//! Types.

ghost use Rattle.std.specs.Prelude.{◌≡◌, ◌++◌, IfOk, map};
ghost use Rattle.std.specs.String.{string_bytes};
ghost use Rattle.psc_type_text.specs.Text as spec;

use crate::append::{put, put_string};
use crate::names::{put_label, put_variable};
use crate::shape::{
    is_empty_row, is_from, is_function, is_labels, is_open, is_quantified, is_record, is_wide,
    shape_of,
};
use psc_text::{Label, NoMemory, Text};
use psc_type::{Constraint, MOST_NODES, Ty, canonical, has_more_nodes};
use std::alloc::Global;

/// The text of a type in the syntax of the language: names without their modules, labels in their
/// order, `_` for what is not known, and `_` alone for a type of more than 20,000 nodes.
pub fn type_text(alloc: Global, ty: &Ty) -> Result<Text, NoMemory>
    ensures { IfOk result (λ text. text ≡ spec.type_text ty.now) }
{
    if has_more_nodes(ty, MOST_NODES) {
        Text::new(alloc, "_")
    } else {
        text_of_canonical(alloc, &canonical(alloc, ty)?)
    }
}

fn text_of_canonical(alloc: Global, ty: &Ty) -> Result<Text, NoMemory>
    ensures { IfOk result (λ text. text ≡ (spec.show ty.now).whole) }
{
    let mut out = String::new(alloc);
    put_type(alloc, &mut out, ty)?;
    Text::from_string(out)
}

/// Appends a type.
#[cycle(types)]
#[tactic(auto, using(crate::proofs::TextRules::texts))]
fn put_type(alloc: Global, out: &mut String, ty: &Ty) -> Result<(), NoMemory>
    ensures { IfOk result (λ _. string_bytes out.new ≡ string_bytes out.old ++ (spec.show ty.now).whole) }
{
    match ty {
        Ty::Var(name) => put_variable(out, name),
        Ty::Unknown(_) | Ty::Any(_) => put(out, "_"),
        Ty::Con(name) => put(out, name.name.as_str()),
        Ty::App(function, argument) => {
            if is_record(shape_of(function.get())) {
                put_record(alloc, out, argument.get())
            } else if is_from(shape_of(function.get())) {
                put_part(alloc, out, function.get())?;
                put_type(alloc, out, argument.get())
            } else {
                put_function(alloc, out, function.get())?;
                put_argument(alloc, out, argument.get())
            }
        }
        Ty::Forall(_, _, _) => put_forall(alloc, out, ty),
        Ty::Given(given, body) => {
            put_context(alloc, out, given)?;
            put_type(alloc, out, body.get())
        }
        Ty::RowCons(_, _, _) => put_row(alloc, out, ty),
        Ty::RowNil => put(out, "()"),
        Ty::Symbol(text) => put_string(alloc, out, text.as_str()),
    }
}

/// Appends the part that a larger form goes on with: the front of an arrow, the variable of a
/// quantified type with what stands behind it, the labels of a row.
#[cycle(types)]
fn put_part(alloc: Global, out: &mut String, ty: &Ty) -> Result<(), NoMemory>
    ensures { IfOk result (λ _. string_bytes out.new ≡ string_bytes out.old ++ (spec.show ty.now).part) }
{
    match ty {
        Ty::App(function, argument) => {
            if is_function(shape_of(function.get())) {
                put_front_of_arrow(alloc, out, argument.get())
            } else {
                Ok(())
            }
        }
        Ty::Forall(name, _, body) => {
            put_variable(out, name)?;
            put_behind_variable(alloc, out, body.get())
        }
        Ty::RowCons(label, first, rest) => {
            put_label_of(alloc, out, label, first.get())?;
            put_rest(alloc, out, rest.get())
        }
        Ty::Var(_)
        | Ty::Unknown(_)
        | Ty::Con(_)
        | Ty::Given(_, _)
        | Ty::RowNil
        | Ty::Symbol(_)
        | Ty::Any(_) => Ok(()),
    }
}

#[cycle(types)]
fn put_forall(alloc: Global, out: &mut String, ty: &Ty) -> Result<(), NoMemory>
    ensures { IfOk result (λ _. string_bytes out.new ≡ string_bytes out.old ++ spec.forall_of (spec.show ty.now).part) }
{
    put(out, "forall ")?;
    put_part(alloc, out, ty)
}

#[cycle(types)]
fn put_row(alloc: Global, out: &mut String, ty: &Ty) -> Result<(), NoMemory>
    ensures { IfOk result (λ _. string_bytes out.new ≡ string_bytes out.old ++ spec.row (spec.show ty.now).part) }
{
    put(out, "( ")?;
    put_part(alloc, out, ty)?;
    put(out, " )")
}

#[cycle(types)]
fn put_closed(alloc: Global, out: &mut String, ty: &Ty) -> Result<(), NoMemory>
    ensures { IfOk result (λ _. string_bytes out.new ≡ string_bytes out.old ++ spec.closed (spec.show ty.now).whole) }
{
    put(out, "(")?;
    put_type(alloc, out, ty)?;
    put(out, ")")
}

#[cycle(types)]
fn put_left(alloc: Global, out: &mut String, ty: &Ty) -> Result<(), NoMemory>
    ensures { IfOk result (λ _. string_bytes out.new ≡ string_bytes out.old ++ spec.left (spec.show ty.now)) }
{
    if is_open(shape_of(ty)) {
        put_closed(alloc, out, ty)
    } else {
        put_type(alloc, out, ty)
    }
}

#[cycle(types)]
fn put_argument(alloc: Global, out: &mut String, ty: &Ty) -> Result<(), NoMemory>
    ensures { IfOk result (λ _. string_bytes out.new ≡ string_bytes out.old ++ spec.argument (spec.show ty.now)) }
{
    if is_wide(shape_of(ty)) {
        put_closed(alloc, out, ty)
    } else {
        put_type(alloc, out, ty)
    }
}

#[cycle(types)]
fn put_front_of_arrow(alloc: Global, out: &mut String, ty: &Ty) -> Result<(), NoMemory>
    ensures { IfOk result (λ _. string_bytes out.new ≡ string_bytes out.old ++ spec.front_of_arrow (spec.left (spec.show ty.now))) }
{
    put_left(alloc, out, ty)?;
    put(out, " -> ")
}

/// Appends a function with the blank before its argument.
#[cycle(types)]
fn put_function(alloc: Global, out: &mut String, ty: &Ty) -> Result<(), NoMemory>
    ensures { IfOk result (λ _. string_bytes out.new ≡ string_bytes out.old ++ spec.function_of (spec.show ty.now).whole) }
{
    put_type(alloc, out, ty)?;
    put(out, " ")
}

#[cycle(types)]
fn put_behind_variable(alloc: Global, out: &mut String, ty: &Ty) -> Result<(), NoMemory>
    ensures { IfOk result (λ _. string_bytes out.new ≡ string_bytes out.old ++ spec.behind_variable (spec.show ty.now)) }
{
    if is_quantified(shape_of(ty)) {
        put_next_variable(alloc, out, ty)
    } else {
        put_body(alloc, out, ty)
    }
}

#[cycle(types)]
fn put_next_variable(alloc: Global, out: &mut String, ty: &Ty) -> Result<(), NoMemory>
    ensures { IfOk result (λ _. string_bytes out.new ≡ string_bytes out.old ++ spec.next_variable (spec.show ty.now).part) }
{
    put(out, " ")?;
    put_part(alloc, out, ty)
}

#[cycle(types)]
fn put_body(alloc: Global, out: &mut String, ty: &Ty) -> Result<(), NoMemory>
    ensures { IfOk result (λ _. string_bytes out.new ≡ string_bytes out.old ++ spec.body (spec.show ty.now).whole) }
{
    put(out, ". ")?;
    put_type(alloc, out, ty)
}

#[cycle(types)]
fn put_label_of(alloc: Global, out: &mut String, label: &Label, ty: &Ty) -> Result<(), NoMemory>
    ensures { IfOk result (λ _. string_bytes out.new ≡ string_bytes out.old ++ spec.label_of label.now (spec.show ty.now).whole) }
{
    put_label(alloc, out, label)?;
    put(out, " :: ")?;
    put_type(alloc, out, ty)
}

#[cycle(types)]
fn put_rest(alloc: Global, out: &mut String, ty: &Ty) -> Result<(), NoMemory>
    ensures { IfOk result (λ _. string_bytes out.new ≡ string_bytes out.old ++ spec.rest (spec.show ty.now)) }
{
    if is_labels(shape_of(ty)) {
        put_next_labels(alloc, out, ty)
    } else if is_empty_row(shape_of(ty)) {
        Ok(())
    } else {
        put_tail(alloc, out, ty)
    }
}

#[cycle(types)]
fn put_next_labels(alloc: Global, out: &mut String, ty: &Ty) -> Result<(), NoMemory>
    ensures { IfOk result (λ _. string_bytes out.new ≡ string_bytes out.old ++ spec.next_labels (spec.show ty.now).part) }
{
    put(out, ", ")?;
    put_part(alloc, out, ty)
}

#[cycle(types)]
fn put_tail(alloc: Global, out: &mut String, ty: &Ty) -> Result<(), NoMemory>
    ensures { IfOk result (λ _. string_bytes out.new ≡ string_bytes out.old ++ spec.tail (spec.show ty.now).whole) }
{
    put(out, " | ")?;
    put_type(alloc, out, ty)
}

/// Appends the record of a row.
#[cycle(types)]
fn put_record(alloc: Global, out: &mut String, ty: &Ty) -> Result<(), NoMemory>
    ensures { IfOk result (λ _. string_bytes out.new ≡ string_bytes out.old ++ spec.record_of (spec.show ty.now)) }
{
    if is_labels(shape_of(ty)) {
        put_braces(alloc, out, ty)
    } else if is_empty_row(shape_of(ty)) {
        put(out, "{}")
    } else {
        put_braces_of_tail(alloc, out, ty)
    }
}

#[cycle(types)]
fn put_braces(alloc: Global, out: &mut String, ty: &Ty) -> Result<(), NoMemory>
    ensures { IfOk result (λ _. string_bytes out.new ≡ string_bytes out.old ++ spec.braces (spec.show ty.now).part) }
{
    put(out, "{ ")?;
    put_part(alloc, out, ty)?;
    put(out, " }")
}

#[cycle(types)]
fn put_braces_of_tail(alloc: Global, out: &mut String, ty: &Ty) -> Result<(), NoMemory>
    ensures { IfOk result (λ _. string_bytes out.new ≡ string_bytes out.old ++ spec.braces_of_tail (spec.show ty.now).whole) }
{
    put(out, "{ | ")?;
    put_type(alloc, out, ty)?;
    put(out, " }")
}

/// Appends a constraint and the arrow behind it.
#[cycle(types)]
fn put_context(alloc: Global, out: &mut String, given: &Constraint) -> Result<(), NoMemory>
    ensures { IfOk result (λ _. string_bytes out.new ≡ string_bytes out.old ++ spec.context_of (spec.constraint given.now)) }
{
    put_constraint(alloc, out, given)?;
    put(out, " => ")
}

#[cycle(types)]
fn put_constraint(alloc: Global, out: &mut String, given: &Constraint) -> Result<(), NoMemory>
    ensures { IfOk result (λ _. string_bytes out.new ≡ string_bytes out.old ++ spec.constraint given.now) }
{
    put(out, given.class.name.as_str())?;
    put_arguments(alloc, out, given.args.as_slice())
}

#[cycle(types)]
#[tactic(auto, unfolding(crate::specs::Text::arguments))]
fn put_arguments(alloc: Global, out: &mut String, args: &[Ty]) -> Result<(), NoMemory>
    ensures { IfOk result (λ _. string_bytes out.new ≡ string_bytes out.old ++ spec.arguments (map spec.show args.now)) }
{
    for arg in args {
        put_one_argument(alloc, out, arg)?;
    }
    Ok(())
}

#[cycle(types)]
fn put_one_argument(alloc: Global, out: &mut String, ty: &Ty) -> Result<(), NoMemory>
    ensures { IfOk result (λ _. string_bytes out.new ≡ string_bytes out.old ++ spec.one_argument (spec.argument (spec.show ty.now))) }
{
    put(out, " ")?;
    put_argument(alloc, out, ty)
}
