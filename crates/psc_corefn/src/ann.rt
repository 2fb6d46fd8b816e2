//! Annotations.

ghost use Rattle.std.specs.Prelude.{◌≡◌, ◌++◌, IfOk};
ghost use Rattle.std.specs.String.{string_bytes};
ghost use Rattle.psc_corefn.specs.Ann as spec;

use crate::append::{put, put_idents, put_number};
use psc_core_tree::{Ann, Meta};
use psc_text::{Ident, NoMemory, Span};
use std::alloc::Global;

#[tactic(auto, unfolding(crate::specs::Ann::place))]
fn put_place(out: &mut String, line: u32, column: u32) -> Result<(), NoMemory>
    ensures { IfOk result (λ _. string_bytes out.new ≡ string_bytes out.old ++ spec.place line column) }
{
    put(out, "[")?;
    put_number(out, line)?;
    put(out, ",")?;
    put_number(out, column)?;
    put(out, "]")
}

/// Appends a place of the source.
#[tactic(auto, unfolding(crate::specs::Ann::span))]
pub(crate) fn put_span(out: &mut String, span: Span) -> Result<(), NoMemory>
    ensures { IfOk result (λ _. string_bytes out.new ≡ string_bytes out.old ++ spec.span span) }
{
    put(out, "{\"end\":")?;
    put_place(out, span.end_line, span.end_column)?;
    put(out, ",\"start\":")?;
    put_place(out, span.line, span.column)?;
    put(out, "}")
}

#[tactic(auto, unfolding(crate::specs::Ann::constructor_type))]
fn put_constructor_type(out: &mut String, sum: bool) -> Result<(), NoMemory>
    ensures { IfOk result (λ _. string_bytes out.new ≡ string_bytes out.old ++ spec.constructor_type sum) }
{
    if sum {
        put(out, "\"SumType\"")
    } else {
        put(out, "\"ProductType\"")
    }
}

fn put_constructor_meta(
    alloc: Global,
    out: &mut String,
    sum: bool,
    names: &[Ident],
) -> Result<(), NoMemory>
    ensures { IfOk result (λ _. string_bytes out.new ≡ string_bytes out.old ++ spec.constructor_meta sum names.now) }
{
    put(out, "{\"constructorType\":")?;
    put_constructor_type(out, sum)?;
    put(out, ",\"identifiers\":")?;
    put_idents(alloc, out, names)?;
    put(out, ",\"metaType\":\"IsConstructor\"}")
}

fn put_meta(alloc: Global, out: &mut String, meta: &Meta) -> Result<(), NoMemory>
    ensures { IfOk result (λ _. string_bytes out.new ≡ string_bytes out.old ++ spec.meta meta.now) }
{
    match meta {
        Meta::NoMeta => put(out, "null"),
        Meta::IsConstructor { sum, identifiers } => {
            put_constructor_meta(alloc, out, *sum, identifiers.as_slice())
        }
        Meta::IsNewtype => put(out, "{\"metaType\":\"IsNewtype\"}"),
        Meta::IsForeign => put(out, "{\"metaType\":\"IsForeign\"}"),
        Meta::IsWhere => put(out, "{\"metaType\":\"IsWhere\"}"),
    }
}

/// Appends an annotation.
#[tactic(auto, unfolding(crate::specs::Ann::ann))]
pub(crate) fn put_ann(alloc: Global, out: &mut String, ann: &Ann) -> Result<(), NoMemory>
    ensures { IfOk result (λ _. string_bytes out.new ≡ string_bytes out.old ++ spec.ann ann.now) }
{
    put(out, "{\"meta\":")?;
    put_meta(alloc, out, &ann.meta)?;
    put(out, ",\"sourceSpan\":")?;
    put_span(out, ann.span)?;
    put(out, "}")
}
