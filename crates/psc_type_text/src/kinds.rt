//! Kinds.

ghost use Rattle.std.specs.Prelude.{◌≡◌, ◌++◌, IfOk};
ghost use Rattle.std.specs.String.{string_bytes};
ghost use Rattle.psc_type_text.specs.Kinds as spec;

use crate::append::put;
use psc_text::{NoMemory, Text};
use psc_type::Kind;
use std::alloc::Global;

/// The text of a kind in the syntax of the language, `_` for what is not known.
pub fn kind_text(alloc: Global, kind: &Kind) -> Result<Text, NoMemory>
    ensures { IfOk result (λ text. text ≡ (spec.show kind.now).whole) }
{
    let mut out = String::new(alloc);
    put_kind(&mut out, kind)?;
    Text::from_string(out)
}

fn is_arrow(kind: &Kind) -> bool
    ensures { result ≡ (spec.show kind.now).arrow }
{
    match kind {
        Kind::Arrow(_, _) => true,
        Kind::Star | Kind::Constr | Kind::Sym | Kind::RowOf(_) | Kind::Unknown(_) => false,
    }
}

fn is_wide(kind: &Kind) -> bool
    ensures { result ≡ (spec.show kind.now).wide }
{
    match kind {
        Kind::Arrow(_, _) | Kind::RowOf(_) => true,
        Kind::Star | Kind::Constr | Kind::Sym | Kind::Unknown(_) => false,
    }
}

#[cycle(kinds)]
fn put_kind(out: &mut String, kind: &Kind) -> Result<(), NoMemory>
    ensures { IfOk result (λ _. string_bytes out.new ≡ string_bytes out.old ++ (spec.show kind.now).whole) }
{
    match kind {
        Kind::Star => put(out, "Type"),
        Kind::Constr => put(out, "Constraint"),
        Kind::Sym => put(out, "Symbol"),
        Kind::Unknown(_) => put(out, "_"),
        Kind::RowOf(of) => put_row(out, of.get()),
        Kind::Arrow(from, to) => {
            put_front(out, from.get())?;
            put_kind(out, to.get())
        }
    }
}

#[cycle(kinds)]
fn put_closed(out: &mut String, kind: &Kind) -> Result<(), NoMemory>
    ensures { IfOk result (λ _. string_bytes out.new ≡ string_bytes out.old ++ spec.closed (spec.show kind.now).whole) }
{
    put(out, "(")?;
    put_kind(out, kind)?;
    put(out, ")")
}

#[cycle(kinds)]
fn put_left(out: &mut String, kind: &Kind) -> Result<(), NoMemory>
    ensures { IfOk result (λ _. string_bytes out.new ≡ string_bytes out.old ++ spec.left (spec.show kind.now)) }
{
    if is_arrow(kind) {
        put_closed(out, kind)
    } else {
        put_kind(out, kind)
    }
}

#[cycle(kinds)]
fn put_argument(out: &mut String, kind: &Kind) -> Result<(), NoMemory>
    ensures { IfOk result (λ _. string_bytes out.new ≡ string_bytes out.old ++ spec.argument (spec.show kind.now)) }
{
    if is_wide(kind) {
        put_closed(out, kind)
    } else {
        put_kind(out, kind)
    }
}

#[cycle(kinds)]
fn put_front(out: &mut String, kind: &Kind) -> Result<(), NoMemory>
    ensures { IfOk result (λ _. string_bytes out.new ≡ string_bytes out.old ++ spec.front_of_arrow (spec.left (spec.show kind.now))) }
{
    put_left(out, kind)?;
    put(out, " -> ")
}

#[cycle(kinds)]
fn put_row(out: &mut String, kind: &Kind) -> Result<(), NoMemory>
    ensures { IfOk result (λ _. string_bytes out.new ≡ string_bytes out.old ++ spec.row_of (spec.argument (spec.show kind.now))) }
{
    put(out, "Row ")?;
    put_argument(out, kind)
}
