//! Literals and labels. The parts of arrays and records are written by whoever has them.

ghost use Rattle.std.specs.Prelude.{◌≡◌, ◌++◌, IfOk};
ghost use Rattle.std.specs.String.{string_bytes};
ghost use Rattle.psc_corefn.specs.Literal as spec;
ghost use Rattle.psc_corefn.specs.Json.{string};
ghost use Rattle.std.specs.Char.{encode_utf8};

use crate::append::{put, put_integer, put_string};
use psc_text::NoMemory;
use std::alloc::Global;

/// Appends an integer.
pub(crate) fn put_integer_literal(out: &mut String, number: i32) -> Result<(), NoMemory>
    ensures { IfOk result (λ _. string_bytes out.new ≡ string_bytes out.old ++ spec.integer number) }
{
    put(out, "{\"literalType\":\"IntLiteral\",\"value\":")?;
    put_integer(out, number)?;
    put(out, "}")
}

/// Appends a text.
pub(crate) fn put_text_literal(alloc: Global, out: &mut String, text: &str) -> Result<(), NoMemory>
    ensures { IfOk result (λ _. string_bytes out.new ≡ string_bytes out.old ++ spec.text text.now) }
{
    put(out, "{\"literalType\":\"StringLiteral\",\"value\":")?;
    put_string(alloc, out, text)?;
    put(out, "}")
}

fn put_char(alloc: Global, out: &mut String, letter: char) -> Result<(), NoMemory>
    ensures { IfOk result (λ _. string_bytes out.new ≡ string_bytes out.old ++ string (encode_utf8 letter)) }
{
    let mut text = String::new(alloc);
    text.push(letter)?;
    put_string(alloc, out, text.as_str())
}

/// Appends a character.
pub(crate) fn put_character_literal(
    alloc: Global,
    out: &mut String,
    letter: char,
) -> Result<(), NoMemory>
    ensures { IfOk result (λ _. string_bytes out.new ≡ string_bytes out.old ++ spec.character letter) }
{
    put(out, "{\"literalType\":\"CharLiteral\",\"value\":")?;
    put_char(alloc, out, letter)?;
    put(out, "}")
}

#[tactic(auto, unfolding(crate::specs::Literal::truth))]
fn put_truth(out: &mut String, truth: bool) -> Result<(), NoMemory>
    ensures { IfOk result (λ _. string_bytes out.new ≡ string_bytes out.old ++ spec.truth truth) }
{
    if truth {
        put(out, "true")
    } else {
        put(out, "false")
    }
}

/// Appends a truth value.
pub(crate) fn put_boolean_literal(out: &mut String, truth: bool) -> Result<(), NoMemory>
    ensures { IfOk result (λ _. string_bytes out.new ≡ string_bytes out.old ++ spec.boolean truth) }
{
    put(out, "{\"literalType\":\"BooleanLiteral\",\"value\":")?;
    put_truth(out, truth)?;
    put(out, "}")
}
