//! Texts, numbers and strings.

ghost use Rattle.std.specs.Prelude.{◌≡◌, ◌++◌, IfOk, decimal};
ghost use Rattle.std.specs.String.{string_bytes};
ghost use Rattle.std.specs.Fmt.{signed_decimal};
ghost use Rattle.psc_js.specs.Literal as spec;

use itoa::Buffer;
use psc_text::{Label, ModuleName, NoMemory, Text};
use serde_json::Value;
use std::alloc::Global;

/// Appends a text as it is.
pub(crate) fn put(out: &mut String, text: &str) -> Result<(), NoMemory>
    ensures { IfOk result (λ _. string_bytes out.new ≡ string_bytes out.old ++ text.now) }
{
    Ok(out.push_str(text)?)
}

/// Appends a printed name.
pub(crate) fn put_name(out: &mut String, name: &Text) -> Result<(), NoMemory>
    ensures { IfOk result (λ _. string_bytes out.new ≡ string_bytes out.old ++ name.now) }
{
    put(out, name.as_str())
}

/// Appends a module's name with its dots.
pub(crate) fn put_module_name(out: &mut String, name: &ModuleName) -> Result<(), NoMemory>
    ensures { IfOk result (λ _. string_bytes out.new ≡ string_bytes out.old ++ name.now) }
{
    put(out, name.as_str())
}

/// Appends a number in decimal.
pub(crate) fn put_number(out: &mut String, number: usize) -> Result<(), NoMemory>
    ensures { IfOk result (λ _. string_bytes out.new ≡ string_bytes out.old ++ decimal number) }
{
    put(out, Buffer::new().format(number))
}

fn put_digits(out: &mut String, number: i32) -> Result<(), NoMemory>
    ensures { IfOk result (λ _. string_bytes out.new ≡ string_bytes out.old ++ signed_decimal number) }
{
    put(out, Buffer::new().format(number))
}

#[tactic(auto, unfolding(crate::specs::Literal::negative))]
fn put_negative(out: &mut String, number: i32) -> Result<(), NoMemory>
    ensures { IfOk result (λ _. string_bytes out.new ≡ string_bytes out.old ++ spec.negative number) }
{
    put(out, "(")?;
    put_digits(out, number)?;
    put(out, ")")
}

/// Appends an integer, a negative one in parentheses.
#[tactic(auto, unfolding(crate::specs::Literal::integer))]
pub(crate) fn put_integer(out: &mut String, number: i32) -> Result<(), NoMemory>
    ensures { IfOk result (λ _. string_bytes out.new ≡ string_bytes out.old ++ spec.integer number) }
{
    if number < 0 {
        put_negative(out, number)
    } else {
        put_digits(out, number)
    }
}

/// Appends a truth value.
#[tactic(auto, unfolding(crate::specs::Literal::truth))]
pub(crate) fn put_truth(out: &mut String, truth: bool) -> Result<(), NoMemory>
    ensures { IfOk result (λ _. string_bytes out.new ≡ string_bytes out.old ++ spec.truth truth) }
{
    if truth {
        put(out, "true")
    } else {
        put(out, "false")
    }
}

#[tactic(auto, unfolding(crate::specs::Literal::string))]
fn quoted(alloc: Global, text: &str) -> Result<String, NoMemory>
    ensures { IfOk result (λ s. string_bytes s ≡ spec.string text.now) }
{
    let value = Value::String(String::from_str(alloc, text)?);
    Ok(value.to_string(alloc)?)
}

fn put_quoted(alloc: Global, out: &mut String, text: &str) -> Result<(), NoMemory>
    ensures { IfOk result (λ _. string_bytes out.new ≡ string_bytes out.old ++ spec.string text.now) }
{
    put(out, quoted(alloc, text)?.as_str())
}

/// Appends a text as a JSON string.
pub(crate) fn put_string(alloc: Global, out: &mut String, text: &Text) -> Result<(), NoMemory>
    ensures { IfOk result (λ _. string_bytes out.new ≡ string_bytes out.old ++ spec.string text.now) }
{
    put_quoted(alloc, out, text.as_str())
}

/// Appends a label as a JSON string.
pub(crate) fn put_label(alloc: Global, out: &mut String, label: &Label) -> Result<(), NoMemory>
    ensures { IfOk result (λ _. string_bytes out.new ≡ string_bytes out.old ++ spec.string label.now.0) }
{
    put_quoted(alloc, out, label.0.as_str())
}

/// Appends the comma before an item that is not the first.
#[tactic(auto, unfolding(crate::specs::Literal::comma))]
pub(crate) fn put_comma(out: &mut String, later: bool) -> Result<(), NoMemory>
    ensures { IfOk result (λ _. string_bytes out.new ≡ string_bytes out.old ++ spec.comma later) }
{
    if later { put(out, ", ") } else { Ok(()) }
}
