//! Names of variables and labels.

ghost use Rattle.std.specs.Prelude.{◌≡◌, ◌++◌, ◌==◌, true, IfOk};
ghost use Rattle.std.specs.String.{string_bytes};
ghost use Rattle.std.specs.Char.{encode_utf8};
ghost use Rattle.std.specs.Str.{chars};
ghost use Rattle.psc_type_text.specs.Names as spec;

use crate::append::{put, put_string};
use psc_text::{Ident, Label, NoMemory, begins_lower, goes_on};
use std::alloc::Global;

/// Appends the name of a variable. A rigid variable's ends at its `$`.
pub(crate) fn put_variable(out: &mut String, name: &Ident) -> Result<(), NoMemory>
    ensures { IfOk result (λ _. string_bytes out.new ≡ string_bytes out.old ++ spec.variable name.now) }
{
    put_front(out, name.0.as_str())
}

/// Whether a name's number begins at the letter.
fn is_end(letter: char) -> bool
    ensures { result ≡ (letter == 36) }
{
    letter == '$'
}

fn put_letter(out: &mut String, letter: char) -> Result<(), NoMemory>
    ensures { IfOk result (λ _. string_bytes out.new ≡ string_bytes out.old ++ encode_utf8 letter) }
{
    Ok(out.push(letter)?)
}

fn put_front(out: &mut String, text: &str) -> Result<(), NoMemory>
    ensures { IfOk result (λ _. string_bytes out.new ≡ string_bytes out.old ++ spec.front (chars text.now)) }
{
    for letter in text.chars() {
        if is_end(letter) {
            return Ok(());
        }
        put_letter(out, letter)?;
    }
    Ok(())
}

/// Appends a label: as it is where it is a lower name, and else as a JSON string.
pub(crate) fn put_label(alloc: Global, out: &mut String, label: &Label) -> Result<(), NoMemory>
    ensures { IfOk result (λ _. string_bytes out.new ≡ string_bytes out.old ++ spec.label label.now) }
{
    if is_lower_name(label.0.as_str()) {
        put(out, label.0.as_str())
    } else {
        put_string(alloc, out, label.0.as_str())
    }
}

fn fits(first: bool, letter: char) -> bool
    ensures { result ≡ spec.fits first letter }
{
    if first {
        begins_lower(letter)
    } else {
        goes_on(letter)
    }
}

fn is_spelled_lower(text: &str) -> bool
    ensures { result ≡ spec.is_spelled_lower true (chars text.now) }
{
    let mut first = true;
    for letter in text.chars() {
        if fits(first, letter) {
            first = false;
        } else {
            return false;
        }
    }
    !first
}

fn is_lower_name(text: &str) -> bool
    ensures { result ≡ spec.is_lower_name text.now }
{
    text != "_" && is_spelled_lower(text)
}
