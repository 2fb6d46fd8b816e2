//! Strings, numbers, names and lists of them.

ghost use Rattle.std.specs.Prelude.{◌≡◌, ◌++◌, IfOk};
ghost use Rattle.std.specs.String.{string_bytes};
ghost use Rattle.std.specs.Prelude.{decimal, map};
ghost use Rattle.std.specs.Fmt.{signed_decimal};
ghost use Rattle.std.specs.Str.{chars};
ghost use Rattle.psc_corefn.specs.Json as spec;

use itoa::Buffer;
use psc_text::{Ident, Label, ModuleName, NoMemory, Qualified, Text};
use serde_json::Value;
use std::alloc::Global;

/// Appends a text as it is.
pub(crate) fn put(out: &mut String, text: &str) -> Result<(), NoMemory>
    ensures { IfOk result (λ _. string_bytes out.new ≡ string_bytes out.old ++ text.now) }
{
    Ok(out.push_str(text)?)
}

/// Appends a number in decimal.
pub(crate) fn put_number(out: &mut String, number: u32) -> Result<(), NoMemory>
    ensures { IfOk result (λ _. string_bytes out.new ≡ string_bytes out.old ++ decimal number) }
{
    put(out, Buffer::new().format(number))
}

/// Appends an integer in decimal.
pub(crate) fn put_integer(out: &mut String, number: i32) -> Result<(), NoMemory>
    ensures { IfOk result (λ _. string_bytes out.new ≡ string_bytes out.old ++ signed_decimal number) }
{
    put(out, Buffer::new().format(number))
}

#[tactic(auto, unfolding(crate::specs::Json::string))]
fn quoted(alloc: Global, text: &str) -> Result<String, NoMemory>
    ensures { IfOk result (λ s. string_bytes s ≡ spec.string text.now) }
{
    let value = Value::String(String::from_str(alloc, text)?);
    Ok(value.to_string(alloc)?)
}

/// Appends a text as a JSON string.
pub(crate) fn put_string(alloc: Global, out: &mut String, text: &str) -> Result<(), NoMemory>
    ensures { IfOk result (λ _. string_bytes out.new ≡ string_bytes out.old ++ spec.string text.now) }
{
    put(out, quoted(alloc, text)?.as_str())
}

/// Appends a text as a JSON string.
pub(crate) fn put_text(alloc: Global, out: &mut String, text: &Text) -> Result<(), NoMemory>
    ensures { IfOk result (λ _. string_bytes out.new ≡ string_bytes out.old ++ spec.string text.now) }
{
    put_string(alloc, out, text.as_str())
}

/// Appends a label as a JSON string.
pub(crate) fn put_label(alloc: Global, out: &mut String, label: &Label) -> Result<(), NoMemory>
    ensures { IfOk result (λ _. string_bytes out.new ≡ string_bytes out.old ++ spec.string label.now.0) }
{
    put_string(alloc, out, label.0.as_str())
}

/// Appends the comma before an item that is not the first.
#[tactic(auto, unfolding(crate::specs::Json::comma))]
pub(crate) fn put_comma(out: &mut String, later: bool) -> Result<(), NoMemory>
    ensures { IfOk result (λ _. string_bytes out.new ≡ string_bytes out.old ++ spec.comma later) }
{
    if later { put(out, ",") } else { Ok(()) }
}

/// Appends a name as a JSON string.
pub(crate) fn put_ident(alloc: Global, out: &mut String, name: &Ident) -> Result<(), NoMemory>
    ensures { IfOk result (λ _. string_bytes out.new ≡ string_bytes out.old ++ spec.ident name.now) }
{
    put_string(alloc, out, name.0.as_str())
}

/// Appends a list of names.
#[tactic(auto, unfolding(crate::specs::Json::list, crate::specs::Json::rest_of_list))]
pub(crate) fn put_idents(alloc: Global, out: &mut String, names: &[Ident]) -> Result<(), NoMemory>
    ensures { IfOk result (λ _. string_bytes out.new ≡ string_bytes out.old ++ spec.idents names.now) }
{
    put(out, "[")?;
    let mut later = false;
    for name in names {
        put_comma(out, later)?;
        put_ident(alloc, out, name)?;
        later = true;
    }
    put(out, "]")
}

/// Appends a list of texts.
#[tactic(auto, unfolding(crate::specs::Json::list, crate::specs::Json::rest_of_list))]
pub(crate) fn put_strings(alloc: Global, out: &mut String, texts: &[Text]) -> Result<(), NoMemory>
    ensures { IfOk result (λ _. string_bytes out.new ≡ string_bytes out.old ++ spec.strings texts.now) }
{
    put(out, "[")?;
    let mut later = false;
    for text in texts {
        put_comma(out, later)?;
        put_text(alloc, out, text)?;
        later = true;
    }
    put(out, "]")
}

#[tactic(auto, unfolding(crate::specs::Json::letter))]
fn put_letter(out: &mut String, letter: char) -> Result<(), NoMemory>
    ensures { IfOk result (λ _. string_bytes out.new ≡ string_bytes out.old ++ spec.letter letter) }
{
    if letter == '.' {
        put(out, "\",\"")
    } else {
        Ok(out.push(letter)?)
    }
}

fn put_letters(out: &mut String, text: &str) -> Result<(), NoMemory>
    ensures { IfOk result (λ _. string_bytes out.new ≡ string_bytes out.old ++ spec.letters (chars text.now)) }
{
    for letter in text.chars() {
        put_letter(out, letter)?;
    }
    Ok(())
}

fn put_parts(out: &mut String, name: &ModuleName) -> Result<(), NoMemory>
    ensures { IfOk result (λ _. string_bytes out.new ≡ string_bytes out.old ++ spec.letters (chars name.now)) }
{
    put_letters(out, name.as_str())
}

/// Appends a module's name as the list of its parts.
pub(crate) fn put_module_name(out: &mut String, name: &ModuleName) -> Result<(), NoMemory>
    ensures { IfOk result (λ _. string_bytes out.new ≡ string_bytes out.old ++ spec.module_name name.now) }
{
    put(out, "[\"")?;
    put_parts(out, name)?;
    put(out, "\"]")
}

fn put_module_member(out: &mut String, name: &ModuleName) -> Result<(), NoMemory>
    ensures { IfOk result (λ _. string_bytes out.new ≡ string_bytes out.old ++ spec.module_member name.now) }
{
    put(out, ",\"moduleName\":")?;
    put_module_name(out, name)
}

#[tactic(auto, unfolding(crate::specs::Json::member_of_module))]
fn put_member_of_module(out: &mut String, member: &Option<ModuleName>) -> Result<(), NoMemory>
    ensures { IfOk result (λ _. string_bytes out.new ≡ string_bytes out.old ++ spec.member_of_module member.now) }
{
    match member {
        None => Ok(()),
        Some(name) => put_module_member(out, name),
    }
}

/// Appends a name with the module that it stands in, if it is not local.
pub(crate) fn put_qualified(
    alloc: Global,
    out: &mut String,
    name: &Qualified,
) -> Result<(), NoMemory>
    ensures { IfOk result (λ _. string_bytes out.new ≡ string_bytes out.old ++ spec.qualified name.now) }
{
    put(out, "{\"identifier\":")?;
    put_text(alloc, out, &name.name)?;
    put_member_of_module(out, &name.module)?;
    put(out, "}")
}
