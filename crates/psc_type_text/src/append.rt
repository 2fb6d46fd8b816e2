//! Parts of texts.

ghost use Rattle.std.specs.Prelude.{◌≡◌, ◌++◌, IfOk};
ghost use Rattle.std.specs.String.{string_bytes};
ghost use Rattle.psc_type_text.specs.Names as spec;

use psc_text::NoMemory;
use serde_json::Value;
use std::alloc::Global;

/// Appends a text as it is.
pub(crate) fn put(out: &mut String, text: &str) -> Result<(), NoMemory>
    ensures { IfOk result (λ _. string_bytes out.new ≡ string_bytes out.old ++ text.now) }
{
    Ok(out.push_str(text)?)
}

#[tactic(auto, unfolding(crate::specs::Names::string))]
fn quoted(alloc: Global, text: &str) -> Result<String, NoMemory>
    ensures { IfOk result (λ s. string_bytes s ≡ spec.string text.now) }
{
    let value = Value::String(String::from_str(alloc, text)?);
    Ok(value.to_string(alloc)?)
}

/// Appends a text as a JSON string.
pub(crate) fn put_string(alloc: Global, out: &mut String, text: &str) -> Result<(), NoMemory>
    ensures { IfOk result (λ _. string_bytes out.new ≡ string_bytes out.old ++ spec.string text.now) }
{
    put(out, quoted(alloc, text)?.as_str())
}
