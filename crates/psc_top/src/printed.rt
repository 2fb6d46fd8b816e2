//! Names as JavaScript has them.

ghost use Rattle.std.specs.Prelude.{◌≡◌, IfOk, bytes_eq};
ghost use Rattle.std.specs.List.{list_any};
ghost use Rattle.psc_top.specs.Printed as spec;

use crate::words::is_among;
use psc_text::{Ident, NoMemory, Text};
use std::alloc::Global;

/// The words that are no names there.
const RESERVED: [&str; 58] = [
    "abstract",
    "arguments",
    "await",
    "boolean",
    "break",
    "byte",
    "catch",
    "char",
    "const",
    "continue",
    "debugger",
    "default",
    "delete",
    "double",
    "enum",
    "eval",
    "export",
    "extends",
    "final",
    "finally",
    "float",
    "for",
    "function",
    "goto",
    "implements",
    "instanceof",
    "int",
    "interface",
    "long",
    "native",
    "new",
    "null",
    "package",
    "private",
    "protected",
    "public",
    "return",
    "short",
    "static",
    "super",
    "switch",
    "synchronized",
    "this",
    "throw",
    "throws",
    "transient",
    "try",
    "typeof",
    "undefined",
    "var",
    "void",
    "volatile",
    "while",
    "with",
    "yield",
    "NaN",
    "Infinity",
    "Error",
];

fn is_reserved(word: &[u8]) -> bool
    ensures { result ≡ list_any (λ text. bytes_eq text word.now) spec.reserved }
{
    is_among(&RESERVED, word)
}

/// A name of ASCII letters and digits, with `$$` before it where it is a reserved word.
pub fn printed(alloc: Global, name: &Ident) -> Result<Text, NoMemory>
    ensures { IfOk result (λ text. text ≡ spec.printed name.now.0) }
{
    let name = &name.0;
    if !is_reserved(name.as_str().as_bytes()) {
        return Ok(name.clone()?);
    }
    let mut text = String::from_str(alloc, "$$")?;
    text.push_str(name.as_str())?;
    Text::from_string(text)
}
