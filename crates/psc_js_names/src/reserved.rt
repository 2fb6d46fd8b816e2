//! The words that JavaScript reserves.

ghost use Rattle.std.specs.Prelude.{◌≡◌, bytes_eq};
ghost use Rattle.std.specs.List.{list_any};
ghost use Rattle.psc_js_names.specs.Reserved as spec;

/// The words that are no names there.
const RESERVED: [&str; 58] = [
    "abstract",
    "arguments",
    "await",
    "boolean",
    "break",
    "byte",
    "catch",
    "char",
    "const",
    "continue",
    "debugger",
    "default",
    "delete",
    "double",
    "enum",
    "eval",
    "export",
    "extends",
    "final",
    "finally",
    "float",
    "for",
    "function",
    "goto",
    "implements",
    "instanceof",
    "int",
    "interface",
    "long",
    "native",
    "new",
    "null",
    "package",
    "private",
    "protected",
    "public",
    "return",
    "short",
    "static",
    "super",
    "switch",
    "synchronized",
    "this",
    "throw",
    "throws",
    "transient",
    "try",
    "typeof",
    "undefined",
    "var",
    "void",
    "volatile",
    "while",
    "with",
    "yield",
    "NaN",
    "Infinity",
    "Error",
];

/// Whether a word is one of these texts.
fn is_among(texts: &[&str], word: &str) -> bool
    ensures { result ≡ list_any (λ text. bytes_eq text.now word.now) texts.now }
{
    texts.iter().any(|text| text.as_bytes() == word.as_bytes())
}

/// Whether JavaScript reserves the word.
pub(crate) fn is_reserved(word: &str) -> bool
    ensures { result ≡ spec.is_reserved word.now }
{
    is_among(&RESERVED, word)
}
