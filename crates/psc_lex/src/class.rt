//! The characters that tokens are made of, besides the letters of names.

ghost use Rattle.std.specs.Prelude.{◌≡◌};
ghost use Rattle.psc_lex.specs.Characters as spec;

use unicode::properties::GeneralCategory;

/// Whether the character is a space, a tab or a line end.
pub(crate) fn is_blank(c: char) -> bool
    ensures { result ≡ spec.is_blank c }
{
    c == ' ' || c == '\n' || c == '\r' || c == '\t'
}

/// Whether operators are made of this character.
pub(crate) fn is_symbol(c: char) -> bool
    ensures { result ≡ spec.is_symbol c }
{
    if c < '\u{80}' {
        is_ascii_symbol(c)
    } else {
        is_symbol_category(GeneralCategory::for_char(c))
    }
}

fn is_ascii_symbol(c: char) -> bool
    ensures { result ≡ spec.is_ascii_symbol c }
{
    matches!(
        c,
        '!' | '#'
            | '$'
            | '%'
            | '&'
            | '*'
            | '+'
            | '-'
            | '.'
            | '/'
            | ':'
            | '<'
            | '='
            | '>'
            | '?'
            | '@'
            | '\\'
            | '^'
            | '|'
            | '~'
    )
}

fn is_symbol_category(category: GeneralCategory) -> bool
    ensures { result ≡ spec.is_symbol_category category }
{
    matches!(
        category,
        GeneralCategory::MathSymbol
            | GeneralCategory::CurrencySymbol
            | GeneralCategory::ModifierSymbol
            | GeneralCategory::OtherSymbol
    )
}

/// Whether the character is a bracket, a comma or a backtick, and so a token by itself.
pub(crate) fn is_single(c: char) -> bool
    ensures { result ≡ spec.is_single c }
{
    matches!(c, '(' | ')' | ',' | '[' | ']' | '`' | '{' | '}')
}

/// Whether an escape may consist of a backslash and this character.
pub(crate) fn is_plain_escape(c: char) -> bool
    ensures { result ≡ spec.is_plain_escape c }
{
    matches!(c, '"' | '\'' | '\\' | 'n' | 'r' | 't')
}
