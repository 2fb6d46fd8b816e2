//! The letters of names, by the general categories of Unicode.

ghost use Rattle.std.specs.Prelude.{◌≡◌};
ghost use Rattle.psc_text.specs.Letters as spec;

use unicode::properties::GeneralCategory;

/// Whether an upper name may begin with this character: an upper or title case letter.
pub fn begins_upper(c: char) -> bool
    ensures { result ≡ spec.begins_upper c }
{
    matches!(
        GeneralCategory::for_char(c),
        GeneralCategory::UppercaseLetter | GeneralCategory::TitlecaseLetter
    )
}

/// Whether a lower name may begin with this character: a lower case letter or `_`.
pub fn begins_lower(c: char) -> bool
    ensures { result ≡ spec.begins_lower c }
{
    c == '_' || GeneralCategory::for_char(c) == GeneralCategory::LowercaseLetter
}

/// Whether a name may go on with this character: a letter, a number, `_` or `'`.
pub fn goes_on(c: char) -> bool
    ensures { result ≡ spec.goes_on c }
{
    c == '_' || c == '\'' || is_letter_or_number(GeneralCategory::for_char(c))
}

fn is_letter_or_number(category: GeneralCategory) -> bool
    ensures { result ≡ spec.is_letter_or_number category }
{
    matches!(
        category,
        GeneralCategory::UppercaseLetter
            | GeneralCategory::LowercaseLetter
            | GeneralCategory::TitlecaseLetter
            | GeneralCategory::ModifierLetter
            | GeneralCategory::OtherLetter
            | GeneralCategory::DecimalNumber
            | GeneralCategory::LetterNumber
            | GeneralCategory::OtherNumber
    )
}
