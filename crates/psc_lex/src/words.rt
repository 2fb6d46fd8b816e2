//! The signs of pieces: which keyword, which reserved operator, which bracket a spelling is.

use crate::class::is_blank;
use crate::machine::Form;
use crate::sign::Sign;
use crate::token::TokKind;
use psc_text::{begins_lower, begins_upper};
use unicode::properties::GeneralCategory;

/// A spelling, by its first character and the others, and its sign. Most others differ from it in the first character.
pub(crate) type Spelling = (char, &'static str, Sign);

/// The keywords, and the names that the grammar also names.
pub(crate) const WORDS: [Spelling; 27] = [
    ('w', "here", Sign::Where),
    ('i', "mport", Sign::Import),
    ('l', "et", Sign::Let),
    ('i', "n", Sign::In),
    ('d', "o", Sign::Do),
    ('c', "ase", Sign::Case),
    ('o', "f", Sign::Of),
    ('i', "f", Sign::If),
    ('t', "hen", Sign::Then),
    ('e', "lse", Sign::Else),
    ('d', "ata", Sign::Data),
    ('t', "ype", Sign::XType),
    ('n', "ewtype", Sign::Newtype),
    ('c', "lass", Sign::Class),
    ('i', "nstance", Sign::Instance),
    ('d', "erive", Sign::Derive),
    ('f', "oreign", Sign::Foreign),
    ('f', "orall", Sign::Forall),
    ('m', "odule", Sign::Module),
    ('i', "nfix", Sign::Infix),
    ('i', "nfixl", Sign::Infixl),
    ('i', "nfixr", Sign::Infixr),
    ('a', "do", Sign::Ado),
    ('t', "rue", Sign::True),
    ('f', "alse", Sign::False),
    ('a', "s", Sign::As),
    ('h', "iding", Sign::Hiding),
];

/// The reserved operators, and those that the grammar also names.
pub(crate) const OPERATORS: [Spelling; 18] = [
    ('=', "", Sign::Equals),
    (':', ":", Sign::DoubleColon),
    ('-', ">", Sign::Arrow),
    ('|', "", Sign::Bar),
    ('.', "", Sign::Dot),
    ('\\', "", Sign::Backslash),
    ('<', "-", Sign::LeftArrow),
    ('=', ">", Sign::FatArrow),
    ('@', "", Sign::At),
    ('-', "", Sign::Minus),
    (':', "", Sign::Colon),
    ('<', "=", Sign::LessEqual),
    ('.', ".", Sign::DotDot),
    ('\u{2237}', "", Sign::DoubleColon),
    ('\u{2192}', "", Sign::Arrow),
    ('\u{2190}', "", Sign::LeftArrow),
    ('\u{21d2}', "", Sign::FatArrow),
    ('\u{2200}', "", Sign::Forall),
];

/// No keyword and no operator of the tables is longer.
const LONGEST_WORD: usize = 8;

/// Whether these characters spell the word.
pub(crate) fn spells(text: &[char], word: &str) -> bool {
    let mut rest = text;
    for letter in word.chars() {
        match rest {
            [first, more @ ..] if *first == letter => rest = more,
            _ => return false,
        }
    }
    rest.is_empty()
}

/// What the table says of these characters, or what it says of no word.
fn look_up(table: &[Spelling], text: &[char], other: Sign) -> Sign {
    match text {
        [first, rest @ ..] if rest.len() < LONGEST_WORD => {
            for (letter, word, sign) in table {
                if *letter == *first && spells(rest, word) {
                    return *sign;
                }
            }
            other
        }
        _ => other,
    }
}

fn single_sign(text: &[char]) -> Sign {
    match text {
        ['('] => Sign::LeftParen,
        [')'] => Sign::RightParen,
        ['['] => Sign::LeftBracket,
        [']'] => Sign::RightBracket,
        ['{'] => Sign::LeftBrace,
        ['}'] => Sign::RightBrace,
        [','] => Sign::Comma,
        ['`'] => Sign::Tick,
        _ => Sign::Wrong,
    }
}

/// The characters behind the first dot that has no upper name behind it.
fn behind_module(text: &[char]) -> &[char] {
    let mut rest = text;
    'names: while let [first, more @ ..] = rest {
        if *first == '.' && !begins_name(more) {
            return more;
        }
        rest = more;
    }
    rest
}

fn begins_name(text: &[char]) -> bool {
    match text {
        [first, ..] => begins_upper(*first),
        [] => false,
    }
}

/// The sign of a lower name behind a module's name.
fn qualified_lower_sign(text: &[char]) -> Sign {
    match look_up(&WORDS, behind_module(text), Sign::Lower) {
        Sign::Do | Sign::Ado => Sign::QualifiedDo,
        sign if sign.is_lower() => Sign::QualifiedLower,
        _ => Sign::QualifiedReserved,
    }
}

/// The sign of an operator behind a module's name, where an unreserved one has the sign given.
fn qualified_operator_sign(operator: &[char], unreserved: Sign) -> Sign {
    if look_up(&OPERATORS, operator, Sign::Operator).is_plain_operator() {
        unreserved
    } else {
        Sign::QualifiedReserved
    }
}

/// The operator in the parentheses behind a module's name.
fn in_parentheses(text: &[char]) -> &[char] {
    match behind_module(text) {
        ['(', operator @ .., ')'] => operator,
        other => other,
    }
}

fn is_letter(c: char) -> bool {
    begins_upper(c)
        || (c != '_' && begins_lower(c))
        || is_other_letter(GeneralCategory::for_char(c))
}

fn is_other_letter(category: GeneralCategory) -> bool {
    matches!(
        category,
        GeneralCategory::ModifierLetter | GeneralCategory::OtherLetter
    )
}

/// Whether these characters behind an integer make it the start of a number with a fraction or an
/// exponent.
fn goes_on_as_decimal(behind: &[char]) -> bool {
    match behind {
        ['e', ..] => true,
        ['.', digit, ..] => digit.is_ascii_digit(),
        _ => false,
    }
}

fn is_before_letter(behind: &[char]) -> bool {
    match behind {
        [first, ..] => is_letter(*first),
        [] => false,
    }
}

fn is_before_blank(behind: &[char]) -> bool {
    match behind {
        [first, ..] => is_blank(*first),
        [] => true,
    }
}

/// The sign of an operator, by the characters round it.
fn operator_sign(text: &[char], is_behind_blank: bool, behind: &[char]) -> Sign {
    match look_up(&OPERATORS, text, Sign::Operator) {
        Sign::At if is_behind_blank && !is_before_blank(behind) => Sign::VisibleAt,
        Sign::Operator if spells(text, "?") && is_before_letter(behind) => Sign::Hole,
        sign => sign,
    }
}

/// The sign of a piece that is a token, by its characters and those round it.
pub(crate) fn sign_of(form: Form, text: &[char], is_behind_blank: bool, behind: &[char]) -> Sign {
    match form {
        Form::Lower => look_up(&WORDS, text, Sign::Lower),
        Form::Underscore => Sign::Underscore,
        Form::Upper => Sign::Upper,
        Form::QualifiedLower => qualified_lower_sign(text),
        Form::QualifiedUpper => Sign::QualifiedUpper,
        Form::QualifiedOperator => qualified_operator_sign(
            behind_module(text),
            Sign::QualifiedOperator,
        ),
        Form::QualifiedParenthesized => {
            qualified_operator_sign(in_parentheses(text), Sign::QualifiedParenthesized)
        }
        Form::Integer if goes_on_as_decimal(behind) => Sign::Decimal,
        Form::Integer => Sign::Integer,
        Form::Str => Sign::Str,
        Form::Character => Sign::Character,
        Form::Operator => operator_sign(text, is_behind_blank, behind),
        Form::Single => single_sign(text),
        Form::Blank | Form::Comment | Form::Wrong => Sign::Wrong,
    }
}

/// The kind of a token of this form and sign.
pub(crate) fn kind_of(form: Form, sign: Sign) -> TokKind {
    match form {
        Form::Lower if sign.is_keyword() => TokKind::Keyword,
        Form::Lower => TokKind::Lower,
        Form::Underscore => TokKind::Underscore,
        Form::Upper => TokKind::Upper,
        Form::QualifiedLower
        | Form::QualifiedUpper
        | Form::QualifiedOperator
        | Form::QualifiedParenthesized => TokKind::Qualified,
        Form::Integer => TokKind::Integer,
        Form::Str => TokKind::Str,
        Form::Character => TokKind::Character,
        Form::Operator => TokKind::Operator,
        Form::Single => TokKind::Single,
        Form::Blank | Form::Comment | Form::Wrong => TokKind::Wrong,
    }
}
