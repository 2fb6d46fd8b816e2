//! What comes next, by its first tokens.

use psc_lex::Sign;
use psc_parse_base::{Next, Sym, peek, peek_second};

/// Whether an operator comes that is not reserved.
pub fn is_operator(next: Next) -> bool {
    match next {
        Next::Token(sign) => sign.is_operator(),
        _ => false,
    }
}

/// Whether an operator and `)` come.
pub fn is_operator_alone(syms: &[Sym]) -> bool {
    is_operator(peek(syms)) && peek_second(syms) == Next::Token(Sign::RightParen)
}

/// Whether a keyword or symbol comes that begins a form.
fn begins_form(sign: Sign) -> bool {
    matches!(
        sign,
        Sign::Backslash | Sign::If | Sign::Case | Sign::Let | Sign::Do | Sign::Ado
    )
}

fn begins_literal(sign: Sign) -> bool {
    matches!(
        sign,
        Sign::Integer | Sign::Str | Sign::Character | Sign::True | Sign::False
    )
}

fn begins_bracket(sign: Sign) -> bool {
    matches!(sign, Sign::LeftParen | Sign::LeftBracket | Sign::LeftBrace)
}

fn begins_name(sign: Sign) -> bool {
    sign.is_lower()
        || sign.is_upper()
        || matches!(
            sign,
            Sign::QualifiedLower | Sign::QualifiedParenthesized | Sign::Underscore
        )
}

/// Whether a part of a call comes.
pub fn begins_part(next: Next) -> bool {
    match next {
        Next::Token(sign) => {
            begins_name(sign) || begins_literal(sign) || begins_bracket(sign) || begins_form(sign)
        }
        _ => false,
    }
}
