//! What a token is to nesting.

ghost use Rattle.std.specs.Prelude.{◌≡◌};
ghost use Rattle.psc_nesting.specs.Role as spec;

use psc_lex::Sign;

/// The brackets that have partners.
#[derive(Clone, Copy)]
pub(crate) enum Shape {
    Paren,
    Bracket,
    Brace,
}

/// What a token is to nesting.
#[derive(Clone, Copy)]
pub(crate) enum Role {
    Opens(Shape),
    Closes(Shape),
    Comma,
    /// A `case`, which reaches on as the next ones do, and waits for its `of`.
    Case,
    Of,
    /// A lambda, `if`, `let` or `forall`, which reaches on to the end of what holds it.
    Reaches,
    Plain,
}

pub(crate) fn role_of(sign: Sign) -> Role
    ensures { result ≡ spec.role_of sign }
{
    match sign {
        Sign::LeftParen => Role::Opens(Shape::Paren),
        Sign::LeftBracket => Role::Opens(Shape::Bracket),
        Sign::LeftBrace => Role::Opens(Shape::Brace),
        Sign::RightParen => Role::Closes(Shape::Paren),
        Sign::RightBracket => Role::Closes(Shape::Bracket),
        Sign::RightBrace => Role::Closes(Shape::Brace),
        Sign::Comma => Role::Comma,
        Sign::Case => Role::Case,
        Sign::Of => Role::Of,
        Sign::Backslash | Sign::If | Sign::Let | Sign::Forall => Role::Reaches,
        _ => Role::Plain,
    }
}

pub(crate) fn is_same(left: Shape, right: Shape) -> bool
    ensures { result ≡ spec.is_same left right }
{
    match left {
        Shape::Paren => matches!(right, Shape::Paren),
        Shape::Bracket => matches!(right, Shape::Bracket),
        Shape::Brace => matches!(right, Shape::Brace),
    }
}
