//! The spellings of blanks, comments and tokens, as one finite machine that reads characters.
//!
//! A text is a spelling where the machine, from its start, reads all of it and ends in a state that
//! accepts. The state tells the form of the piece.

ghost use Rattle.std.specs.Prelude.{◌≡◌};
ghost use Rattle.psc_lex.specs.Machine as spec;

use crate::class::{is_blank, is_plain_escape, is_single, is_symbol};
use psc_text::{begins_lower, begins_upper, goes_on};

/// What a piece of a source is.
#[derive(Clone, Copy, Debug, PartialEq, Eq)]
pub enum Form {
    Blank,
    Comment,
    Lower,
    Underscore,
    Upper,
    /// `M.x`
    QualifiedLower,
    /// `M.X`
    QualifiedUpper,
    /// `M.+`
    QualifiedOperator,
    /// `M.(+)`
    QualifiedParenthesized,
    Integer,
    Str,
    Character,
    Operator,
    Single,
    /// A character that begins no spelling.
    Wrong,
}

/// How far the machine has read.
#[derive(Clone, Copy, Debug, PartialEq, Eq)]
pub enum State {
    /// Nothing, at the very start of a source.
    Source,
    /// Nothing, elsewhere.
    Start,
    Blank,
    Underscore,
    Lower,
    Upper,
    QualifiedUpper,
    /// A module's name and its dot.
    ModuleDot,
    QualifiedUnderscore,
    QualifiedLower,
    QualifiedDash,
    QualifiedDashes,
    QualifiedOperator,
    /// A module's name, its dot, and a parenthesis.
    Parenthesis,
    ParenthesisDash,
    ParenthesisDashes,
    ParenthesisOperator,
    Parenthesized,
    Zero,
    Digits,
    DigitGap,
    HexMark,
    Hex,
    HexGap,
    Dash,
    Dashes,
    Operator,
    LineComment,
    Brace,
    BlockComment,
    BlockDash,
    BlockEnd,
    Single,
    Quote,
    EmptyString,
    InString,
    StringEscape,
    StringHex,
    StringGap,
    StringEnd,
    Raw,
    RawQuote,
    RawQuotes,
    RawEnd,
    RawEndQuote,
    RawEndQuotes,
    Prime,
    CharacterBody,
    CharacterEscape,
    /// `\x` and so many hex digits.
    CharacterHex(u8),
    CharacterEnd,
}

/// The form of the text that was read, if that is a spelling.
pub(crate) fn accepts(state: State) -> Option<Form>
    ensures { result ≡ spec.accepts state }
{
    match state {
        State::Blank => Some(Form::Blank),
        State::LineComment | State::Dashes | State::BlockEnd => Some(Form::Comment),
        State::Lower => Some(Form::Lower),
        State::Underscore => Some(Form::Underscore),
        State::Upper => Some(Form::Upper),
        State::QualifiedLower => Some(Form::QualifiedLower),
        State::QualifiedUpper => Some(Form::QualifiedUpper),
        State::QualifiedDash | State::QualifiedOperator => Some(Form::QualifiedOperator),
        State::Parenthesized => Some(Form::QualifiedParenthesized),
        State::Zero | State::Digits | State::Hex => Some(Form::Integer),
        State::EmptyString
        | State::StringEnd
        | State::RawEnd
        | State::RawEndQuote
        | State::RawEndQuotes => Some(Form::Str),
        State::CharacterEnd => Some(Form::Character),
        State::Dash | State::Operator => Some(Form::Operator),
        State::Brace | State::Single => Some(Form::Single),
        _ => None,
    }
}

/// The state behind one more character, if a spelling may go on with it.
pub(crate) fn step(state: State, c: char) -> Option<State>
    ensures { result ≡ spec.step state c }
{
    match state {
        State::Source => begin_source(c),
        State::Start => begin(c),
        State::Blank => only(is_blank(c), State::Blank),
        State::Underscore | State::Lower => only(goes_on(c), State::Lower),
        State::Upper => upper(State::Upper, c),
        State::QualifiedUpper => upper(State::QualifiedUpper, c),
        State::ModuleDot => module_dot(c),
        State::QualifiedUnderscore | State::QualifiedLower => only(
            goes_on(c),
            State::QualifiedLower,
        ),
        State::QualifiedDash | State::QualifiedDashes => {
            symbols(State::QualifiedDashes, State::QualifiedOperator, c)
        }
        State::QualifiedOperator => only(is_symbol(c), State::QualifiedOperator),
        State::Parenthesis => symbols(State::ParenthesisDash, State::ParenthesisOperator, c),
        State::ParenthesisDash => closed(State::ParenthesisDashes, c),
        State::ParenthesisDashes => symbols(
            State::ParenthesisDashes,
            State::ParenthesisOperator,
            c,
        ),
        State::ParenthesisOperator => closed(State::ParenthesisOperator, c),
        State::Zero => zero(c),
        State::Digits => number(c.is_ascii_digit(), State::Digits, State::DigitGap, c),
        State::DigitGap => only(c.is_ascii_digit(), State::Digits),
        State::HexMark | State::HexGap => only(c.is_ascii_hexdigit(), State::Hex),
        State::Hex => number(c.is_ascii_hexdigit(), State::Hex, State::HexGap, c),
        State::Dash => symbols(State::Dashes, State::Operator, c),
        State::Dashes => dashes(c),
        State::Operator => only(is_symbol(c), State::Operator),
        State::LineComment => only(c != '\n', State::LineComment),
        State::Brace => only(c == '-', State::BlockComment),
        State::BlockComment => block_comment(c),
        State::BlockDash => block_dash(c),
        _ => step_quoted(state, c),
    }
}

/// The same, of the states inside strings and characters.
fn step_quoted(state: State, c: char) -> Option<State>
    ensures { result ≡ spec.step_quoted state c }
{
    match state {
        State::Quote => quote(c),
        State::EmptyString => only(c == '"', State::Raw),
        State::InString => in_string(c),
        State::StringEscape => string_escape(c),
        State::StringHex => only(c.is_ascii_hexdigit(), State::InString),
        State::StringGap => string_gap(c),
        State::Raw => raw(State::RawQuote, c),
        State::RawQuote => raw(State::RawQuotes, c),
        State::RawQuotes => raw(State::RawEnd, c),
        State::RawEnd => only(c == '"', State::RawEndQuote),
        State::RawEndQuote => only(c == '"', State::RawEndQuotes),
        State::Prime => prime(c),
        State::CharacterBody => only(c == '\'', State::CharacterEnd),
        State::CharacterEscape => character_escape(c),
        State::CharacterHex(digits) => character_hex(digits, c),
        _ => None,
    }
}

fn only(goes_on: bool, next: State) -> Option<State>
    ensures { result ≡ spec.only goes_on next }
{
    if goes_on { Some(next) } else { None }
}

fn begin_source(c: char) -> Option<State>
    ensures { result ≡ spec.begin_source c }
{
    if c == '\u{feff}' {
        Some(State::Blank)
    } else {
        begin(c)
    }
}

fn begin(c: char) -> Option<State>
    ensures { result ≡ spec.begin c }
{
    if is_blank(c) {
        Some(State::Blank)
    } else if c == '_' {
        Some(State::Underscore)
    } else if begins_lower(c) {
        Some(State::Lower)
    } else if begins_upper(c) {
        Some(State::Upper)
    } else if c == '0' {
        Some(State::Zero)
    } else if c.is_ascii_digit() {
        Some(State::Digits)
    } else {
        begin_mark(c)
    }
}

fn begin_mark(c: char) -> Option<State>
    ensures { result ≡ spec.begin_mark c }
{
    if c == '-' {
        Some(State::Dash)
    } else if is_symbol(c) {
        Some(State::Operator)
    } else if c == '"' {
        Some(State::Quote)
    } else if c == '\'' {
        Some(State::Prime)
    } else if c == '{' {
        Some(State::Brace)
    } else {
        only(is_single(c), State::Single)
    }
}

/// Behind an upper name: more of it, or a dot.
fn upper(same: State, c: char) -> Option<State>
    ensures { result ≡ spec.upper same c }
{
    if c == '.' {
        Some(State::ModuleDot)
    } else {
        only(goes_on(c), same)
    }
}

fn module_dot(c: char) -> Option<State>
    ensures { result ≡ spec.module_dot c }
{
    if c == '_' {
        Some(State::QualifiedUnderscore)
    } else if begins_lower(c) {
        Some(State::QualifiedLower)
    } else if begins_upper(c) {
        Some(State::QualifiedUpper)
    } else if c == '(' {
        Some(State::Parenthesis)
    } else {
        symbols(State::QualifiedDash, State::QualifiedOperator, c)
    }
}

/// One more dash, or another character of operators.
fn symbols(dashed: State, operator: State, c: char) -> Option<State>
    ensures { result ≡ spec.symbols dashed operator c }
{
    if c == '-' {
        Some(dashed)
    } else {
        only(is_symbol(c), operator)
    }
}

/// Behind an operator in parentheses: their end, or more of it.
fn closed(dashed: State, c: char) -> Option<State>
    ensures { result ≡ spec.closed dashed c }
{
    if c == ')' {
        Some(State::Parenthesized)
    } else {
        symbols(dashed, State::ParenthesisOperator, c)
    }
}

fn zero(c: char) -> Option<State>
    ensures { result ≡ spec.zero c }
{
    if c == 'x' {
        Some(State::HexMark)
    } else {
        number(c.is_ascii_digit(), State::Digits, State::DigitGap, c)
    }
}

/// Behind a digit: another one, or one `_`.
fn number(is_digit: bool, digits: State, gap: State, c: char) -> Option<State>
    ensures { result ≡ spec.number is_digit digits gap c }
{
    if is_digit {
        Some(digits)
    } else {
        only(c == '_', gap)
    }
}

/// Behind dashes alone: a longer operator, or the rest of the line.
fn dashes(c: char) -> Option<State>
    ensures { result ≡ spec.dashes c }
{
    match symbols(State::Dashes, State::Operator, c) {
        Some(next) => Some(next),
        None => only(c != '\n', State::LineComment),
    }
}

fn block_comment(c: char) -> Option<State>
    ensures { result ≡ spec.block_comment c }
{
    if c == '-' {
        Some(State::BlockDash)
    } else {
        Some(State::BlockComment)
    }
}

fn block_dash(c: char) -> Option<State>
    ensures { result ≡ spec.block_dash c }
{
    if c == '}' {
        Some(State::BlockEnd)
    } else {
        block_comment(c)
    }
}

fn quote(c: char) -> Option<State>
    ensures { result ≡ spec.quote c }
{
    if c == '"' {
        Some(State::EmptyString)
    } else {
        in_string(c)
    }
}

fn in_string(c: char) -> Option<State>
    ensures { result ≡ spec.in_string c }
{
    if c == '"' {
        Some(State::StringEnd)
    } else if c == '\\' {
        Some(State::StringEscape)
    } else {
        only(c != '\n', State::InString)
    }
}

fn string_escape(c: char) -> Option<State>
    ensures { result ≡ spec.string_escape c }
{
    if is_plain_escape(c) {
        Some(State::InString)
    } else if c == 'x' {
        Some(State::StringHex)
    } else {
        only(is_blank(c), State::StringGap)
    }
}

fn string_gap(c: char) -> Option<State>
    ensures { result ≡ spec.string_gap c }
{
    if c == '\\' {
        Some(State::InString)
    } else {
        only(is_blank(c), State::StringGap)
    }
}

/// In a raw string, where a quote leads to the state that is given.
fn raw(behind_quote: State, c: char) -> Option<State>
    ensures { result ≡ spec.raw behind_quote c }
{
    if c == '"' {
        Some(behind_quote)
    } else {
        Some(State::Raw)
    }
}

fn prime(c: char) -> Option<State>
    ensures { result ≡ spec.prime c }
{
    if c == '\\' {
        Some(State::CharacterEscape)
    } else {
        only(c != '\'', State::CharacterBody)
    }
}

fn character_escape(c: char) -> Option<State>
    ensures { result ≡ spec.character_escape c }
{
    if is_plain_escape(c) {
        Some(State::CharacterBody)
    } else {
        only(c == 'x', State::CharacterHex(0))
    }
}

/// Behind so many hex digits: another one of at most six, or the end.
fn character_hex(digits: u8, c: char) -> Option<State>
    ensures { result ≡ spec.character_hex digits c }
{
    if c.is_ascii_hexdigit() && digits < 6 {
        Some(State::CharacterHex(digits + 1))
    } else {
        only(c == '\'' && 0 < digits, State::CharacterEnd)
    }
}
