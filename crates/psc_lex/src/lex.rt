//! A source as its tokens with their blocks: the cut, the tokens, their labels, and the layout.

ghost use Rattle.std.specs.Prelude.{◌≡◌};
ghost use Rattle.psc_lex.specs.Signs as spec;

use crate::cut::cut;
use crate::layout::{Layout, Now};
use crate::raw::raw_tokens;
use crate::sign::Sign;
use crate::token::{Opens, Tok};
use psc_text::NoMemory;
use std::alloc::Global;

fn characters(alloc: Global, source: &str) -> Result<Vec<char>, NoMemory> {
    let mut out = Vec::with_capacity(alloc, source.len())?;
    for c in source.chars() {
        out.push(c)?;
    }
    Ok(out)
}

fn sign_at(toks: &[Tok], at: usize) -> Sign {
    match toks.get(at) {
        Some(tok) => tok.sign,
        None => Sign::Wrong,
    }
}

#[tactic(auto, unfolding(crate::specs::Signs::is_dot))]
fn is_dot(sign: Sign) -> bool
    ensures { result ≡ spec.is_dot sign }
{
    matches!(sign, Sign::Dot)
}

#[tactic(auto, unfolding(crate::specs::Signs::is_colon))]
fn is_colon(sign: Sign) -> bool
    ensures { result ≡ spec.is_colon sign }
{
    matches!(sign, Sign::Colon | Sign::DoubleColon)
}

#[tactic(auto, unfolding(crate::specs::Signs::is_boolean))]
fn is_boolean(sign: Sign) -> bool
    ensures { result ≡ spec.is_boolean sign }
{
    matches!(sign, Sign::True | Sign::False)
}

/// The sign of a token between two others, where a keyword may be a label and nothing else.
fn in_context(before: Sign, sign: Sign, next: Sign) -> Sign
    ensures { result ≡ spec.in_context before sign next }
{
    if sign.is_keyword() && (is_dot(before) || (is_colon(next) && !is_boolean(sign))) {
        Sign::LabelKeyword
    } else {
        sign
    }
}

/// Finds the keywords that are labels.
fn find_labels(toks: &mut Vec<Tok>) {
    let mut before = Sign::Wrong;
    for at in 0..toks.len() {
        let sign = sign_at(toks.as_slice(), at);
        let next = sign_at(toks.as_slice(), at.saturating_add(1));
        if at < toks.len() {
            toks[at].sign = in_context(before, sign, next);
        }
        before = sign;
    }
}

/// What blocks depend on at a token, where this is the last line on which a token before it stands.
fn now(tok: &Tok, line: u32) -> Now {
    Now {
        sign: tok.sign,
        column: tok.span.column,
        leads: line < tok.span.line,
    }
}

/// Puts the marks of the blocks on the tokens.
fn set_marks(alloc: Global, toks: &mut Vec<Tok>) -> Result<(), NoMemory> {
    let mut layout = Layout::new(alloc);
    let mut is_first = false;
    let mut line = 0;
    for at in 0..toks.len() {
        if at < toks.len() {
            let here = now(&toks[at], line);
            line = toks[at].span.end_line;
            let next = toks.get(at.saturating_add(1)).map(|tok| now(tok, line));
            let mark = layout.mark(is_first, here, next)?;
            is_first = mark.opens == Opens::Block;
            toks[at].mark = mark;
        }
    }
    Ok(())
}

/// The tokens of a source, with the blocks that they stand in. Nothing is refused: a character that
/// begins no token is a token of the kind `Wrong`.
pub fn lex_layout(alloc: Global, source: &str) -> Result<Vec<Tok>, NoMemory> {
    let characters = characters(alloc, source)?;
    let pieces = cut(alloc, characters.as_slice())?;
    let mut toks = raw_tokens(alloc, characters.as_slice(), pieces.as_slice())?;
    find_labels(&mut toks);
    set_marks(alloc, &mut toks)?;
    Ok(toks)
}
