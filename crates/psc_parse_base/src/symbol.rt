//! Tokens and the marks of their blocks as one flat list.

use psc_lex::{Opens, Sign, Tok};
use psc_text::{NoMemory, Span, Text};
use std::alloc::Global;

/// What comes next.
#[derive(Clone, Copy, Debug, PartialEq, Eq)]
pub enum Next {
    Token(Sign),
    /// A block begins, and its first item comes.
    Open,
    /// A block without items.
    Empty,
    /// An item of a block begins.
    Item,
    /// A block ends.
    Close,
    /// Nothing is left.
    End,
}

/// A token, or a mark of a block.
#[derive(Drop)]
pub struct Sym {
    pub next: Next,
    /// The token as it is spelled; nothing at a mark.
    pub text: Text,
    /// The token's place. At an item's beginning that of its first token, at any other mark that of the token before.
    pub span: Span,
}

/// Appends marks that stand for the ends of blocks.
fn push_ends(out: &mut Vec<Sym>, blank: &Text, ends: u32, span: Span) -> Result<(), NoMemory> {
    for _ in 0..ends {
        push_mark(out, Next::Close, blank, span)?;
    }
    Ok(())
}

fn push_mark(out: &mut Vec<Sym>, next: Next, blank: &Text, span: Span) -> Result<(), NoMemory> {
    let text = blank.clone()?;
    out.push(Sym { next, text, span })?;
    Ok(())
}

/// Appends a token with its marks; `before` is the place of the token before it.
fn push_token(out: &mut Vec<Sym>, blank: &Text, tok: &Tok, before: Span) -> Result<(), NoMemory> {
    push_ends(out, blank, tok.mark.ends, before)?;
    if tok.mark.item {
        push_mark(out, Next::Item, blank, tok.span)?;
    }
    let text = tok.text.clone()?;
    out.push(Sym {
        next: Next::Token(tok.sign),
        text,
        span: tok.span,
    })?;
    match tok.mark.opens {
        Opens::No => Ok(()),
        Opens::Block => push_mark(out, Next::Open, blank, tok.span),
        Opens::Empty => push_mark(out, Next::Empty, blank, tok.span),
    }
}

/// The tokens with a mark for each begin and end of a block and of an item. A block that is open behind the last token
/// ends there.
pub fn symbols(alloc: Global, toks: &[Tok]) -> Result<Vec<Sym>, NoMemory> {
    let blank = Text::new(alloc, "")?;
    let mut out = Vec::new(alloc);
    let mut open: u32 = 0;
    let mut before = Span::START;
    for tok in toks {
        push_token(&mut out, &blank, tok, before)?;
        open = open.saturating_sub(tok.mark.ends);
        if tok.mark.opens == Opens::Block {
            open = open.saturating_add(1);
        }
        before = tok.span;
    }
    push_ends(&mut out, &blank, open, before)?;
    Ok(out)
}
