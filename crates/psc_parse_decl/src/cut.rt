//! A module's symbols as its line and its items.

ghost use Rattle.std.specs.Prelude.{◌≡◌, ◌++◌};

use psc_lex::Sign;
use psc_parse_base::{Next, Sym, eat_next};

/// How many symbols the module line has: up to its `where`, or all where there is none.
fn line_length(syms: &[Sym]) -> usize {
    let mut length: usize = 0;
    for sym in syms {
        length = length.saturating_add(1);
        if sym.next == Next::Token(Sign::Where) {
            return length;
        }
    }
    length
}

/// How many symbols an item has: up to the next mark that is not inside one of its blocks.
fn item_length(syms: &[Sym]) -> usize {
    let mut depth: usize = 0;
    let mut length: usize = 0;
    for sym in syms {
        match sym.next {
            Next::Open => depth = depth.saturating_add(1),
            Next::Item if depth == 0 => return length,
            Next::Close if depth == 0 => return length,
            Next::Close => depth -= 1,
            Next::Token(_) | Next::Empty | Next::Item | Next::End => {}
        }
        length = length.saturating_add(1);
    }
    length
}

/// The symbols before the place and those behind it.
fn cut(syms: &[Sym], at: usize) -> (&[Sym], &[Sym])
    ensures { syms.now ≡ result.0.now ++ result.1.now }
{
    if at <= syms.len() {
        syms.split_at(at)
    } else {
        (syms, &[])
    }
}

/// The module line up to its `where`, and what stands behind it.
pub fn cut_line(syms: &[Sym]) -> (&[Sym], &[Sym])
    ensures { syms.now ≡ result.0.now ++ result.1.now }
{
    cut(syms, line_length(syms))
}

/// What is left of a module's block.
#[derive(Clone, Copy)]
pub enum Left<'a> {
    /// The next item, and what is left behind it.
    Item(&'a [Sym], &'a [Sym]),
    /// The block has ended; these symbols stand behind it.
    Behind(&'a [Sym]),
}

/// The next item; `syms` stand behind the mark of its beginning.
fn item(syms: &[Sym]) -> Left<'_> {
    let (found, rest) = cut(syms, item_length(syms));
    Left::Item(found, rest)
}

/// What comes first in the module's block; `syms` stand behind the module line.
pub fn first_item(syms: &[Sym]) -> Left<'_> {
    if let Some(rest) = eat_next(syms, Next::Empty) {
        return Left::Behind(rest);
    }
    match eat_next(syms, Next::Open) {
        Some(rest) => next_item(rest),
        None => Left::Behind(syms),
    }
}

/// What comes next in the module's block; `syms` stand behind an item.
pub fn next_item(syms: &[Sym]) -> Left<'_> {
    if let Some(rest) = eat_next(syms, Next::Item) {
        return item(rest);
    }
    match eat_next(syms, Next::Close) {
        Some(rest) => Left::Behind(rest),
        None => Left::Behind(syms),
    }
}
