//! Kinds, and type variables with theirs.

use psc_ast::{KindTree, TypeVar};
use psc_lex::Sign;
use psc_parse_base::{Fault, Next, Parsed, Sym, eat, expect, ident, lower, sees, span_of};
use sqlite_items::{Boxed, Items};
use std::alloc::Global;

/// The rules of kinds. `depth` falls with each step into parentheses.
#[derive(Clone, Copy)]
struct Kinds {
    alloc: Global,
    depth: usize,
}

/// The upper names that a kind knows.
#[derive(Clone, Copy, Debug, PartialEq, Eq)]
enum KindWord {
    XType,
    Constraint,
    Symbol,
    Row,
}

fn kind_word(syms: &[Sym]) -> Option<KindWord> {
    match syms {
        [first, ..] if first.next == Next::Token(Sign::Upper) => match first.text.as_str() {
            "Type" => Some(KindWord::XType),
            "Constraint" => Some(KindWord::Constraint),
            "Symbol" => Some(KindWord::Symbol),
            "Row" => Some(KindWord::Row),
            _ => None,
        },
        _ => None,
    }
}

/// How often `Row` comes, and what stands behind it.
fn rows(syms: &[Sym]) -> (u32, &[Sym]) {
    let mut count: u32 = 0;
    let mut rest = syms;
    for _turn in 0..syms.len() {
        match rest {
            [_, after @ ..] if kind_word(rest) == Some(KindWord::Row) => {
                count = count.saturating_add(1);
                rest = after;
            }
            _ => return (count, rest),
        }
    }
    (count, rest)
}

/// A kind of one word other than `Row`.
fn word(syms: &[Sym]) -> Parsed<'_, KindTree> {
    let [first, rest @ ..] = syms else {
        return Err(Fault::Grammar);
    };
    let span = first.span;
    match kind_word(syms) {
        Some(KindWord::XType) => Ok((KindTree::XType { span }, rest)),
        Some(KindWord::Constraint) => Ok((KindTree::Constraint { span }, rest)),
        Some(KindWord::Symbol) => Ok((KindTree::Symbol { span }, rest)),
        Some(KindWord::Row) | None => Err(Fault::Grammar),
    }
}

impl Kinds {
    #[cycle(kinds)]
    fn inner<'a>(&self, syms: &'a [Sym]) -> Parsed<'a, KindTree> {
        if self.depth == 0 {
            return Err(Fault::Grammar);
        }
        Kinds {
            alloc: self.alloc,
            depth: self.depth - 1,
        }
        .whole(syms)
    }

    #[cycle(kinds)]
    fn bare<'a>(&self, syms: &'a [Sym]) -> Parsed<'a, KindTree> {
        let Some(rest) = eat(syms, Sign::LeftParen) else {
            return word(syms);
        };
        let (inner, rest) = self.inner(rest)?;
        let rest = expect(rest, Sign::RightParen)?;
        let inner = Boxed::new(self.alloc, inner)?;
        Ok((
            KindTree::Paren {
                inner,
                span: span_of(syms, rest),
            },
            rest,
        ))
    }

    #[cycle(kinds)]
    fn atom<'a>(&self, syms: &'a [Sym]) -> Parsed<'a, KindTree> {
        let (rows, rest) = rows(syms);
        let (of, rest) = self.bare(rest)?;
        if rows == 0 {
            return Ok((of, rest));
        }
        let of = Boxed::new(self.alloc, of)?;
        Ok((
            KindTree::Row {
                rows,
                of,
                span: span_of(syms, rest),
            },
            rest,
        ))
    }

    #[cycle(kinds)]
    fn whole<'a>(&self, syms: &'a [Sym]) -> Parsed<'a, KindTree> {
        let mut from = Items::new(self.alloc);
        let (mut to, mut rest) = self.atom(syms)?;
        for _turn in 0..syms.len() {
            let Some(after) = eat(rest, Sign::Arrow) else {
                return arrow(self.alloc, from, to, syms, rest);
            };
            from.push(to)?;
            (to, rest) = self.atom(after)?;
        }
        Err(Fault::Grammar)
    }
}

/// The kind of an arrow, or `to` itself where nothing stands before it.
fn arrow<'a>(
    alloc: Global,
    from: Items<KindTree>,
    to: KindTree,
    syms: &'a [Sym],
    rest: &'a [Sym],
) -> Parsed<'a, KindTree> {
    if from.is_empty() {
        return Ok((to, rest));
    }
    let to = Boxed::new(alloc, to)?;
    Ok((
        KindTree::Arrow {
            from,
            to,
            span: span_of(syms, rest),
        },
        rest,
    ))
}

/// A kind.
pub fn kind(alloc: Global, syms: &[Sym]) -> Parsed<'_, KindTree> {
    Kinds {
        alloc,
        depth: syms.len(),
    }
    .whole(syms)
}

/// `a` or `(a :: k)`
fn variable(alloc: Global, syms: &[Sym]) -> Parsed<'_, TypeVar> {
    let Some(rest) = eat(syms, Sign::LeftParen) else {
        let (name, rest) = ident(syms)?;
        let span = name.span;
        return Ok((
            TypeVar {
                name,
                kind: None,
                span,
            },
            rest,
        ));
    };
    let (name, rest) = ident(rest)?;
    let rest = expect(rest, Sign::DoubleColon)?;
    let (kind, rest) = kind(alloc, rest)?;
    let rest = expect(rest, Sign::RightParen)?;
    Ok((
        TypeVar {
            name,
            kind: Some(kind),
            span: span_of(syms, rest),
        },
        rest,
    ))
}

/// Type variables, as many as come.
pub fn variables(alloc: Global, syms: &[Sym]) -> Parsed<'_, Items<TypeVar>> {
    let mut found = Items::new(alloc);
    let mut rest = syms;
    for _turn in 0..syms.len() {
        if !lower(rest) && !sees(rest, Sign::LeftParen) {
            return Ok((found, rest));
        }
        let (next, after) = variable(alloc, rest)?;
        found.push(next)?;
        rest = after;
    }
    Ok((found, rest))
}

/// One type variable or more.
pub fn some_variables(alloc: Global, syms: &[Sym]) -> Parsed<'_, Items<TypeVar>> {
    let (found, rest) = variables(alloc, syms)?;
    if found.is_empty() {
        Err(Fault::Grammar)
    } else {
        Ok((found, rest))
    }
}
