//! Binders in brackets, with arguments and with operators.

use crate::token::{begins_atom, names_at, negative, token};
use psc_ast::{BinderField, BinderStep, BinderTree};
use psc_lex::{Sign, Tok};
use psc_parse_base::{
    Fault, Next, Parsed, Sym, content, eat, expect, label, mention, peek, sees, span_of, symbols,
    whole,
};
use psc_parse_type::whole_type;
use psc_text::NoMemory;
use sqlite_items::{Boxed, Items};
use std::alloc::Global;

/// The rules of binders. `depth` falls with each step into a bracket.
#[derive(Clone, Copy)]
struct Binders {
    alloc: Global,
    depth: usize,
}

fn is_upper(next: Next) -> bool {
    matches!(next, Next::Token(Sign::Upper | Sign::QualifiedUpper))
}

fn is_operator(next: Next) -> bool {
    match next {
        Next::Token(sign) => sign.is_operator(),
        _ => false,
    }
}

fn is_label(next: Next) -> bool {
    match next {
        Next::Token(sign) => sign.is_label(),
        _ => false,
    }
}

/// A tree that is made, in the place of its own that other trees hold it in, and what stands behind it.
fn made(alloc: Global, tree: BinderTree, rest: &[Sym]) -> Parsed<'_, Boxed<BinderTree>> {
    Ok((Boxed::new(alloc, tree)?, rest))
}

/// The same for what was read.
fn boxed(alloc: Global, read: Parsed<'_, BinderTree>) -> Parsed<'_, Boxed<BinderTree>> {
    let (tree, rest) = read?;
    made(alloc, tree, rest)
}

impl Binders {
    /// A whole binder inside brackets.
    #[cycle(binders)]
    fn inner<'a>(&self, syms: &'a [Sym]) -> Parsed<'a, Boxed<BinderTree>> {
        if self.depth == 0 {
            return Err(Fault::Grammar);
        }
        Binders {
            alloc: self.alloc,
            depth: self.depth - 1,
        }
        .whole(syms)
    }

    /// Binders with commas between them.
    #[cycle(binders)]
    fn listed<'a>(&self, syms: &'a [Sym]) -> Parsed<'a, Items<BinderTree>> {
        let mut found = Items::new(self.alloc);
        let mut rest = syms;
        for _turn in 0..syms.len() {
            let (next, after) = self.inner(rest)?;
            found.push(next.into_inner())?;
            let Some(after) = eat(after, Sign::Comma) else {
                return Ok((found, after));
            };
            rest = after;
        }
        Err(Fault::Grammar)
    }

    /// `(b)` or `(b :: t)`, from the parenthesis on.
    #[cycle(binders)]
    fn in_parens<'a>(&self, syms: &'a [Sym]) -> Parsed<'a, Boxed<BinderTree>> {
        let (inner, rest) = self.inner(expect(syms, Sign::LeftParen)?)?;
        let Some(after) = eat(rest, Sign::DoubleColon) else {
            let rest = expect(rest, Sign::RightParen)?;
            return made(
                self.alloc,
                BinderTree::Paren {
                    inner,
                    span: span_of(syms, rest),
                },
                rest,
            );
        };
        let (x_type, rest) = whole_type(self.alloc, after)?;
        let rest = expect(rest, Sign::RightParen)?;
        made(
            self.alloc,
            BinderTree::Typed {
                inner,
                x_type,
                span: span_of(syms, rest),
            },
            rest,
        )
    }

    #[cycle(binders)]
    fn array<'a>(&self, syms: &'a [Sym]) -> Parsed<'a, Boxed<BinderTree>> {
        let open = expect(syms, Sign::LeftBracket)?;
        if let Some(rest) = eat(open, Sign::RightBracket) {
            let items = Items::new(self.alloc);
            return made(
                self.alloc,
                BinderTree::Array {
                    items,
                    span: span_of(syms, rest),
                },
                rest,
            );
        }
        let (items, rest) = self.listed(open)?;
        let rest = expect(rest, Sign::RightBracket)?;
        made(
            self.alloc,
            BinderTree::Array {
                items,
                span: span_of(syms, rest),
            },
            rest,
        )
    }

    #[cycle(binders)]
    fn field<'a>(&self, syms: &'a [Sym]) -> Parsed<'a, BinderField> {
        let (label, rest) = label(self.alloc, syms)?;
        let Some(after) = eat(rest, Sign::Colon) else {
            return Ok((BinderField { label, value: None }, rest));
        };
        let (value, rest) = self.inner(after)?;
        Ok((
            BinderField {
                label,
                value: Some(value),
            },
            rest,
        ))
    }

    #[cycle(binders)]
    fn fields<'a>(&self, syms: &'a [Sym]) -> Parsed<'a, Items<BinderField>> {
        let mut found = Items::new(self.alloc);
        if !is_label(peek(syms)) {
            return Ok((found, syms));
        }
        let mut rest = syms;
        for _turn in 0..syms.len() {
            let (next, after) = self.field(rest)?;
            found.push(next)?;
            let Some(after) = eat(after, Sign::Comma) else {
                return Ok((found, after));
            };
            rest = after;
        }
        Err(Fault::Grammar)
    }

    #[cycle(binders)]
    fn in_braces<'a>(&self, syms: &'a [Sym]) -> Parsed<'a, Boxed<BinderTree>> {
        let (fields, rest) = self.fields(expect(syms, Sign::LeftBrace)?)?;
        let rest = expect(rest, Sign::RightBrace)?;
        made(
            self.alloc,
            BinderTree::XRecord {
                fields,
                span: span_of(syms, rest),
            },
            rest,
        )
    }

    /// An atom without names and `@` before it.
    #[cycle(binders)]
    fn bare<'a>(&self, syms: &'a [Sym]) -> Parsed<'a, Boxed<BinderTree>> {
        match peek(syms) {
            Next::Token(Sign::LeftParen) => self.in_parens(syms),
            Next::Token(Sign::LeftBracket) => self.array(syms),
            Next::Token(Sign::LeftBrace) => self.in_braces(syms),
            _ => boxed(self.alloc, token(self.alloc, syms)),
        }
    }

    #[cycle(binders)]
    fn atom<'a>(&self, syms: &'a [Sym]) -> Parsed<'a, Boxed<BinderTree>> {
        let (names, rest) = names_at(self.alloc, syms)?;
        let (inner, rest) = self.bare(rest)?;
        if names.is_empty() {
            return Ok((inner, rest));
        }
        made(
            self.alloc,
            BinderTree::Named {
                names,
                inner,
                span: span_of(syms, rest),
            },
            rest,
        )
    }

    #[cycle(binders)]
    fn atoms<'a>(&self, syms: &'a [Sym]) -> Parsed<'a, Items<BinderTree>> {
        let mut found = Items::new(self.alloc);
        let mut rest = syms;
        for _turn in 0..syms.len() {
            if !begins_atom(peek(rest)) {
                return Ok((found, rest));
            }
            let (next, after) = self.atom(rest)?;
            found.push(next.into_inner())?;
            rest = after;
        }
        Ok((found, rest))
    }

    /// An operand of a chain.
    #[cycle(binders)]
    fn operand<'a>(&self, syms: &'a [Sym]) -> Parsed<'a, Boxed<BinderTree>> {
        if sees(syms, Sign::Minus) {
            return boxed(self.alloc, negative(syms));
        }
        if !is_upper(peek(syms)) {
            return self.atom(syms);
        }
        let (name, rest) = mention(self.alloc, syms)?;
        let (arguments, rest) = self.atoms(rest)?;
        made(
            self.alloc,
            BinderTree::Constructor {
                name,
                arguments,
                span: span_of(syms, rest),
            },
            rest,
        )
    }

    /// Operators and the operands behind them, as many as come.
    #[cycle(binders)]
    fn steps<'a>(&self, syms: &'a [Sym]) -> Parsed<'a, Items<BinderStep>> {
        let mut found = Items::new(self.alloc);
        let mut rest = syms;
        for _turn in 0..syms.len() {
            if !is_operator(peek(rest)) {
                return Ok((found, rest));
            }
            let (op, after) = mention(self.alloc, rest)?;
            let (operand, after) = self.operand(after)?;
            found.push(BinderStep {
                op,
                operand: operand.into_inner(),
            })?;
            rest = after;
        }
        Ok((found, rest))
    }

    #[cycle(binders)]
    fn whole<'a>(&self, syms: &'a [Sym]) -> Parsed<'a, Boxed<BinderTree>> {
        let (first, rest) = self.operand(syms)?;
        let (steps, rest) = self.steps(rest)?;
        if steps.is_empty() {
            return Ok((first, rest));
        }
        made(
            self.alloc,
            BinderTree::Chain {
                first,
                rest: steps,
                span: span_of(syms, rest),
            },
            rest,
        )
    }
}

fn rules(alloc: Global, syms: &[Sym]) -> Binders {
    Binders {
        alloc,
        depth: syms.len(),
    }
}

/// A binder.
pub fn one_binder(alloc: Global, syms: &[Sym]) -> Parsed<'_, Boxed<BinderTree>> {
    rules(alloc, syms).whole(syms)
}

/// Binders that need no parentheses, as many as come.
pub fn atoms(alloc: Global, syms: &[Sym]) -> Parsed<'_, Items<BinderTree>> {
    rules(alloc, syms).atoms(syms)
}

/// One such binder or more.
pub fn some_atoms(alloc: Global, syms: &[Sym]) -> Parsed<'_, Items<BinderTree>> {
    let (found, rest) = atoms(alloc, syms)?;
    if found.is_empty() {
        Err(Fault::Grammar)
    } else {
        Ok((found, rest))
    }
}

/// Binders with commas between them.
pub fn list(alloc: Global, syms: &[Sym]) -> Parsed<'_, Items<BinderTree>> {
    Binders {
        alloc,
        depth: syms.len().saturating_add(1),
    }
    .listed(syms)
}

/// The binder that the tokens are.
///
/// None exactly where they are not of the grammar. Tokens nest no deeper than the limit on items, which the caller has seen.
pub fn parse_binder(alloc: Global, toks: &[Tok]) -> Result<Option<BinderTree>, NoMemory> {
    let syms = symbols(alloc, toks)?;
    match whole(one_binder(alloc, content(syms.as_slice())))? {
        Some(found) => Ok(Some(found.into_inner())),
        None => Ok(None),
    }
}
