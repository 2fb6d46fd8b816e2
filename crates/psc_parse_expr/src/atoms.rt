//! Brackets, labels behind dots, and updates.

use crate::exprs::Exprs;
use psc_ast::{ExprTree, Field, Update};
use psc_lex::Sign;
use psc_parse_atom::{
    Holes, accessed, bare_hole, hole, is_field_hole, is_operator_alone, is_scrutinee_hole, made,
    token, update_comes,
};
use psc_parse_base::{Fault, Next, Parsed, Sym, eat, expect, label, mention, peek, sees, span_of};
use sqlite_items::{Boxed, Items};
use std::alloc::Global;

/// An operator in parentheses, from the left one on.
fn operator(alloc: Global, syms: &[Sym]) -> Parsed<'_, Boxed<ExprTree>> {
    let (name, rest) = mention(alloc, expect(syms, Sign::LeftParen)?)?;
    let rest = expect(rest, Sign::RightParen)?;
    made(
        alloc,
        ExprTree::Operator {
            name,
            span: span_of(syms, rest),
        },
        rest,
    )
}

impl Exprs {
    /// Expressions with commas between them, each of which may be a `_` where `holes` says so.
    #[cycle(exprs)]
    pub(crate) fn listed<'a>(&self, syms: &'a [Sym], holes: Holes) -> Parsed<'a, Items<ExprTree>> {
        let mut found = Items::new(self.alloc);
        let mut rest = syms;
        for _turn in 0..syms.len() {
            let (next, after) = if holes == Holes::Allowed && is_scrutinee_hole(rest) {
                hole(self.alloc, rest, holes)?
            } else {
                self.expr(rest, Holes::Refused)?
            };
            found.push(next.into_inner())?;
            let Some(after) = eat(after, Sign::Comma) else {
                return Ok((found, after));
            };
            rest = after;
        }
        Err(Fault::Grammar)
    }

    /// An array, from its bracket on.
    #[cycle(exprs)]
    fn array<'a>(&self, syms: &'a [Sym]) -> Parsed<'a, Boxed<ExprTree>> {
        let open = expect(syms, Sign::LeftBracket)?;
        if let Some(rest) = eat(open, Sign::RightBracket) {
            let items = Items::new(self.alloc);
            return made(
                self.alloc,
                ExprTree::Array {
                    items,
                    span: span_of(syms, rest),
                },
                rest,
            );
        }
        let (items, rest) = self.listed(open, Holes::Refused)?;
        let rest = expect(rest, Sign::RightBracket)?;
        made(
            self.alloc,
            ExprTree::Array {
                items,
                span: span_of(syms, rest),
            },
            rest,
        )
    }

    #[cycle(exprs)]
    fn field<'a>(&self, syms: &'a [Sym]) -> Parsed<'a, Field> {
        let (label, rest) = label(self.alloc, syms)?;
        let Some(after) = eat(rest, Sign::Colon) else {
            return Ok((Field { label, value: None }, rest));
        };
        if is_field_hole(after) {
            return Err(Fault::Outside);
        }
        let (value, rest) = self.expr(after, Holes::Refused)?;
        Ok((
            Field {
                label,
                value: Some(value),
            },
            rest,
        ))
    }

    /// Fields with commas between them.
    #[cycle(exprs)]
    fn fields<'a>(&self, syms: &'a [Sym]) -> Parsed<'a, Items<Field>> {
        let mut found = Items::new(self.alloc);
        let mut rest = syms;
        for _turn in 0..syms.len() {
            let (next, after) = self.field(rest)?;
            found.push(next)?;
            let Some(after) = eat(after, Sign::Comma) else {
                return Ok((found, after));
            };
            rest = after;
        }
        Err(Fault::Grammar)
    }

    /// A record, from its brace on.
    #[cycle(exprs)]
    fn in_braces<'a>(&self, syms: &'a [Sym]) -> Parsed<'a, Boxed<ExprTree>> {
        let open = expect(syms, Sign::LeftBrace)?;
        if let Some(rest) = eat(open, Sign::RightBrace) {
            let fields = Items::new(self.alloc);
            return made(
                self.alloc,
                ExprTree::XRecord {
                    fields,
                    span: span_of(syms, rest),
                },
                rest,
            );
        }
        let (fields, rest) = self.fields(open)?;
        let rest = expect(rest, Sign::RightBrace)?;
        made(
            self.alloc,
            ExprTree::XRecord {
                fields,
                span: span_of(syms, rest),
            },
            rest,
        )
    }

    /// An operator or an expression in parentheses, from the left one on.
    #[cycle(exprs)]
    fn in_parens<'a>(&self, syms: &'a [Sym]) -> Parsed<'a, Boxed<ExprTree>> {
        let open = expect(syms, Sign::LeftParen)?;
        if is_operator_alone(open) {
            return operator(self.alloc, syms);
        }
        let (inner, rest) = self.expr(open, Holes::Allowed)?;
        let rest = expect(rest, Sign::RightParen)?;
        made(
            self.alloc,
            ExprTree::Paren {
                inner,
                span: span_of(syms, rest),
            },
            rest,
        )
    }

    #[cycle(exprs)]
    fn atom<'a>(&self, syms: &'a [Sym]) -> Parsed<'a, Boxed<ExprTree>> {
        match peek(syms) {
            Next::Token(Sign::LeftParen) => self.in_parens(syms),
            Next::Token(Sign::LeftBracket) => self.array(syms),
            Next::Token(Sign::LeftBrace) => self.in_braces(syms),
            _ => token(self.alloc, syms),
        }
    }

    #[cycle(exprs)]
    fn update<'a>(&self, syms: &'a [Sym]) -> Parsed<'a, Update> {
        let (label, rest) = label(self.alloc, syms)?;
        if sees(rest, Sign::LeftBrace) {
            return Err(Fault::Outside);
        }
        let rest = expect(rest, Sign::Equals)?;
        if is_field_hole(rest) {
            return Err(Fault::Outside);
        }
        let (value, rest) = self.expr(rest, Holes::Refused)?;
        Ok((Update { label, value }, rest))
    }

    /// Updates with commas between them.
    #[cycle(exprs)]
    fn updates<'a>(&self, syms: &'a [Sym]) -> Parsed<'a, Items<Update>> {
        let mut found = Items::new(self.alloc);
        let mut rest = syms;
        for _turn in 0..syms.len() {
            let (next, after) = self.update(rest)?;
            found.push(next)?;
            let Some(after) = eat(after, Sign::Comma) else {
                return Ok((found, after));
            };
            rest = after;
        }
        Err(Fault::Grammar)
    }

    /// An atom with its labels and its update, if one comes.
    #[cycle(exprs)]
    pub(crate) fn updated<'a>(&self, syms: &'a [Sym]) -> Parsed<'a, Boxed<ExprTree>> {
        if bare_hole(syms) {
            return hole(self.alloc, syms, Holes::Refused);
        }
        let (atom, rest) = self.atom(syms)?;
        let (subject, rest) = accessed(self.alloc, syms, atom, rest)?;
        if !update_comes(rest)? {
            return Ok((subject, rest));
        }
        let (updates, rest) = self.updates(expect(rest, Sign::LeftBrace)?)?;
        let rest = expect(rest, Sign::RightBrace)?;
        made(
            self.alloc,
            ExprTree::Update {
                subject,
                updates,
                span: span_of(syms, rest),
            },
            rest,
        )
    }
}
