//! Types, rows and constraints.

use crate::kinds::some_variables;
use psc_ast::{Constr, RowField, RowTree, Sig, TypePrefix, TypeStep, TypeTree};
use psc_lex::{Sign, Tok};
use psc_parse_base::{
    Fault, Next, Parsed, Sym, comes, content, eat, expect, ident, label, mention, peek,
    peek_second, sees, span_of, string, symbols, whole,
};
use psc_text::NoMemory;
use sqlite_items::{Boxed, Items};
use std::alloc::Global;

/// The rules of types. `depth` falls with each step into a bracket.
#[derive(Clone, Copy)]
struct Types {
    alloc: Global,
    depth: usize,
}

/// Whether an argument of a type comes, or a form that would be one if this compiler had it.
fn begins_atom(next: Next) -> bool {
    match next {
        Next::Token(sign) => {
            sign.is_lower()
                || sign.is_upper()
                || matches!(
                    sign,
                    Sign::Str | Sign::LeftParen | Sign::LeftBrace | Sign::Underscore | Sign::Integer
                )
        }
        _ => false,
    }
}

fn is_upper(next: Next) -> bool {
    match next {
        Next::Token(sign) => sign.is_upper(),
        _ => false,
    }
}

fn is_label(next: Next) -> bool {
    match next {
        Next::Token(sign) => sign.is_label(),
        _ => false,
    }
}

fn is_operator(next: Next) -> bool {
    match next {
        Next::Token(sign) => sign.is_operator(),
        _ => false,
    }
}

/// Whether a row comes behind `(`, and not a type.
fn begins_row(syms: &[Sym]) -> bool {
    match peek(syms) {
        Next::Token(Sign::RightParen | Sign::Bar) => true,
        next => is_label(next) && peek_second(syms) == Next::Token(Sign::DoubleColon),
    }
}

/// A type of one token.
fn token(alloc: Global, syms: &[Sym]) -> Parsed<'_, TypeTree> {
    let [first, rest @ ..] = syms else {
        return Err(Fault::Grammar);
    };
    match first.next {
        Next::Token(Sign::Upper | Sign::QualifiedUpper) => {
            let (name, rest) = mention(alloc, syms)?;
            Ok((TypeTree::Constructor { name }, rest))
        }
        Next::Token(Sign::Str) => {
            let value = string(alloc, first.text.as_str())?;
            Ok((
                TypeTree::Str {
                    value,
                    span: first.span,
                },
                rest,
            ))
        }
        Next::Token(Sign::Underscore | Sign::Integer) => Err(Fault::Outside),
        _ => {
            let (name, rest) = ident(syms)?;
            Ok((TypeTree::Variable { name }, rest))
        }
    }
}

/// The tree, boxed as other trees hold it, and what stands behind it.
fn made(alloc: Global, tree: TypeTree, rest: &[Sym]) -> Parsed<'_, Boxed<TypeTree>> {
    Ok((Boxed::new(alloc, tree)?, rest))
}

/// A type of one token, boxed.
fn boxed_token(alloc: Global, syms: &[Sym]) -> Parsed<'_, Boxed<TypeTree>> {
    let (tree, rest) = token(alloc, syms)?;
    made(alloc, tree, rest)
}

/// `(->)`, from the parenthesis on.
fn function(alloc: Global, syms: &[Sym]) -> Parsed<'_, Boxed<TypeTree>> {
    let rest = expect(expect(syms, Sign::LeftParen)?, Sign::Arrow)?;
    let rest = expect(rest, Sign::RightParen)?;
    made(
        alloc,
        TypeTree::Function {
            span: span_of(syms, rest),
        },
        rest,
    )
}

/// `forall a b.`, from that name on.
fn quantifier(alloc: Global, syms: &[Sym]) -> Parsed<'_, TypePrefix> {
    let (vars, rest) = some_variables(alloc, expect(syms, Sign::Forall)?)?;
    let rest = expect(rest, Sign::Dot)?;
    Ok((
        TypePrefix::Forall {
            vars,
            span: span_of(syms, rest),
        },
        rest,
    ))
}

/// Whether `forall` comes as a quantifier, and not as the name of a variable.
fn begins_quantifier(syms: &[Sym]) -> bool {
    match eat(syms, Sign::Forall) {
        Some(rest) => comes(rest, Sign::Dot),
        None => false,
    }
}

impl Types {
    /// A whole type inside brackets.
    #[cycle(types)]
    fn inner<'a>(&self, syms: &'a [Sym]) -> Parsed<'a, Boxed<TypeTree>> {
        if self.depth == 0 {
            return Err(Fault::Grammar);
        }
        Types {
            alloc: self.alloc,
            depth: self.depth - 1,
        }
        .whole(syms)
    }

    #[cycle(types)]
    fn field<'a>(&self, syms: &'a [Sym]) -> Parsed<'a, RowField> {
        let (label, rest) = label(self.alloc, syms)?;
        let rest = expect(rest, Sign::DoubleColon)?;
        let (x_type, rest) = self.inner(rest)?;
        Ok((
            RowField {
                label,
                x_type: x_type.into_inner(),
            },
            rest,
        ))
    }

    #[cycle(types)]
    fn fields<'a>(&self, syms: &'a [Sym]) -> Parsed<'a, Items<RowField>> {
        let mut found = Items::new(self.alloc);
        if !is_label(peek(syms)) {
            return Ok((found, syms));
        }
        let mut rest = syms;
        for _turn in 0..syms.len() {
            let (next, after) = self.field(rest)?;
            found.push(next)?;
            let Some(after) = eat(after, Sign::Comma) else {
                return Ok((found, after));
            };
            rest = after;
        }
        Err(Fault::Grammar)
    }

    #[cycle(types)]
    fn row<'a>(&self, syms: &'a [Sym]) -> Parsed<'a, RowTree> {
        let (fields, rest) = self.fields(syms)?;
        let Some(after) = eat(rest, Sign::Bar) else {
            return Ok((RowTree { fields, tail: None }, rest));
        };
        let (tail, rest) = self.inner(after)?;
        Ok((
            RowTree {
                fields,
                tail: Some(tail),
            },
            rest,
        ))
    }

    /// A row in parentheses, from the left one on.
    #[cycle(types)]
    fn row_in_parens<'a>(&self, syms: &'a [Sym]) -> Parsed<'a, Boxed<TypeTree>> {
        let (row, rest) = self.row(expect(syms, Sign::LeftParen)?)?;
        let rest = expect(rest, Sign::RightParen)?;
        made(
            self.alloc,
            TypeTree::Row {
                row,
                span: span_of(syms, rest),
            },
            rest,
        )
    }

    /// What stands in parentheses, from the left one on.
    #[cycle(types)]
    fn in_parens<'a>(&self, syms: &'a [Sym]) -> Parsed<'a, Boxed<TypeTree>> {
        let open = expect(syms, Sign::LeftParen)?;
        if sees(open, Sign::Arrow) {
            return function(self.alloc, syms);
        }
        if begins_row(open) {
            return self.row_in_parens(syms);
        }
        let (inner, rest) = self.inner(open)?;
        let rest = expect(rest, Sign::RightParen)?;
        made(
            self.alloc,
            TypeTree::Paren {
                inner,
                span: span_of(syms, rest),
            },
            rest,
        )
    }

    /// A row in braces, from the left one on.
    #[cycle(types)]
    fn record<'a>(&self, syms: &'a [Sym]) -> Parsed<'a, Boxed<TypeTree>> {
        let (row, rest) = self.row(expect(syms, Sign::LeftBrace)?)?;
        let rest = expect(rest, Sign::RightBrace)?;
        made(
            self.alloc,
            TypeTree::XRecord {
                row,
                span: span_of(syms, rest),
            },
            rest,
        )
    }

    #[cycle(types)]
    fn atom<'a>(&self, syms: &'a [Sym]) -> Parsed<'a, Boxed<TypeTree>> {
        match peek(syms) {
            Next::Token(Sign::LeftParen) => self.in_parens(syms),
            Next::Token(Sign::LeftBrace) => self.record(syms),
            _ => boxed_token(self.alloc, syms),
        }
    }

    #[cycle(types)]
    fn atoms<'a>(&self, syms: &'a [Sym]) -> Parsed<'a, Items<TypeTree>> {
        let mut found = Items::new(self.alloc);
        let mut rest = syms;
        for _turn in 0..syms.len() {
            if !begins_atom(peek(rest)) {
                return Ok((found, rest));
            }
            let (next, after) = self.atom(rest)?;
            found.push(next.into_inner())?;
            rest = after;
        }
        Ok((found, rest))
    }

    /// A type and its arguments.
    #[cycle(types)]
    fn application<'a>(&self, syms: &'a [Sym]) -> Parsed<'a, Boxed<TypeTree>> {
        let (function, rest) = self.atom(syms)?;
        let (arguments, rest) = self.atoms(rest)?;
        if arguments.is_empty() {
            return Ok((function, rest));
        }
        let span = span_of(syms, rest);
        made(
            self.alloc,
            TypeTree::Application {
                function,
                arguments,
                span,
            },
            rest,
        )
    }

    /// Operators and the operands behind them, as many as come.
    #[cycle(types)]
    fn steps<'a>(&self, syms: &'a [Sym]) -> Parsed<'a, Items<TypeStep>> {
        let mut found = Items::new(self.alloc);
        let mut rest = syms;
        for _turn in 0..syms.len() {
            if !is_operator(peek(rest)) {
                return Ok((found, rest));
            }
            let (op, after) = mention(self.alloc, rest)?;
            let (operand, after) = self.application(after)?;
            found.push(TypeStep {
                op,
                operand: operand.into_inner(),
            })?;
            rest = after;
        }
        Ok((found, rest))
    }

    /// Operands with operators between them. A kind behind them is a form of PureScript.
    #[cycle(types)]
    fn chain<'a>(&self, syms: &'a [Sym]) -> Parsed<'a, Boxed<TypeTree>> {
        let (first, rest) = self.application(syms)?;
        let (steps, rest) = self.steps(rest)?;
        if sees(rest, Sign::DoubleColon) {
            return Err(Fault::Outside);
        }
        if steps.is_empty() {
            return Ok((first, rest));
        }
        made(
            self.alloc,
            TypeTree::Chain {
                first,
                rest: steps,
                span: span_of(syms, rest),
            },
            rest,
        )
    }

    #[cycle(types)]
    fn constraint<'a>(&self, syms: &'a [Sym]) -> Parsed<'a, Constr> {
        if !is_upper(peek(syms)) {
            return Err(Fault::Grammar);
        }
        let (class, rest) = mention(self.alloc, syms)?;
        let (arguments, rest) = self.atoms(rest)?;
        Ok((
            Constr {
                class,
                arguments,
                span: span_of(syms, rest),
            },
            rest,
        ))
    }

    /// Constraints with commas between them.
    #[cycle(types)]
    fn listed<'a>(&self, syms: &'a [Sym]) -> Parsed<'a, Items<Constr>> {
        let mut found = Items::new(self.alloc);
        let mut rest = syms;
        for _turn in 0..syms.len() {
            let (next, after) = self.constraint(rest)?;
            found.push(next)?;
            let Some(after) = eat(after, Sign::Comma) else {
                return Ok((found, after));
            };
            rest = after;
        }
        Err(Fault::Grammar)
    }

    /// One constraint, or a list of them in parentheses.
    #[cycle(types)]
    fn context<'a>(&self, syms: &'a [Sym]) -> Parsed<'a, Items<Constr>> {
        if let Some(open) = eat(syms, Sign::LeftParen) {
            let (found, rest) = self.listed(open)?;
            return Ok((found, expect(rest, Sign::RightParen)?));
        }
        let (one, rest) = self.constraint(syms)?;
        let mut found = Items::new(self.alloc);
        found.push(one)?;
        Ok((found, rest))
    }

    /// `C a =>`
    #[cycle(types)]
    fn given<'a>(&self, syms: &'a [Sym]) -> Parsed<'a, TypePrefix> {
        let (constraints, rest) = self.context(syms)?;
        let rest = expect(rest, Sign::FatArrow)?;
        Ok((
            TypePrefix::Given {
                constraints,
                span: span_of(syms, rest),
            },
            rest,
        ))
    }

    /// What stands before the last type, and that type.
    #[cycle(types)]
    fn parts<'a>(&self, syms: &'a [Sym]) -> Parsed<'a, (Items<TypePrefix>, Boxed<TypeTree>)> {
        let mut found = Items::new(self.alloc);
        let mut rest = syms;
        for _turn in 0..syms.len() {
            if begins_quantifier(rest) {
                let (front, after) = quantifier(self.alloc, rest)?;
                found.push(front)?;
                rest = after;
            } else if comes(rest, Sign::FatArrow) {
                let (front, after) = self.given(rest)?;
                found.push(front)?;
                rest = after;
            } else {
                let (x_type, after) = self.chain(rest)?;
                let Some(behind) = eat(after, Sign::Arrow) else {
                    return Ok(((found, x_type), after));
                };
                let x_type = x_type.into_inner();
                found.push(TypePrefix::Argument {
                    x_type,
                    span: span_of(rest, behind),
                })?;
                rest = behind;
            }
        }
        Err(Fault::Grammar)
    }

    #[cycle(types)]
    fn whole<'a>(&self, syms: &'a [Sym]) -> Parsed<'a, Boxed<TypeTree>> {
        let ((prefixes, result), rest) = self.parts(syms)?;
        if prefixes.is_empty() {
            return Ok((result, rest));
        }
        made(
            self.alloc,
            TypeTree::Prefixed {
                prefixes,
                result,
                span: span_of(syms, rest),
            },
            rest,
        )
    }
}

fn rules(alloc: Global, syms: &[Sym]) -> Types {
    Types {
        alloc,
        depth: syms.len(),
    }
}

/// A type.
pub fn whole_type(alloc: Global, syms: &[Sym]) -> Parsed<'_, Boxed<TypeTree>> {
    rules(alloc, syms).whole(syms)
}

/// Arguments of a type, as many as come.
pub fn atoms(alloc: Global, syms: &[Sym]) -> Parsed<'_, Items<TypeTree>> {
    rules(alloc, syms).atoms(syms)
}

/// An argument of a type.
pub fn one_atom(alloc: Global, syms: &[Sym]) -> Parsed<'_, Boxed<TypeTree>> {
    rules(alloc, syms).atom(syms)
}

/// One constraint, or a list of them in parentheses.
pub fn constraints(alloc: Global, syms: &[Sym]) -> Parsed<'_, Items<Constr>> {
    rules(alloc, syms).context(syms)
}

/// `name :: type`
pub fn sig(alloc: Global, syms: &[Sym]) -> Parsed<'_, Sig> {
    let (name, rest) = ident(syms)?;
    let rest = expect(rest, Sign::DoubleColon)?;
    let (x_type, rest) = whole_type(alloc, rest)?;
    Ok((
        Sig {
            name,
            x_type: x_type.into_inner(),
            span: span_of(syms, rest),
        },
        rest,
    ))
}

/// The type that the tokens are.
///
/// None exactly where they are not of the grammar. Tokens nest no deeper than the limit on items, which the caller has seen.
pub fn parse_type(alloc: Global, toks: &[Tok]) -> Result<Option<TypeTree>, NoMemory> {
    let syms = symbols(alloc, toks)?;
    match whole(whole_type(alloc, content(syms.as_slice())))? {
        Some(found) => Ok(Some(found.into_inner())),
        None => Ok(None),
    }
}
