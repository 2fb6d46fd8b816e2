//! Declarations.

use crate::classes::{class, instance};
use psc_ast::{Ctor, DataDecl, Decl, FixityDecl, KindOf, Mention, Side, SynonymDecl};
use psc_lex::Sign;
use psc_parse_base::{
    Fault, Next, Parsed, Sym, eat, expect, mention, op, peek, peek_second, peek_third, sees,
    span_of, upper,
};
use psc_parse_expr::one_clause;
use psc_parse_type::{atoms, kind, one_atom, sig, variables, whole_type};
use sqlite_items::Items;
use std::alloc::Global;

fn ctor(alloc: Global, syms: &[Sym]) -> Parsed<'_, Ctor> {
    let (name, rest) = upper(syms)?;
    let (fields, rest) = atoms(alloc, rest)?;
    Ok((
        Ctor {
            name,
            fields,
            span: span_of(syms, rest),
        },
        rest,
    ))
}

/// The constructors behind `=`, if that comes.
fn ctors(alloc: Global, syms: &[Sym]) -> Parsed<'_, Items<Ctor>> {
    let mut found = Items::new(alloc);
    let Some(rest) = eat(syms, Sign::Equals) else {
        return Ok((found, syms));
    };
    let (first, mut rest) = ctor(alloc, rest)?;
    found.push(first)?;
    for _turn in 0..syms.len() {
        let Some(after) = eat(rest, Sign::Bar) else {
            return Ok((found, rest));
        };
        let (next, after) = ctor(alloc, after)?;
        found.push(next)?;
        rest = after;
    }
    Err(Fault::Grammar)
}

fn x_data(alloc: Global, syms: &[Sym]) -> Parsed<'_, Decl> {
    let (name, rest) = upper(expect(syms, Sign::Data)?)?;
    let (vars, rest) = variables(alloc, rest)?;
    let (ctors, rest) = ctors(alloc, rest)?;
    Ok((
        Decl::XData(DataDecl {
            name,
            vars,
            ctors,
            span: span_of(syms, rest),
        }),
        rest,
    ))
}

/// The constructor of a newtype and its one field.
fn wrapper(alloc: Global, syms: &[Sym]) -> Parsed<'_, Items<Ctor>> {
    let (name, rest) = upper(syms)?;
    let (field, rest) = one_atom(alloc, rest)?;
    let mut fields = Items::new(alloc);
    fields.push(field.into_inner())?;
    let mut found = Items::new(alloc);
    found.push(Ctor {
        name,
        fields,
        span: span_of(syms, rest),
    })?;
    Ok((found, rest))
}

fn newtype(alloc: Global, syms: &[Sym]) -> Parsed<'_, Decl> {
    let (name, rest) = upper(expect(syms, Sign::Newtype)?)?;
    let (vars, rest) = variables(alloc, rest)?;
    let (ctors, rest) = wrapper(alloc, expect(rest, Sign::Equals)?)?;
    Ok((
        Decl::Newtype(DataDecl {
            name,
            vars,
            ctors,
            span: span_of(syms, rest),
        }),
        rest,
    ))
}

fn synonym(alloc: Global, syms: &[Sym]) -> Parsed<'_, Decl> {
    let (name, rest) = upper(expect(syms, Sign::XType)?)?;
    let (vars, rest) = variables(alloc, rest)?;
    let (body, rest) = whole_type(alloc, expect(rest, Sign::Equals)?)?;
    let (body, span) = (body.into_inner(), span_of(syms, rest));
    Ok((
        Decl::Synonym(SynonymDecl {
            name,
            vars,
            body,
            span,
        }),
        rest,
    ))
}

/// The keyword of a kind signature, if one comes: the keyword, an upper name and `::`.
fn kind_signature_of(syms: &[Sym]) -> Option<KindOf> {
    if peek_second(syms) != Next::Token(Sign::Upper)
        || peek_third(syms) != Next::Token(Sign::DoubleColon)
    {
        return None;
    }
    match peek(syms) {
        Next::Token(Sign::Data) => Some(KindOf::XData),
        Next::Token(Sign::Newtype) => Some(KindOf::Newtype),
        Next::Token(Sign::XType) => Some(KindOf::Synonym),
        Next::Token(Sign::Class) => Some(KindOf::Class),
        _ => None,
    }
}

fn kind_signature(alloc: Global, syms: &[Sym], of: KindOf) -> Parsed<'_, Decl> {
    let [_, rest @ ..] = syms else {
        return Err(Fault::Grammar);
    };
    let (name, rest) = upper(rest)?;
    let (kind, rest) = kind(alloc, expect(rest, Sign::DoubleColon)?)?;
    Ok((
        Decl::KindSig {
            of,
            name,
            kind,
            span: span_of(syms, rest),
        },
        rest,
    ))
}

/// `foreign import data T :: k`; `from` stands behind `import`.
fn foreign_data<'a>(alloc: Global, syms: &'a [Sym], from: &'a [Sym]) -> Parsed<'a, Decl> {
    let (name, rest) = upper(expect(from, Sign::Data)?)?;
    let (kind, rest) = kind(alloc, expect(rest, Sign::DoubleColon)?)?;
    Ok((
        Decl::ForeignData {
            name,
            kind,
            span: span_of(syms, rest),
        },
        rest,
    ))
}

fn foreign(alloc: Global, syms: &[Sym]) -> Parsed<'_, Decl> {
    let from = expect(expect(syms, Sign::Foreign)?, Sign::Import)?;
    if sees(from, Sign::Data) {
        return foreign_data(alloc, syms, from);
    }
    let (sig, rest) = sig(alloc, from)?;
    Ok((
        Decl::ForeignValue {
            sig,
            span: span_of(syms, rest),
        },
        rest,
    ))
}

fn side(syms: &[Sym]) -> Parsed<'_, Side> {
    if let Some(rest) = eat(syms, Sign::Infixl) {
        return Ok((Side::Left, rest));
    }
    if let Some(rest) = eat(syms, Sign::Infixr) {
        return Ok((Side::Right, rest));
    }
    Ok((Side::Neither, expect(syms, Sign::Infix)?))
}

/// The number that a single digit spells.
fn digit(text: &str) -> Option<u8> {
    match text.as_bytes() {
        [letter @ b'0'..=b'9'] => Some(*letter - b'0'),
        _ => None,
    }
}

fn power(syms: &[Sym]) -> Parsed<'_, u8> {
    match syms {
        [first, rest @ ..] if first.next == Next::Token(Sign::Integer) => {
            match digit(first.text.as_str()) {
                Some(found) => Ok((found, rest)),
                None => Err(Fault::Grammar),
            }
        }
        _ => Err(Fault::Grammar),
    }
}

/// A value, a constructor or a type that an operator stands for.
fn target(alloc: Global, syms: &[Sym]) -> Parsed<'_, Mention> {
    match peek(syms) {
        Next::Token(sign) if sign.is_lower() || sign.is_upper() || sign == Sign::QualifiedLower => {
            mention(alloc, syms)
        }
        _ => Err(Fault::Grammar),
    }
}

fn fixity(alloc: Global, syms: &[Sym]) -> Parsed<'_, Decl> {
    let (side, rest) = side(syms)?;
    let (power, rest) = power(rest)?;
    let of_types = sees(rest, Sign::XType);
    let rest = eat(rest, Sign::XType).unwrap_or(rest);
    let (target, rest) = target(alloc, rest)?;
    let (op, rest) = op(expect(rest, Sign::As)?)?;
    let span = span_of(syms, rest);
    Ok((
        Decl::Fixity(FixityDecl {
            side,
            power,
            of_types,
            target,
            op,
            span,
        }),
        rest,
    ))
}

/// A signature or a clause.
fn value(alloc: Global, syms: &[Sym]) -> Parsed<'_, Decl> {
    if peek_second(syms) == Next::Token(Sign::DoubleColon) {
        let (sig, rest) = sig(alloc, syms)?;
        return Ok((Decl::Sig(sig), rest));
    }
    let (clause, rest) = one_clause(alloc, syms)?;
    Ok((Decl::Clause(clause), rest))
}

/// A declaration.
pub fn decl(alloc: Global, syms: &[Sym]) -> Parsed<'_, Decl> {
    if let Some(of) = kind_signature_of(syms) {
        return kind_signature(alloc, syms, of);
    }
    match peek(syms) {
        Next::Token(Sign::Data) => x_data(alloc, syms),
        Next::Token(Sign::Newtype) => newtype(alloc, syms),
        Next::Token(Sign::XType) => synonym(alloc, syms),
        Next::Token(Sign::Foreign) => foreign(alloc, syms),
        Next::Token(Sign::Class) => class(alloc, syms),
        Next::Token(Sign::Instance | Sign::Else) => instance(alloc, syms),
        Next::Token(Sign::Infix | Sign::Infixl | Sign::Infixr) => fixity(alloc, syms),
        _ => value(alloc, syms),
    }
}
