//! Classes and instances.

use psc_ast::{ClassDecl, Clause, Constr, Decl, Dep, IdentAt, InstanceDecl, Mention, Sig};
use psc_lex::Sign;
use psc_parse_base::{
    Fault, Next, Parsed, Sym, comes, eat, expect, goes_on, ident, lower, mention, opens_block,
    peek, peek_second, sees, span_of, upper,
};
use psc_parse_expr::one_clause;
use psc_parse_type::{atoms, constraints, sig, variables};
use sqlite_items::Items;
use std::alloc::Global;

/// The constraints before the token, if that comes behind constraints.
fn context(alloc: Global, syms: &[Sym], sign: Sign) -> Parsed<'_, Items<Constr>> {
    if !comes(syms, sign) {
        return Ok((Items::new(alloc), syms));
    }
    let (found, rest) = constraints(alloc, syms)?;
    Ok((found, expect(rest, sign)?))
}

/// Lower names, as many as come.
fn idents(alloc: Global, syms: &[Sym]) -> Parsed<'_, Items<IdentAt>> {
    let mut found = Items::new(alloc);
    let mut rest = syms;
    for _turn in 0..syms.len() {
        if !lower(rest) {
            return Ok((found, rest));
        }
        let (next, after) = ident(rest)?;
        found.push(next)?;
        rest = after;
    }
    Ok((found, rest))
}

fn dep(alloc: Global, syms: &[Sym]) -> Parsed<'_, Dep> {
    let (from, rest) = idents(alloc, syms)?;
    let (to, rest) = idents(alloc, expect(rest, Sign::Arrow)?)?;
    if to.is_empty() {
        return Err(Fault::Grammar);
    }
    Ok((
        Dep {
            from,
            to,
            span: span_of(syms, rest),
        },
        rest,
    ))
}

/// The functional dependencies behind `|`, if that comes.
fn deps(alloc: Global, syms: &[Sym]) -> Parsed<'_, Items<Dep>> {
    let mut found = Items::new(alloc);
    let Some(rest) = eat(syms, Sign::Bar) else {
        return Ok((found, syms));
    };
    let (first, mut rest) = dep(alloc, rest)?;
    found.push(first)?;
    for _turn in 0..syms.len() {
        let Some(after) = eat(rest, Sign::Comma) else {
            return Ok((found, rest));
        };
        let (next, after) = dep(alloc, after)?;
        found.push(next)?;
        rest = after;
    }
    Err(Fault::Grammar)
}

/// The members of a class behind `where`, if that comes.
fn signatures(alloc: Global, syms: &[Sym]) -> Parsed<'_, Items<Sig>> {
    let mut found = Items::new(alloc);
    let Some(rest) = eat(syms, Sign::Where) else {
        return Ok((found, syms));
    };
    let (mut more, mut rest) = opens_block(rest)?;
    for _turn in 0..syms.len() {
        if !more {
            return Ok((found, rest));
        }
        let (next, after) = sig(alloc, rest)?;
        found.push(next)?;
        (more, rest) = goes_on(after)?;
    }
    if more {
        Err(Fault::Grammar)
    } else {
        Ok((found, rest))
    }
}

/// A class.
pub fn class(alloc: Global, syms: &[Sym]) -> Parsed<'_, Decl> {
    let (supers, rest) = context(alloc, expect(syms, Sign::Class)?, Sign::LessEqual)?;
    let (name, rest) = upper(rest)?;
    let (vars, rest) = variables(alloc, rest)?;
    let (deps, rest) = deps(alloc, rest)?;
    let (members, rest) = signatures(alloc, rest)?;
    let span = span_of(syms, rest);
    Ok((
        Decl::Class(ClassDecl {
            supers,
            name,
            vars,
            deps,
            members,
            span,
        }),
        rest,
    ))
}

/// A member of an instance; a signature is not for this compiler.
fn member(alloc: Global, syms: &[Sym]) -> Parsed<'_, Clause> {
    if lower(syms) && peek_second(syms) == Next::Token(Sign::DoubleColon) {
        return Err(Fault::Outside);
    }
    one_clause(alloc, syms)
}

/// The members of an instance behind `where`, if that comes.
fn members(alloc: Global, syms: &[Sym]) -> Parsed<'_, Items<Clause>> {
    let mut found = Items::new(alloc);
    let Some(rest) = eat(syms, Sign::Where) else {
        return Ok((found, syms));
    };
    let (mut more, mut rest) = opens_block(rest)?;
    for _turn in 0..syms.len() {
        if !more {
            return Ok((found, rest));
        }
        let (next, after) = member(alloc, rest)?;
        found.push(next)?;
        (more, rest) = goes_on(after)?;
    }
    if more {
        Err(Fault::Grammar)
    } else {
        Ok((found, rest))
    }
}

/// `name ::`, if it comes.
fn instance_name(syms: &[Sym]) -> Parsed<'_, Option<IdentAt>> {
    if !lower(syms) {
        return Ok((None, syms));
    }
    let (name, rest) = ident(syms)?;
    Ok((Some(name), expect(rest, Sign::DoubleColon)?))
}

/// The class of an instance.
fn class_name(alloc: Global, syms: &[Sym]) -> Parsed<'_, Mention> {
    match peek(syms) {
        Next::Token(sign) if sign.is_upper() => mention(alloc, syms),
        _ => Err(Fault::Grammar),
    }
}

/// An instance, with `else` before it or without.
pub fn instance(alloc: Global, syms: &[Sym]) -> Parsed<'_, Decl> {
    let is_else = sees(syms, Sign::Else);
    let rest = eat(syms, Sign::Else).unwrap_or(syms);
    let (name, rest) = instance_name(expect(rest, Sign::Instance)?)?;
    let (context, rest) = context(alloc, rest, Sign::FatArrow)?;
    let (class, rest) = class_name(alloc, rest)?;
    let (arguments, rest) = atoms(alloc, rest)?;
    let (members, rest) = members(alloc, rest)?;
    let span = span_of(syms, rest);
    let found = InstanceDecl {
        goes_on: is_else,
        name,
        context,
        class,
        arguments,
        members,
        span,
    };
    Ok((Decl::Instance(found), rest))
}
