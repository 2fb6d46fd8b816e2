//! Export lists, imports, and the references in them.

use psc_ast::{Ctors, Export, ImportList, ImportTree, ModuleAt, OpAt, Ref, UpperAt};
use psc_lex::Sign;
use psc_parse_base::{
    Fault, Next, Parsed, Sym, eat, expect, ident, module_name, op, peek, sees, span_of, upper,
};
use sqlite_items::Items;
use std::alloc::Global;

/// `(+)`, from the parenthesis on.
fn op_in_parens(syms: &[Sym]) -> Parsed<'_, OpAt> {
    let (found, rest) = op(expect(syms, Sign::LeftParen)?)?;
    Ok((found, expect(rest, Sign::RightParen)?))
}

/// Upper names with commas between them.
fn uppers(alloc: Global, syms: &[Sym]) -> Parsed<'_, Items<UpperAt>> {
    let mut found = Items::new(alloc);
    let (first, mut rest) = upper(syms)?;
    found.push(first)?;
    for _turn in 0..syms.len() {
        let Some(after) = eat(rest, Sign::Comma) else {
            return Ok((found, rest));
        };
        let (next, after) = upper(after)?;
        found.push(next)?;
        rest = after;
    }
    Err(Fault::Grammar)
}

/// The constructors behind a type, if a list of them comes.
fn ctors(alloc: Global, syms: &[Sym]) -> Parsed<'_, Ctors> {
    let Some(open) = eat(syms, Sign::LeftParen) else {
        return Ok((Ctors::Absent, syms));
    };
    if let Some(rest) = eat(open, Sign::DotDot) {
        return Ok((Ctors::All, expect(rest, Sign::RightParen)?));
    }
    if let Some(rest) = eat(open, Sign::RightParen) {
        return Ok((Ctors::Listed(Items::new(alloc)), rest));
    }
    let (found, rest) = uppers(alloc, open)?;
    Ok((Ctors::Listed(found), expect(rest, Sign::RightParen)?))
}

/// A type with its constructors.
fn type_ref(alloc: Global, syms: &[Sym]) -> Parsed<'_, Ref> {
    let (name, rest) = upper(syms)?;
    let (ctors, rest) = ctors(alloc, rest)?;
    Ok((
        Ref::XType {
            name,
            ctors,
            span: span_of(syms, rest),
        },
        rest,
    ))
}

/// `class C`, from the keyword on.
fn class_ref(syms: &[Sym]) -> Parsed<'_, Ref> {
    let (name, rest) = upper(expect(syms, Sign::Class)?)?;
    Ok((
        Ref::Class {
            name,
            span: span_of(syms, rest),
        },
        rest,
    ))
}

/// `type (+)`, from the keyword on.
fn type_operator_ref(syms: &[Sym]) -> Parsed<'_, Ref> {
    let (op, rest) = op_in_parens(expect(syms, Sign::XType)?)?;
    Ok((
        Ref::TypeOperator {
            op,
            span: span_of(syms, rest),
        },
        rest,
    ))
}

/// A reference of an export or import list.
fn reference(alloc: Global, syms: &[Sym]) -> Parsed<'_, Ref> {
    match peek(syms) {
        Next::Token(Sign::Upper) => type_ref(alloc, syms),
        Next::Token(Sign::Class) => class_ref(syms),
        Next::Token(Sign::XType) => type_operator_ref(syms),
        Next::Token(Sign::LeftParen) => {
            let (op, rest) = op_in_parens(syms)?;
            Ok((
                Ref::Operator {
                    op,
                    span: span_of(syms, rest),
                },
                rest,
            ))
        }
        _ => {
            let (name, rest) = ident(syms)?;
            Ok((Ref::Value { name }, rest))
        }
    }
}

fn export(alloc: Global, syms: &[Sym]) -> Parsed<'_, Export> {
    let Some(rest) = eat(syms, Sign::Module) else {
        let (found, rest) = reference(alloc, syms)?;
        return Ok((Export::Ref(found), rest));
    };
    let (name, rest) = module_name(alloc, rest)?;
    Ok((
        Export::Module {
            name,
            span: span_of(syms, rest),
        },
        rest,
    ))
}

/// Exports with commas between them.
fn some_exports(alloc: Global, syms: &[Sym]) -> Parsed<'_, Items<Export>> {
    let mut found = Items::new(alloc);
    let (first, mut rest) = export(alloc, syms)?;
    found.push(first)?;
    for _turn in 0..syms.len() {
        let Some(after) = eat(rest, Sign::Comma) else {
            return Ok((found, rest));
        };
        let (next, after) = export(alloc, after)?;
        found.push(next)?;
        rest = after;
    }
    Err(Fault::Grammar)
}

/// The export list of a module line, if it comes.
pub fn exports(alloc: Global, syms: &[Sym]) -> Parsed<'_, Option<Items<Export>>> {
    let Some(open) = eat(syms, Sign::LeftParen) else {
        return Ok((None, syms));
    };
    if let Some(rest) = eat(open, Sign::RightParen) {
        return Ok((Some(Items::new(alloc)), rest));
    }
    let (found, rest) = some_exports(alloc, open)?;
    Ok((Some(found), expect(rest, Sign::RightParen)?))
}

/// References with commas between them.
fn some_refs(alloc: Global, syms: &[Sym]) -> Parsed<'_, Items<Ref>> {
    let mut found = Items::new(alloc);
    let (first, mut rest) = reference(alloc, syms)?;
    found.push(first)?;
    for _turn in 0..syms.len() {
        let Some(after) = eat(rest, Sign::Comma) else {
            return Ok((found, rest));
        };
        let (next, after) = reference(alloc, after)?;
        found.push(next)?;
        rest = after;
    }
    Err(Fault::Grammar)
}

/// The references of an import, from their parenthesis on.
fn refs(alloc: Global, syms: &[Sym]) -> Parsed<'_, Items<Ref>> {
    let open = expect(syms, Sign::LeftParen)?;
    if let Some(rest) = eat(open, Sign::RightParen) {
        return Ok((Items::new(alloc), rest));
    }
    let (found, rest) = some_refs(alloc, open)?;
    Ok((found, expect(rest, Sign::RightParen)?))
}

fn import_list(alloc: Global, syms: &[Sym]) -> Parsed<'_, ImportList> {
    if let Some(rest) = eat(syms, Sign::Hiding) {
        let (found, rest) = refs(alloc, rest)?;
        return Ok((ImportList::Hiding(found), rest));
    }
    if sees(syms, Sign::LeftParen) {
        let (found, rest) = refs(alloc, syms)?;
        return Ok((ImportList::Only(found), rest));
    }
    Ok((ImportList::All, syms))
}

/// The name behind `as`, if that comes.
fn alias(alloc: Global, syms: &[Sym]) -> Parsed<'_, Option<ModuleAt>> {
    let Some(rest) = eat(syms, Sign::As) else {
        return Ok((None, syms));
    };
    let (found, rest) = module_name(alloc, rest)?;
    Ok((Some(found), rest))
}

/// An import.
pub fn import(alloc: Global, syms: &[Sym]) -> Parsed<'_, ImportTree> {
    let (module, rest) = module_name(alloc, expect(syms, Sign::Import)?)?;
    let (list, rest) = import_list(alloc, rest)?;
    let (alias, rest) = alias(alloc, rest)?;
    Ok((
        ImportTree {
            module,
            list,
            alias,
            span: span_of(syms, rest),
        },
        rest,
    ))
}
