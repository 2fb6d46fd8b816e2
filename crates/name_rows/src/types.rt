//! Types from words.

use psc_items::{Shared, SharedItems};
use psc_text::{Ident, Label, ModuleName, NoMemory, Qualified, Text, read_module_name};
use psc_type::{Constraint, Kind, Ty};
use std::alloc::Global;

/// A name of a module: `N.f` is that of N, and `f` that of the module at hand.
pub(crate) fn true_name(
    alloc: Global,
    own: &ModuleName,
    word: &str,
) -> Result<(ModuleName, Text), NoMemory> {
    if let Some((before, behind)) = word.rsplit_once('.') {
        if let Some(module) = read_module_name(alloc, before)? {
            return Ok((module, Text::new(alloc, behind)?));
        }
    }
    Ok((own.clone()?, Text::new(alloc, word)?))
}

fn qualified(alloc: Global, own: &ModuleName, word: &str) -> Result<Qualified, NoMemory> {
    let (module, name) = true_name(alloc, own, word)?;
    Ok(Qualified {
        module: Some(module),
        name,
    })
}

/// A constraint without arguments.
pub(crate) fn constraint_of(
    alloc: Global,
    own: &ModuleName,
    word: &str,
) -> Result<Constraint, NoMemory> {
    let class = qualified(alloc, own, word)?;
    match SharedItems::from_vec(alloc, Vec::new(alloc)) {
        Ok(args) => Ok(Constraint { class, args }),
        Err(_) => Err(NoMemory),
    }
}

/// The type of some words, from the last one on. No word stands for `Int`.
pub(crate) fn type_of(alloc: Global, own: &ModuleName, words: &[&str]) -> Result<Ty, NoMemory> {
    let mut made = Ty::Con(qualified(alloc, own, "Prim.Int")?);
    for word in words.iter().rev() {
        made = before(alloc, own, word, made)?;
    }
    Ok(made)
}

/// A word before a type.
fn before(alloc: Global, own: &ModuleName, word: &str, rest: Ty) -> Result<Ty, NoMemory> {
    let rest = shared(alloc, rest)?;
    match word.strip_prefix("^") {
        Some(class) => given(alloc, own, class, rest),
        None => unconstrained(alloc, own, word, rest),
    }
}

fn unconstrained(
    alloc: Global,
    own: &ModuleName,
    word: &str,
    rest: Shared<Ty>,
) -> Result<Ty, NoMemory> {
    match word {
        "~" => quantified(alloc, rest),
        "{" => row(alloc, rest),
        _ => applied(alloc, own, word, rest),
    }
}

fn shared(alloc: Global, ty: Ty) -> Result<Shared<Ty>, NoMemory> {
    match Shared::new(alloc, ty) {
        Ok(shared) => Ok(shared),
        Err(_) => Err(NoMemory),
    }
}

fn given(alloc: Global, own: &ModuleName, class: &str, rest: Shared<Ty>) -> Result<Ty, NoMemory> {
    match constraint_of(alloc, own, class) {
        Ok(constraint) => Ok(Ty::Given(constraint, rest)),
        Err(error) => Err(error),
    }
}

fn quantified(alloc: Global, rest: Shared<Ty>) -> Result<Ty, NoMemory> {
    match Text::new(alloc, "a") {
        Ok(name) => Ok(Ty::Forall(Ident(name), Kind::Star, rest)),
        Err(error) => Err(error),
    }
}

/// A row of one field.
fn row(alloc: Global, field: Shared<Ty>) -> Result<Ty, NoMemory> {
    match shared(alloc, Ty::RowNil) {
        Ok(tail) => labelled(alloc, field, tail),
        Err(error) => Err(error),
    }
}

fn labelled(alloc: Global, field: Shared<Ty>, tail: Shared<Ty>) -> Result<Ty, NoMemory> {
    match Text::new(alloc, "l") {
        Ok(label) => Ok(Ty::RowCons(Label(label), field, tail)),
        Err(error) => Err(error),
    }
}

fn constructor(alloc: Global, own: &ModuleName, word: &str) -> Result<Shared<Ty>, NoMemory> {
    let name = qualified(alloc, own, word)?;
    shared(alloc, Ty::Con(name))
}

fn applied(alloc: Global, own: &ModuleName, word: &str, rest: Shared<Ty>) -> Result<Ty, NoMemory> {
    match constructor(alloc, own, word) {
        Ok(function) => Ok(Ty::App(function, rest)),
        Err(error) => Err(error),
    }
}
