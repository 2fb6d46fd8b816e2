//! The words of what interface files hold, and what they hold from its words.
//!
//! A list of more than 20,000 words is not read, since what it makes might be too deep.

ghost use Rattle.std.specs.Prelude.{◌≡◌, ◌≤◌, length, IfOk, IsTrue, Some, option_and_then};
ghost use Rattle.psc_type.specs.declared.kind.Kind.{Kind};
ghost use Rattle.psc_type.specs.declared.ty.Constraint.{Constraint};
ghost use Rattle.psc_type.specs.declared.ty.Ty.{Ty};
ghost use Rattle.psc_externs.specs.Written.{is_extern_constraint, is_extern_kind, is_extern_type};
ghost use Rattle.psc_externs_words.specs.Reading as reading;
ghost use Rattle.psc_externs_words.specs.Words as spec;
ghost use Rattle.psc_externs_words.specs.declared.stack.Item.TheVariants.{OfKind, OfType};

use crate::stack::Item;
use crate::words::{put_constraint, put_kind, put_type};
use crate::words_read::{constraint_of, made};
use psc_externs::{ExternConstraint, ExternKind, ExternType, MOST_WORDS};
use psc_text::{NoMemory, Text};
use psc_type::{Kind, Ty};
use std::alloc::Global;

/// The words of a type.
pub fn type_words(alloc: Global, ty: &ExternType) -> Result<Vec<Text>, NoMemory>
    ensures words { IfOk result (λ v. v.items ≡ spec.words ty.now) }
    ensures kept { IsTrue (is_extern_type ty.now) }
{
    let mut words = Vec::new(alloc);
    put_type(alloc, &mut words, ty.ty())?;
    Ok(words)
}

/// The words of a kind.
pub fn kind_words(alloc: Global, kind: &ExternKind) -> Result<Vec<Text>, NoMemory>
    ensures words { IfOk result (λ v. v.items ≡ spec.kind_words kind.now) }
    ensures kept { IsTrue (is_extern_kind kind.now) }
{
    let mut words = Vec::new(alloc);
    put_kind(alloc, &mut words, kind.kind())?;
    Ok(words)
}

/// The words of a constraint: those of its class applied to its arguments.
pub fn constraint_words(alloc: Global, given: &ExternConstraint) -> Result<Vec<Text>, NoMemory>
    ensures words { IfOk result (λ v. v.items ≡ spec.constraint_words given.now) }
    ensures kept { IsTrue (is_extern_constraint given.now) }
{
    let mut words = Vec::new(alloc);
    put_constraint(alloc, &mut words, given.constraint())?;
    Ok(words)
}

/// The type that has these words: a list that ends early or goes on has none.
pub fn read_type(alloc: Global, words: &[Text]) -> Result<Option<ExternType>, NoMemory>
    ensures { IfOk result (λ o. (t : Ty) → IsTrue (is_extern_type t) → spec.words t ≡ words.now → o ≡ Some t) }
{
    Ok(extern_type(type_of(made_within(alloc, words)?)))
}

/// The kind that has these words.
pub fn read_kind(alloc: Global, words: &[Text]) -> Result<Option<ExternKind>, NoMemory>
    ensures { IfOk result (λ o. (k : Kind) → IsTrue (is_extern_kind k) → spec.kind_words k ≡ words.now → o ≡ Some k) }
{
    Ok(extern_kind(kind_of(made_within(alloc, words)?)))
}

/// The constraint that has these words.
pub fn read_constraint(alloc: Global, words: &[Text]) -> Result<Option<ExternConstraint>, NoMemory>
    ensures { IfOk result (λ o. (c : Constraint) → IsTrue (is_extern_constraint c) → spec.constraint_words c ≡ words.now → o ≡ Some c) }
{
    extern_constraint(alloc, type_of(made_within(alloc, words)?))
}

/// What the words make, where they are no more than an interface file may hold.
#[tactic(auto, using(crate::proofs::Runs::within))]
fn made_within(alloc: Global, words: &[Text]) -> Result<Option<Item>, NoMemory>
    ensures { IfOk result (λ o. length words.now ≤ 20000 → o ≡ reading.made words.now) }
{
    if words.len() as u64 > MOST_WORDS {
        Ok(None)
    } else {
        made(alloc, words)
    }
}

/// The type that words have made.
fn type_of(item: Option<Item>) -> Option<Ty>
    ensures { (t : Ty) → item ≡ Some (OfType t) → result ≡ Some t }
{
    match item {
        Some(Item::OfType(ty)) => Some(ty),
        Some(Item::OfKind(_)) | None => None,
    }
}

/// The kind that words have made.
fn kind_of(item: Option<Item>) -> Option<Kind>
    ensures { (k : Kind) → item ≡ Some (OfKind k) → result ≡ Some k }
{
    match item {
        Some(Item::OfKind(kind)) => Some(kind),
        Some(Item::OfType(_)) | None => None,
    }
}

/// The type, where an interface file may hold it.
fn extern_type(ty: Option<Ty>) -> Option<ExternType>
    ensures { (t : Ty) → IsTrue (is_extern_type t) → ty ≡ Some t → result ≡ Some t }
{
    ExternType::new(ty?)
}

/// The kind, where an interface file may hold it.
fn extern_kind(kind: Option<Kind>) -> Option<ExternKind>
    ensures { (k : Kind) → IsTrue (is_extern_kind k) → kind ≡ Some k → result ≡ Some k }
{
    ExternKind::new(kind?)
}

/// A class applied to its arguments, where an interface file may hold it.
fn extern_constraint(alloc: Global, ty: Option<Ty>) -> Result<Option<ExternConstraint>, NoMemory>
    ensures { IfOk result (λ o. (c : Constraint) → IsTrue (is_extern_constraint c) → option_and_then reading.constraint_of ty ≡ Some c → o ≡ Some c) }
{
    match ty {
        Some(ty) => match constraint_of(alloc, &ty)? {
            Some(constraint) => Ok(ExternConstraint::new(constraint)),
            None => Ok(None),
        },
        None => Ok(None),
    }
}
