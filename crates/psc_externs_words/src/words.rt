//! Types and kinds as lists of words, each form before its parts.

ghost use Rattle.std.specs.Prelude.{◌≡◌, ◌++◌, [], IfOk, map, codes};
ghost use Rattle.std.specs.String.{string_bytes};
ghost use Rattle.psc_externs_words.specs.Words as spec;

use psc_text::{Ident, NoMemory, Qualified, Text};
use psc_type::{Constraint, Kind, Ty};
use std::alloc::Global;

/// A name behind its module and a dot.
pub(crate) fn qualified_text(alloc: Global, name: &Qualified) -> Result<String, NoMemory>
    ensures { IfOk result (λ s. string_bytes s ≡ spec.qualified_text name.now) }
{
    match &name.module {
        Some(module) => Ok(format!(in alloc; "{}.{}", module.as_str(), name.name.as_str())?),
        None => Ok(String::from_str(alloc, name.name.as_str())?),
    }
}

/// Appends one word: what it is, and a name or a text where it has one.
fn put_word(alloc: Global, out: &mut Vec<Text>, front: &str, name: &str) -> Result<(), NoMemory>
    ensures { IfOk result (λ _. out.new.items ≡ out.old.items ++ spec.word front.now name.now) }
{
    let text = format!(in alloc; "{}{}", front, name)?;
    Ok(out.push(Text::from_string(text)?)?)
}

fn put_name(alloc: Global, out: &mut Vec<Text>, name: &Qualified) -> Result<(), NoMemory>
    ensures { IfOk result (λ _. out.new.items ≡ out.old.items ++ (spec.word (codes "con ") (spec.qualified_text name.now))) }
{
    let text = qualified_text(alloc, name)?;
    put_word(alloc, out, "con ", text.as_str())
}

/// Appends the words of a kind that has no unknown.
#[cycle(kinds)]
pub(crate) fn put_kind(alloc: Global, out: &mut Vec<Text>, kind: &Kind) -> Result<(), NoMemory>
    ensures { IfOk result (λ _. out.new.items ≡ out.old.items ++ (spec.kind_words kind.now)) }
{
    match kind {
        Kind::Star => put_word(alloc, out, "T", ""),
        Kind::Constr => put_word(alloc, out, "C", ""),
        Kind::Sym => put_word(alloc, out, "S", ""),
        Kind::RowOf(of) => put_before_kind(alloc, out, "R", of.get()),
        Kind::Arrow(from, to) => {
            put_before_kind(alloc, out, "F", from.get())?;
            put_kind(alloc, out, to.get())
        }
        Kind::Unknown(_) => Ok(()),
    }
}

#[cycle(kinds)]
fn put_before_kind(
    alloc: Global,
    out: &mut Vec<Text>,
    front: &str,
    kind: &Kind,
) -> Result<(), NoMemory>
    ensures { IfOk result (λ _. out.new.items ≡ out.old.items ++ (spec.first front.now [] (spec.kind_words kind.now))) }
{
    put_word(alloc, out, front, "")?;
    put_kind(alloc, out, kind)
}

/// Appends the words of a type that has no unknown and no `$any`.
#[cycle(words)]
#[tactic(auto, using(crate::proofs::WordRules::words_rules))]
pub(crate) fn put_type(alloc: Global, out: &mut Vec<Text>, ty: &Ty) -> Result<(), NoMemory>
    ensures { IfOk result (λ _. out.new.items ≡ out.old.items ++ (spec.words ty.now)) }
{
    match ty {
        Ty::Var(name) => put_word(alloc, out, "var ", name.0.as_str()),
        Ty::Unknown(_) | Ty::Any(_) => Ok(()),
        Ty::Con(name) => put_name(alloc, out, name),
        Ty::App(function, argument) => {
            put_before_type(alloc, out, "app", "", function.get())?;
            put_type(alloc, out, argument.get())
        }
        Ty::Forall(name, kind, body) => {
            put_quantifier(alloc, out, name, kind)?;
            put_type(alloc, out, body.get())
        }
        Ty::Given(given, body) => {
            put_given(alloc, out, given)?;
            put_type(alloc, out, body.get())
        }
        Ty::RowCons(label, first, rest) => {
            put_before_type(alloc, out, "row ", label.0.as_str(), first.get())?;
            put_type(alloc, out, rest.get())
        }
        Ty::RowNil => put_word(alloc, out, "nil", ""),
        Ty::Symbol(text) => put_word(alloc, out, "sym ", text.as_str()),
    }
}

#[cycle(words)]
fn put_before_type(
    alloc: Global,
    out: &mut Vec<Text>,
    front: &str,
    name: &str,
    ty: &Ty,
) -> Result<(), NoMemory>
    ensures { IfOk result (λ _. out.new.items ≡ out.old.items ++ (spec.first front.now name.now (spec.words ty.now))) }
{
    put_word(alloc, out, front, name)?;
    put_type(alloc, out, ty)
}

fn put_quantifier(
    alloc: Global,
    out: &mut Vec<Text>,
    name: &Ident,
    kind: &Kind,
) -> Result<(), NoMemory>
    ensures { IfOk result (λ _. out.new.items ≡ out.old.items ++ (spec.first (codes "forall ") name.now.0 (spec.kind_words kind.now))) }
{
    put_word(alloc, out, "forall ", name.0.as_str())?;
    put_kind(alloc, out, kind)
}

#[cycle(words)]
fn put_given(alloc: Global, out: &mut Vec<Text>, given: &Constraint) -> Result<(), NoMemory>
    ensures { IfOk result (λ _. out.new.items ≡ out.old.items ++ (spec.first (codes "given") [] (spec.constraint_words given.now))) }
{
    put_word(alloc, out, "given", "")?;
    put_constraint(alloc, out, given)
}

/// Appends the words of a constraint: those of its class applied to its arguments.
#[cycle(words)]
pub(crate) fn put_constraint(
    alloc: Global,
    out: &mut Vec<Text>,
    given: &Constraint,
) -> Result<(), NoMemory>
    ensures { IfOk result (λ _. out.new.items ≡ out.old.items ++ (spec.constraint_words given.now)) }
{
    put_apps(alloc, out, given.args.as_slice())?;
    put_name(alloc, out, &given.class)?;
    put_types(alloc, out, given.args.as_slice())
}

#[tactic(auto, unfolding(crate::specs::Words::apps))]
fn put_apps(alloc: Global, out: &mut Vec<Text>, args: &[Ty]) -> Result<(), NoMemory>
    ensures { IfOk result (λ _. out.new.items ≡ out.old.items ++ (spec.apps args.now)) }
{
    for _arg in args {
        put_word(alloc, out, "app", "")?;
    }
    Ok(())
}

#[cycle(words)]
#[tactic(auto, unfolding(crate::specs::Words::concatenated))]
fn put_types(alloc: Global, out: &mut Vec<Text>, args: &[Ty]) -> Result<(), NoMemory>
    ensures { IfOk result (λ _. out.new.items ≡ out.old.items ++ (spec.concatenated (map spec.words args.now))) }
{
    for arg in args {
        put_type(alloc, out, arg)?;
    }
    Ok(())
}
