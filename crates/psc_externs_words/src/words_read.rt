//! Types and kinds from their words.
//!
//! The words are read from the last to the first, with a stack of what they have made so far: a form
//! takes its parts, which stand behind it, from the stack. So a list that ends early finds a part
//! missing, and one that goes on leaves more than one thing.

ghost use Rattle.std.specs.Prelude.{◌≡◌, ◌∷◌, ◌++◌, [], IfOk, option_map};
ghost use Rattle.psc_externs_words.specs.Reading as spec;

use crate::stack::{Item, kind_and_type, lone, pop_kind, push, two_kinds, two_types};
use psc_items::{Shared, SharedItems};
use psc_text::{Ident, Label, NoMemory, Qualified, Text, read_module_name};
use psc_type::{Constraint, Kind, Ty};
use std::alloc::Global;

/// A text as its parts before and behind its last dot.
pub fn cut_at_last_dot(text: &str) -> Option<(&str, &str)>
    ensures { option_map (λ p. (p.0.now, p.1.now)) result ≡ spec.cut text.now }
{
    text.rsplit_once(".")
}

/// The name behind its module and a dot.
fn qualified(alloc: Global, text: &str) -> Result<Option<Qualified>, NoMemory>
    ensures { IfOk result (λ o. o ≡ spec.qualified text.now) }
{
    match cut_at_last_dot(text) {
        Some((module, name)) => match read_module_name(alloc, module)? {
            Some(module) => Ok(Some(Qualified {
                module: Some(module),
                name: Text::new(alloc, name)?,
            })),
            None => Ok(None),
        },
        None => Ok(None),
    }
}

/// A class and the types that it is applied to.
#[tactic(auto, using(crate::proofs::ClassRules::classes))]
fn class_and_args(alloc: Global, ty: &Ty) -> Result<Option<(Qualified, Vec<Ty>)>, NoMemory>
    ensures { IfOk result (λ o. option_map (λ p. (p.0, p.1.items)) o ≡ spec.class_and_args ty.now) }
{
    match ty {
        Ty::Con(name) => Ok(Some((name.clone()?, Vec::new(alloc)))),
        Ty::App(function, argument) => match class_and_args(alloc, function.get())? {
            Some((class, args)) => Ok(Some((class, with_one_more(args, argument.get())?))),
            None => Ok(None),
        },
        Ty::Var(_)
        | Ty::Unknown(_)
        | Ty::Forall(_, _, _)
        | Ty::Given(_, _)
        | Ty::RowCons(_, _, _)
        | Ty::RowNil
        | Ty::Symbol(_)
        | Ty::Any(_) => Ok(None),
    }
}

fn with_one_more(args: Vec<Ty>, arg: &Ty) -> Result<Vec<Ty>, NoMemory>
    ensures { IfOk result (λ v. v.items ≡ args.items ++ arg.now ∷ []) }
{
    let mut args = args;
    args.push(arg.clone()?)?;
    Ok(args)
}

/// A class applied to its arguments, as a constraint.
pub(crate) fn constraint_of(alloc: Global, ty: &Ty) -> Result<Option<Constraint>, NoMemory>
    ensures { IfOk result (λ o. o ≡ spec.constraint_of ty.now) }
{
    match class_and_args(alloc, ty)? {
        Some((class, args)) => {
            let args = SharedItems::from_vec(alloc, args)?;
            Ok(Some(Constraint { class, args }))
        }
        None => Ok(None),
    }
}

fn row_kind(alloc: Global, stack: Vec<Item>) -> Result<Option<Vec<Item>>, NoMemory>
    ensures { IfOk result (λ o. option_map (λ v. v.items) o ≡ spec.row_kind stack.items) }
{
    match pop_kind(stack) {
        Some((of, stack)) => push(stack, Item::OfKind(Kind::RowOf(Shared::new(alloc, of)?))),
        None => Ok(None),
    }
}

fn arrow_kind(alloc: Global, stack: Vec<Item>) -> Result<Option<Vec<Item>>, NoMemory>
    ensures { IfOk result (λ o. option_map (λ v. v.items) o ≡ spec.arrow_kind stack.items) }
{
    match two_kinds(stack) {
        Some((from, to, stack)) => {
            let from = Shared::new(alloc, from)?;
            push(
                stack,
                Item::OfKind(Kind::Arrow(from, Shared::new(alloc, to)?)),
            )
        }
        None => Ok(None),
    }
}

fn application(alloc: Global, stack: Vec<Item>) -> Result<Option<Vec<Item>>, NoMemory>
    ensures { IfOk result (λ o. option_map (λ v. v.items) o ≡ spec.application stack.items) }
{
    match two_types(stack) {
        Some((function, argument, stack)) => {
            let function = Shared::new(alloc, function)?;
            push(
                stack,
                Item::OfType(Ty::App(function, Shared::new(alloc, argument)?)),
            )
        }
        None => Ok(None),
    }
}

fn constrained(alloc: Global, stack: Vec<Item>) -> Result<Option<Vec<Item>>, NoMemory>
    ensures { IfOk result (λ o. option_map (λ v. v.items) o ≡ spec.constrained stack.items) }
{
    match two_types(stack) {
        Some((class, body, stack)) => {
            let given = constraint_of(alloc, &class)?;
            given_to(alloc, body, stack, given)
        }
        None => Ok(None),
    }
}

/// The type under the constraint, where there is one.
fn given_to(
    alloc: Global,
    body: Ty,
    stack: Vec<Item>,
    given: Option<Constraint>,
) -> Result<Option<Vec<Item>>, NoMemory>
    ensures { IfOk result (λ o. option_map (λ v. v.items) o ≡ spec.given_to body stack.items given) }
{
    match given {
        Some(given) => push(
            stack,
            Item::OfType(Ty::Given(given, Shared::new(alloc, body)?)),
        ),
        None => Ok(None),
    }
}

fn variable(alloc: Global, name: &str, stack: Vec<Item>) -> Result<Option<Vec<Item>>, NoMemory>
    ensures { IfOk result (λ o. option_map (λ v. v.items) o ≡ spec.variable name.now stack.items) }
{
    push(stack, Item::OfType(Ty::Var(Ident(Text::new(alloc, name)?))))
}

fn symbol(alloc: Global, text: &str, stack: Vec<Item>) -> Result<Option<Vec<Item>>, NoMemory>
    ensures { IfOk result (λ o. option_map (λ v. v.items) o ≡ spec.symbol text.now stack.items) }
{
    push(stack, Item::OfType(Ty::Symbol(Text::new(alloc, text)?)))
}

fn constructor(alloc: Global, text: &str, stack: Vec<Item>) -> Result<Option<Vec<Item>>, NoMemory>
    ensures { IfOk result (λ o. option_map (λ v. v.items) o ≡ spec.constructor text.now stack.items) }
{
    match qualified(alloc, text)? {
        Some(name) => push(stack, Item::OfType(Ty::Con(name))),
        None => Ok(None),
    }
}

fn quantified(alloc: Global, name: &str, stack: Vec<Item>) -> Result<Option<Vec<Item>>, NoMemory>
    ensures { IfOk result (λ o. option_map (λ v. v.items) o ≡ spec.quantified name.now stack.items) }
{
    match kind_and_type(stack) {
        Some((kind, body, stack)) => {
            let name = Ident(Text::new(alloc, name)?);
            push(
                stack,
                Item::OfType(Ty::Forall(name, kind, Shared::new(alloc, body)?)),
            )
        }
        None => Ok(None),
    }
}

fn labelled(alloc: Global, label: &str, stack: Vec<Item>) -> Result<Option<Vec<Item>>, NoMemory>
    ensures { IfOk result (λ o. option_map (λ v. v.items) o ≡ spec.labelled label.now stack.items) }
{
    match two_types(stack) {
        Some((first, rest, stack)) => {
            let label = Label(Text::new(alloc, label)?);
            let first = Shared::new(alloc, first)?;
            push(
                stack,
                Item::OfType(Ty::RowCons(label, first, Shared::new(alloc, rest)?)),
            )
        }
        None => Ok(None),
    }
}

/// What stands behind a front of the word.
fn behind<'a>(word: &'a str, front: &str) -> Option<&'a str>
    ensures { option_map (λ s. s.now) result ≡ spec.strip front.now word.now }
{
    word.strip_prefix(front)
}

/// The stack behind a word that has a name or a text.
#[tactic(auto, unfolding(crate::specs::Reading::named))]
fn named(alloc: Global, word: &str, stack: Vec<Item>) -> Result<Option<Vec<Item>>, NoMemory>
    ensures { IfOk result (λ o. option_map (λ v. v.items) o ≡ spec.named word.now stack.items) }
{
    if let Some(name) = behind(word, "var ") {
        variable(alloc, name, stack)
    } else if let Some(name) = behind(word, "con ") {
        constructor(alloc, name, stack)
    } else if let Some(name) = behind(word, "forall ") {
        quantified(alloc, name, stack)
    } else if let Some(label) = behind(word, "row ") {
        labelled(alloc, label, stack)
    } else if let Some(text) = behind(word, "sym ") {
        symbol(alloc, text, stack)
    } else {
        Ok(None)
    }
}

/// The stack behind a word for a kind of kinds, or behind a word that has a name.
#[tactic(auto, unfolding(crate::specs::Reading::made_kind))]
fn made_kind(alloc: Global, word: &str, stack: Vec<Item>) -> Result<Option<Vec<Item>>, NoMemory>
    ensures { IfOk result (λ o. option_map (λ v. v.items) o ≡ spec.made_kind word.now stack.items) }
{
    if word == "R" {
        row_kind(alloc, stack)
    } else if word == "F" {
        arrow_kind(alloc, stack)
    } else {
        named(alloc, word, stack)
    }
}

/// The stack behind a word for a kind without parts, or behind another word.
#[tactic(auto, unfolding(crate::specs::Reading::plain_kind))]
fn plain_kind(alloc: Global, word: &str, stack: Vec<Item>) -> Result<Option<Vec<Item>>, NoMemory>
    ensures { IfOk result (λ o. option_map (λ v. v.items) o ≡ spec.plain_kind word.now stack.items) }
{
    if word == "T" {
        push(stack, Item::OfKind(Kind::Star))
    } else if word == "C" {
        push(stack, Item::OfKind(Kind::Constr))
    } else if word == "S" {
        push(stack, Item::OfKind(Kind::Sym))
    } else {
        made_kind(alloc, word, stack)
    }
}

/// The stack behind a word. None where the word's parts are not on the stack, or it is no word.
#[tactic(auto, unfolding(crate::specs::Reading::step))]
fn step(alloc: Global, word: &str, stack: Vec<Item>) -> Result<Option<Vec<Item>>, NoMemory>
    ensures { IfOk result (λ o. option_map (λ v. v.items) o ≡ spec.step word.now stack.items) }
{
    if word == "nil" {
        push(stack, Item::OfType(Ty::RowNil))
    } else if word == "app" {
        application(alloc, stack)
    } else if word == "given" {
        constrained(alloc, stack)
    } else {
        plain_kind(alloc, word, stack)
    }
}

/// The one thing that all the words make.
pub(crate) fn made(alloc: Global, words: &[Text]) -> Result<Option<Item>, NoMemory>
    ensures { IfOk result (λ o. o ≡ spec.made words.now) }
{
    let mut stack = Vec::new(alloc);
    for turn in 0..words.len() {
        let place = words.len() - 1 - turn;
        let word = words[place].as_str();
        match step(alloc, word, stack)? {
            Some(more) => stack = more,
            None => return Ok(None),
        }
    }
    Ok(lone(stack))
}
