//! Small plain expressions that several forms are made of.

ghost use Rattle.std.specs.Prelude.{◌≡◌, [], ◌∷◌, IfOk};
ghost use Rattle.psc_plain_parts.specs.Forms as spec;
ghost use Rattle.psc_plain_parts.specs.Made as made_spec;

use crate::state::{Desugar, Numbers};
use psc_ast::Mention;
use psc_plain::{PlainAlt, PlainBinder, PlainExpr, PlainRhs};
use psc_text::{Ident, NoMemory, Qualified, Span, Text, begins_upper};
use sqlite_items::{Boxed, Items};
use std::alloc::Global;

/// A local name as a mention has it.
pub fn local(name: Ident) -> Qualified
    ensures { result ≡ made_spec.local name }
{
    let Ident(text) = name;
    Qualified {
        module: None,
        name: text,
    }
}

/// Whether a name begins as those of constructors do.
fn is_upper(name: &Text) -> bool {
    match name.as_str().chars().next() {
        Some(letter) => begins_upper(letter),
        None => false,
    }
}

/// A value or a constructor by its name.
pub fn value(mention: &Mention) -> Result<PlainExpr, NoMemory> {
    let name = mention.name.clone()?;
    let span = mention.span;
    if is_upper(&mention.name.name) {
        Ok(PlainExpr::Constructor { name, span })
    } else {
        Ok(PlainExpr::Variable { name, span })
    }
}

/// The variable of a made name.
pub fn made(state: &Desugar, number: u32, span: Span) -> Result<PlainExpr, NoMemory>
    ensures { IfOk result (λ made. made ≡ spec.variable number span) }
{
    let name = state.made(number)?;
    Ok(PlainExpr::Variable {
        name: local(name),
        span,
    })
}

/// An expression on the heap.
pub fn boxed(alloc: Global, tree: PlainExpr) -> Result<Boxed<PlainExpr>, NoMemory>
    ensures { IfOk result (λ made. made ≡ tree) }
{
    match Boxed::new(alloc, tree) {
        Ok(tree) => Ok(tree),
        Err(_) => Err(NoMemory),
    }
}

/// A function applied to one argument.
pub fn application(
    alloc: Global,
    function: PlainExpr,
    argument: PlainExpr,
    span: Span,
) -> Result<PlainExpr, NoMemory>
    ensures { IfOk result (λ made. made ≡ spec.application function argument span) }
{
    match boxed(alloc, function) {
        Ok(function) => with_argument(alloc, function, argument, span),
        Err(error) => Err(error),
    }
}

fn with_argument(
    alloc: Global,
    function: Boxed<PlainExpr>,
    argument: PlainExpr,
    span: Span,
) -> Result<PlainExpr, NoMemory>
    ensures { IfOk result (λ made. made ≡ spec.application function argument span) }
{
    match boxed(alloc, argument) {
        Ok(argument) => Ok(PlainExpr::Application {
            function,
            argument,
            span,
        }),
        Err(error) => Err(error),
    }
}

/// A function of a name.
pub fn lambda(
    alloc: Global,
    name: Ident,
    name_span: Span,
    body: PlainExpr,
    span: Span,
) -> Result<PlainExpr, NoMemory>
    ensures { IfOk result (λ made. made ≡ spec.lambda name name_span body span) }
{
    match boxed(alloc, body) {
        Ok(body) => Ok(PlainExpr::Lambda {
            name,
            name_span,
            body,
            span,
        }),
        Err(error) => Err(error),
    }
}

fn made_lambda(
    state: &Desugar,
    number: u32,
    body: PlainExpr,
    span: Span,
) -> Result<PlainExpr, NoMemory>
    ensures { IfOk result (λ made. made ≡ spec.lambda (made_spec.name number) span body span) }
{
    match state.made(number) {
        Ok(name) => lambda(state.alloc, name, span, body, span),
        Err(error) => Err(error),
    }
}

/// Functions of made names round an expression.
pub fn made_lambdas(
    state: &Desugar,
    numbers: Numbers,
    body: PlainExpr,
    span: Span,
) -> Result<PlainExpr, NoMemory> {
    let mut whole = body;
    for number in (numbers.from..numbers.to).rev() {
        whole = made_lambda(state, number, whole, span)?;
    }
    Ok(whole)
}

/// The made names as variables.
pub fn made_all(
    state: &Desugar,
    numbers: Numbers,
    span: Span,
) -> Result<Items<PlainExpr>, NoMemory> {
    let mut list = Items::new(state.alloc);
    for number in numbers.from..numbers.to {
        let one = made(state, number, span)?;
        list.push(one)?;
    }
    Ok(list)
}

/// A list of one.
fn list_of_one<T: Drop>(alloc: Global, item: T) -> Result<Items<T>, NoMemory>
    ensures { IfOk result (λ list. list ≡ item ∷ []) }
{
    let mut list = Items::new(alloc);
    list.push(item)?;
    Ok(list)
}

/// An alternative of one binder.
pub fn alternative(
    alloc: Global,
    binder: PlainBinder,
    body: PlainExpr,
    span: Span,
) -> Result<PlainAlt, NoMemory>
    ensures { IfOk result (λ alt. alt ≡ spec.alternative binder body span) }
{
    match boxed(alloc, body) {
        Ok(body) => alternative_of(alloc, binder, body, span),
        Err(error) => Err(error),
    }
}

fn alternative_of(
    alloc: Global,
    binder: PlainBinder,
    body: Boxed<PlainExpr>,
    span: Span,
) -> Result<PlainAlt, NoMemory>
    ensures { IfOk result (λ alt. alt ≡ spec.alternative binder body span) }
{
    match list_of_one(alloc, binder) {
        Ok(binders) => Ok(PlainAlt {
            binders,
            rhs: PlainRhs::Body(body),
            span,
        }),
        Err(error) => Err(error),
    }
}

/// A case of one scrutinee with one alternative.
pub fn case_of_one(
    alloc: Global,
    scrutinee: PlainExpr,
    alt: PlainAlt,
    span: Span,
) -> Result<PlainExpr, NoMemory>
    ensures { IfOk result (λ made. made ≡ spec.case_of_one scrutinee alt span) }
{
    match list_of_one(alloc, alt) {
        Ok(alternatives) => case_of_value(alloc, scrutinee, alternatives, span),
        Err(error) => Err(error),
    }
}

/// A case of one scrutinee.
pub fn case_of_value(
    alloc: Global,
    scrutinee: PlainExpr,
    alternatives: Items<PlainAlt>,
    span: Span,
) -> Result<PlainExpr, NoMemory>
    ensures { IfOk result (λ made. made ≡ spec.case_of scrutinee alternatives span) }
{
    match list_of_one(alloc, scrutinee) {
        Ok(scrutinees) => Ok(PlainExpr::Case {
            scrutinees,
            alternatives,
            span,
        }),
        Err(error) => Err(error),
    }
}

/// Guards without arguments: a case of nothing.
pub fn case_of_nothing(alloc: Global, rhs: PlainRhs, span: Span) -> Result<PlainExpr, NoMemory>
    ensures { IfOk result (λ made. made ≡ spec.case_of_nothing rhs span) }
{
    let alt = PlainAlt {
        binders: Items::new(alloc),
        rhs,
        span,
    };
    match list_of_one(alloc, alt) {
        Ok(alternatives) => Ok(PlainExpr::Case {
            scrutinees: Items::new(alloc),
            alternatives,
            span,
        }),
        Err(error) => Err(error),
    }
}

/// Functions of made names over a case of them all.
pub fn made_case(
    state: &Desugar,
    numbers: Numbers,
    alternatives: Items<PlainAlt>,
    span: Span,
) -> Result<PlainExpr, NoMemory> {
    match made_all(state, numbers, span) {
        Ok(scrutinees) => {
            let whole = PlainExpr::Case {
                scrutinees,
                alternatives,
                span,
            };
            made_lambdas(state, numbers, whole, span)
        }
        Err(error) => Err(error),
    }
}

/// Functions of made names over a case of them all, whose only alternative has these binders.
pub fn made_function(
    state: &Desugar,
    numbers: Numbers,
    binders: Items<PlainBinder>,
    body: PlainExpr,
    span: Span,
) -> Result<PlainExpr, NoMemory> {
    match boxed(state.alloc, body) {
        Ok(body) => {
            let alt = PlainAlt {
                binders,
                rhs: PlainRhs::Body(body),
                span,
            };
            let alternatives = list_of_one(state.alloc, alt)?;
            made_case(state, numbers, alternatives, span)
        }
        Err(error) => Err(error),
    }
}
