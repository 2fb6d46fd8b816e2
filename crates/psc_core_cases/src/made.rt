//! Nodes that erasure makes, which stand in no source: each has the place of the form that it comes
//! from, and nothing is known of it.

ghost use Rattle.std.specs.Prelude.{◌≡◌, ◌++◌, IfOk, codes, decimal};
ghost use Rattle.psc_core_cases.specs.Made as spec;

use itoa::Buffer;
use psc_core_tree::{Ann, BinderLiteral, CoreBind, CoreBinder, CoreBinding, CoreExpr, Literal};
use psc_text::{Ident, Label, ModuleName, NoMemory, Qualified, Span, Text, read_module_name};
use sqlite_items::Boxed;
use std::alloc::Global;

/// A name with its number behind it.
fn numbered(alloc: Global, front: &str, number: usize) -> Result<Text, NoMemory>
    ensures { IfOk result (λ text. text ≡ front.now ++ decimal number) }
{
    let mut text = String::from_str(alloc, front)?;
    text.push_str(Buffer::new().format(number))?;
    Text::from_string(text)
}

/// The label of the superclass of this number, counted from 0.
pub fn super_label(alloc: Global, number: usize) -> Result<Label, NoMemory>
    ensures { IfOk result (λ label. label ≡ spec.super_label number) }
{
    Ok(Label(numbered(alloc, "$super", number)?))
}

/// The name of the subject of this number.
pub(crate) fn subject_name(alloc: Global, number: usize) -> Result<Text, NoMemory>
    ensures { IfOk result (λ name. name ≡ spec.subject_name number) }
{
    numbered(alloc, "$s", number)
}

/// The name of the place of this number where a case goes on.
pub(crate) fn place_name(alloc: Global, number: usize) -> Result<Text, NoMemory>
    ensures { IfOk result (λ name. name ≡ spec.place_name number) }
{
    numbered(alloc, "$f", number)
}

/// A local name where it is used.
pub fn variable(at: Span, name: Text) -> CoreExpr
    ensures { result ≡ spec.variable at name }
{
    CoreExpr::Var {
        ann: Ann::plain(at),
        name: Qualified { module: None, name },
    }
}

/// The name of the built-in module. It is a module's name; only want of memory refuses it.
fn prim(alloc: Global) -> Result<ModuleName, NoMemory>
    ensures { IfOk result (λ name. name ≡ codes "Prim") }
{
    read_module_name(alloc, "Prim")?.ok_or(NoMemory)
}

/// The value that what is put off is applied to.
fn undefined(alloc: Global, at: Span) -> Result<CoreExpr, NoMemory>
    ensures { IfOk result (λ core. core ≡ spec.undefined at) }
{
    let module = Some(prim(alloc)?);
    let name = Text::new(alloc, "undefined")?;
    Ok(CoreExpr::Var {
        ann: Ann::plain(at),
        name: Qualified { module, name },
    })
}

/// An expression on the heap.
pub(crate) fn boxed(alloc: Global, core: CoreExpr) -> Result<Boxed<CoreExpr>, NoMemory>
    ensures { IfOk result (λ made. made ≡ core) }
{
    match Boxed::new(alloc, core) {
        Ok(made) => Ok(made),
        Err(_) => Err(NoMemory),
    }
}

/// A lambda of this name.
fn lambda(alloc: Global, at: Span, argument: Text, body: CoreExpr) -> Result<CoreExpr, NoMemory>
    ensures { IfOk result (λ core. core ≡ spec.lambda at argument body) }
{
    match boxed(alloc, body) {
        Ok(body) => Ok(CoreExpr::Abs {
            ann: Ann::plain(at),
            argument: Ident(argument),
            body,
        }),
        Err(error) => Err(error),
    }
}

/// A value that is put off.
pub fn thunk(alloc: Global, at: Span, value: CoreExpr) -> Result<CoreExpr, NoMemory>
    ensures { IfOk result (λ core. core ≡ spec.thunk at value) }
{
    match Text::new(alloc, "$u") {
        Ok(argument) => lambda(alloc, at, argument, value),
        Err(error) => Err(error),
    }
}

fn boxed_undefined(alloc: Global, at: Span) -> Result<Boxed<CoreExpr>, NoMemory>
    ensures { IfOk result (λ made. made ≡ spec.undefined at) }
{
    let core = undefined(alloc, at)?;
    boxed(alloc, core)
}

fn applied(
    alloc: Global,
    at: Span,
    function: CoreExpr,
    argument: Boxed<CoreExpr>,
) -> Result<CoreExpr, NoMemory>
    ensures { IfOk result (λ core. core ≡ spec.applied at function argument) }
{
    match boxed(alloc, function) {
        Ok(function) => Ok(CoreExpr::App {
            ann: Ann::plain(at),
            function,
            argument,
        }),
        Err(error) => Err(error),
    }
}

/// A value that was put off, where it is wanted.
pub fn forced(alloc: Global, at: Span, value: CoreExpr) -> Result<CoreExpr, NoMemory>
    ensures { IfOk result (λ core. core ≡ spec.forced at value) }
{
    match boxed_undefined(alloc, at) {
        Ok(argument) => applied(alloc, at, value, argument),
        Err(error) => Err(error),
    }
}

pub(crate) fn truth(at: Span, truth: bool) -> CoreExpr
    ensures { result ≡ spec.truth at truth }
{
    CoreExpr::Literal {
        ann: Ann::plain(at),
        value: Literal::Bool(truth),
    }
}

/// The binder `true`.
pub fn true_binder(at: Span) -> CoreBinder
    ensures { result ≡ spec.true_binder at }
{
    CoreBinder::Literal {
        ann: Ann::plain(at),
        value: BinderLiteral::Bool(true),
    }
}

/// The binder `_`.
pub(crate) fn any_binder(at: Span) -> CoreBinder
    ensures { result ≡ spec.any_binder at }
{
    CoreBinder::Null {
        ann: Ann::plain(at),
    }
}

/// The binding of a local name.
pub(crate) fn bound(at: Span, name: Text, body: CoreExpr) -> CoreBind
    ensures { result ≡ spec.bound at name body }
{
    CoreBind::NonRec(CoreBinding {
        ann: Ann::plain(at),
        name: Ident(name),
        body,
    })
}
