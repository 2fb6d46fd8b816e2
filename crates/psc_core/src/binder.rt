//! Binders without their types.

ghost use Rattle.std.specs.Prelude.{◌≡◌, IfOk, map};
ghost use Rattle.psc_core.specs.Binder as spec;

use crate::typed_binder::{BinderForm, BinderLit, TypedBinder, TypedBinderField};
use psc_core_tree::{Ann, BinderField, BinderLiteral, CoreBinder};
use psc_text::NoMemory;
use sqlite_items::{Boxed, Items};
use std::alloc::Global;

/// The binder without its types.
#[cycle(binder)]
pub(crate) fn erase_binder(alloc: Global, binder: &TypedBinder) -> Result<CoreBinder, NoMemory>
    ensures { IfOk result (λ core. core ≡ spec.binder binder.now) }
{
    erase_form(alloc, &binder.form, &binder.ann)
}

#[cycle(binder)]
fn erase_form(alloc: Global, form: &BinderForm, ann: &Ann) -> Result<CoreBinder, NoMemory>
    ensures { IfOk result (λ core. core ≡ spec.form form.now ann.now) }
{
    let ann = ann.clone()?;
    match form {
        BinderForm::Wild => Ok(CoreBinder::Null { ann }),
        BinderForm::Var { name } => {
            let name = name.clone()?;
            Ok(CoreBinder::Var { ann, name })
        }
        BinderForm::Named { name, inner } => {
            let name = name.clone()?;
            let binder = Boxed::new(alloc, erase_binder(alloc, inner.get())?)?;
            Ok(CoreBinder::Named { ann, name, binder })
        }
        BinderForm::Lit { value } => {
            let value = erase_binder_lit(alloc, value)?;
            Ok(CoreBinder::Literal { ann, value })
        }
        BinderForm::Ctor {
            name,
            parent,
            parts,
        } => {
            let binders = erase_binders(alloc, parts.as_slice())?;
            Ok(CoreBinder::Constructor {
                ann,
                type_name: parent.clone()?,
                constructor_name: name.clone()?,
                binders,
            })
        }
    }
}

#[cycle(binder)]
pub(crate) fn erase_binders(
    alloc: Global,
    binders: &[TypedBinder],
) -> Result<Items<CoreBinder>, NoMemory>
    ensures { IfOk result (λ core. core ≡ map spec.binder binders.now) }
{
    let mut made = Items::new(alloc);
    for binder in binders {
        made.push(erase_binder(alloc, binder)?)?;
    }
    Ok(made)
}

#[cycle(binder)]
fn erase_binder_lit(alloc: Global, literal: &BinderLit) -> Result<BinderLiteral, NoMemory>
    ensures { IfOk result (λ core. core ≡ spec.literal literal.now) }
{
    match literal {
        BinderLit::Int(number) => Ok(BinderLiteral::Int(*number)),
        BinderLit::Str(text) => Ok(BinderLiteral::Str(text.clone()?)),
        BinderLit::Char(letter) => Ok(BinderLiteral::Char(*letter)),
        BinderLit::Bool(truth) => Ok(BinderLiteral::Bool(*truth)),
        BinderLit::Array(parts) => {
            Ok(BinderLiteral::Array(erase_binders(alloc, parts.as_slice())?))
        }
        BinderLit::Object(fields) => {
            Ok(BinderLiteral::Object(erase_binder_fields(alloc, fields.as_slice())?))
        }
    }
}

#[cycle(binder)]
fn erase_binder_fields(
    alloc: Global,
    fields: &[TypedBinderField],
) -> Result<Items<BinderField>, NoMemory>
    ensures { IfOk result (λ core. core ≡ map spec.field fields.now) }
{
    let mut made = Items::new(alloc);
    for field in fields {
        made.push(erase_binder_field(alloc, field)?)?;
    }
    Ok(made)
}

#[cycle(binder)]
fn erase_binder_field(alloc: Global, field: &TypedBinderField) -> Result<BinderField, NoMemory>
    ensures { IfOk result (λ core. core ≡ spec.field field.now) }
{
    let label = field.label.clone()?;
    let value = erase_binder(alloc, &field.value)?;
    Ok(BinderField { label, value })
}
