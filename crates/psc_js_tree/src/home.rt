//! The module that names are printed for.

ghost use Rattle.std.specs.Prelude.{◌≡◌, IfOk};
ghost use Rattle.psc_js_tree.specs.Scope as spec;

use crate::js::JsName;
use psc_js_names::{alias, local, printed};
use psc_text::{Ident, ModuleName, NoMemory, Qualified, Text};
use std::alloc::Global;
use std::collections::BTreeSet;

/// A module's name and the names at its top.
#[derive(Drop)]
pub struct Home {
    pub name: ModuleName,
    pub top: BTreeSet<Text>,
}

/// The printed name of a local value.
pub(crate) fn local_name(alloc: Global, home: &Home, name: &Text) -> Result<Text, NoMemory>
    ensures { IfOk result (λ text. text ≡ spec.local_name (spec.scope home.now) name.now) }
{
    local(alloc, &home.top, name)
}

/// The printed name of an identifier that is local.
pub(crate) fn local_ident(alloc: Global, home: &Home, name: &Ident) -> Result<Text, NoMemory>
    ensures { IfOk result (λ text. text ≡ spec.local_name (spec.scope home.now) name.now.0) }
{
    local_name(alloc, home, &name.0)
}

fn is_undefined(owner: &ModuleName, name: &Text) -> bool
    ensures { result ≡ spec.is_undefined owner.now name.now }
{
    owner.as_str() == "Prim" && name.as_str() == "undefined"
}

#[tactic(auto, unfolding(crate::specs::Scope::name_of))]
fn name_of(alloc: Global, home: &Home, owner: &ModuleName, name: &Text) -> Result<JsName, NoMemory>
    ensures { IfOk result (λ js. js ≡ spec.name_of (spec.scope home.now) owner.now name.now) }
{
    if owner.as_str() == home.name.as_str() {
        Ok(JsName::Own(printed(alloc, name.as_str())?))
    } else if is_undefined(owner, name) {
        Ok(JsName::Undefined)
    } else {
        Ok(JsName::Imported {
            alias: alias(alloc, owner)?,
            name: printed(alloc, name.as_str())?,
        })
    }
}

/// A name where it is used.
#[tactic(auto, unfolding(crate::specs::Scope::used))]
pub(crate) fn used(alloc: Global, home: &Home, name: &Qualified) -> Result<JsName, NoMemory>
    ensures { IfOk result (λ js. js ≡ spec.used (spec.scope home.now) name.now) }
{
    match &name.module {
        None => Ok(JsName::Own(local_name(alloc, home, &name.name)?)),
        Some(owner) => name_of(alloc, home, owner, &name.name),
    }
}
