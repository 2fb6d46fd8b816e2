//! The names at the top of a module.

ghost use Rattle.std.specs.Prelude.{◌≡◌, ◌++◌, ◌∷◌, [], IfOk, List, ℕ, map, bytes_eq};
ghost use Rattle.std.specs.List.{list_any};
ghost use Rattle.std.specs.Ordering.{nat_cmp};
ghost use Rattle.std.specs.Cmp.Lexicographic.{slice_cmp};
ghost use Rattle.std.specs.BTreeSet.{contains};
ghost use Rattle.psc_js_tree.specs.Top as spec;

use crate::home::Home;
use psc_core_tree::{CoreBind, CoreBinding, CoreModule};
use psc_js_names::add_name;
use psc_text::{Ident, NoMemory, Text};
use sqlite_items::Items;
use std::alloc::Global;
use std::collections::BTreeSet;

fn add_text(names: &mut Items<Text>, name: &Ident) -> Result<(), NoMemory>
    ensures { IfOk result (λ _. names.new ≡ names.old ++ name.now.0 ∷ []) }
{
    names.push(name.0.clone()?)?;
    Ok(())
}

fn add_binding(names: &mut Items<Text>, binding: &CoreBinding) -> Result<(), NoMemory>
    ensures { IfOk result (λ _. names.new ≡ names.old ++ spec.name_of binding.now ∷ []) }
{
    add_text(names, &binding.name)
}

fn add_bindings(names: &mut Items<Text>, bindings: &[CoreBinding]) -> Result<(), NoMemory>
    ensures { IfOk result (λ _. names.new ≡ names.old ++ map spec.name_of bindings.now) }
{
    for binding in bindings {
        add_binding(names, binding)?;
    }
    Ok(())
}

fn add_bind(names: &mut Items<Text>, bind: &CoreBind) -> Result<(), NoMemory>
    ensures { IfOk result (λ _. names.new ≡ names.old ++ spec.names_of bind.now) }
{
    match bind {
        CoreBind::NonRec(binding) => add_binding(names, binding),
        CoreBind::Rec(bindings) => add_bindings(names, bindings.as_slice()),
    }
}

#[tactic(auto, unfolding(crate::specs::Top::all_names))]
fn add_binds(names: &mut Items<Text>, binds: &[CoreBind]) -> Result<(), NoMemory>
    ensures { IfOk result (λ _. names.new ≡ names.old ++ spec.all_names (map spec.names_of binds.now)) }
{
    for bind in binds {
        add_bind(names, bind)?;
    }
    Ok(())
}

fn add_idents(names: &mut Items<Text>, idents: &[Ident]) -> Result<(), NoMemory>
    ensures { IfOk result (λ _. names.new ≡ names.old ++ map spec.ident_text idents.now) }
{
    for ident in idents {
        add_text(names, ident)?;
    }
    Ok(())
}

/// The names that a module binds and its foreign values.
fn top_names(alloc: Global, core: &CoreModule) -> Result<Items<Text>, NoMemory>
    ensures { IfOk result (λ names. names ≡ spec.top_names core.now) }
{
    let mut names = Items::new(alloc);
    add_binds(&mut names, core.decls.as_slice())?;
    add_idents(&mut names, core.foreign.as_slice())?;
    Ok(names)
}

fn set_of(alloc: Global, names: &[Text]) -> Result<BTreeSet<Text>, NoMemory>
    ensures { IfOk result (λ top. (q : List ℕ) → contains (slice_cmp nat_cmp) top q ≡ list_any (λ x. bytes_eq x q) names.now) }
{
    let mut top = BTreeSet::new(alloc);
    for name in names {
        add_name(&mut top, name)?;
    }
    Ok(top)
}

/// The module with the names at its top.
pub(crate) fn home_of(alloc: Global, core: &CoreModule) -> Result<Home, NoMemory>
    ensures name { IfOk result (λ home. home.name ≡ core.now.name) }
    ensures top { IfOk result (λ home. (q : List ℕ) → contains (slice_cmp nat_cmp) home.top q ≡ spec.is_top core.now q) }
{
    let name = core.name.clone()?;
    let names = top_names(alloc, core)?;
    let top = set_of(alloc, names.as_slice())?;
    Ok(Home { name, top })
}
