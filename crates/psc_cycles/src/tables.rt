//! The own declarations of a module by their names.

ghost use Rattle.std.specs.Prelude.{◌≡◌, ◌↔◌, IsTrue, IsSome, OnOk};
ghost use Rattle.std.specs.Option.{option_copied};
ghost use Rattle.psc_cycles.specs.Tables as spec;

use psc_ast::{Decl, Mention, Module};
use psc_text::{ModuleName, NoMemory, Text};
use std::alloc::Global;
use std::collections::BTreeMap;

/// The numbers of the own values and types. A declaration's number is its place in the module, and that of a value with
/// several clauses is its first clause's.
#[derive(Debug, Drop)]
pub(crate) struct Tables {
    module: ModuleName,
    values: BTreeMap<Text, u32>,
    types: BTreeMap<Text, u32>,
}

/// The name of a type, a synonym or a class that a declaration makes.
pub(crate) fn type_name(decl: &Decl) -> Option<&Text>
    ensures { option_copied result ≡ spec.type_name decl.now }
{
    match decl {
        Decl::XData(data) | Decl::Newtype(data) => Some(&data.name.name),
        Decl::Synonym(synonym) => Some(&synonym.name.name),
        Decl::Class(class) => Some(&class.name.name),
        Decl::KindSig { .. }
        | Decl::ForeignValue { .. }
        | Decl::ForeignData { .. }
        | Decl::Instance(_)
        | Decl::Fixity(_)
        | Decl::Sig(_)
        | Decl::Clause(_) => None,
    }
}

/// The name of the value that a clause is of.
pub(crate) fn value_name(decl: &Decl) -> Option<&Text>
    ensures { option_copied result ≡ spec.value_name decl.now }
{
    match decl {
        Decl::Clause(clause) => Some(&clause.name.name.0),
        Decl::XData(_)
        | Decl::Newtype(_)
        | Decl::Synonym(_)
        | Decl::KindSig { .. }
        | Decl::ForeignValue { .. }
        | Decl::ForeignData { .. }
        | Decl::Class(_)
        | Decl::Instance(_)
        | Decl::Fixity(_)
        | Decl::Sig(_) => None,
    }
}

impl Tables {
    pub(crate) fn of_module(alloc: Global, module: &Module) -> Result<Tables, NoMemory> {
        let mut values = BTreeMap::new(alloc);
        let mut types = BTreeMap::new(alloc);
        let mut number: u32 = 0;
        for decl in module.decls.as_slice() {
            if let Some(name) = type_name(decl) {
                note(&mut types, name, number)?;
            }
            if let Some(name) = value_name(decl) {
                note(&mut values, name, number)?;
            }
            number = number.checked_add(1).ok_or(NoMemory)?;
        }
        Ok(Tables {
            module: module.name.name.clone()?,
            values,
            types,
        })
    }

    /// Whether a mention may be of an own declaration: it has the own module, or none.
    fn is_own(&self, mention: &Mention) -> bool
        ensures { IsTrue result ↔ spec.IsOwn self.now mention.now }
    {
        match &mention.name.module {
            Some(module) => module.same(&self.module),
            None => true,
        }
    }

    /// The own type, synonym or class that a mention is of.
    pub(crate) fn type_of(&self, mention: &Mention) -> Option<u32>
        ensures own { spec.IsOwn self.now mention.now → result ≡ spec.found self.now.types mention.now.name.name }
        ensures other { (spec.IsOwn self.now mention.now → ⊥) → result ≡ None }
    {
        if self.is_own(mention) {
            self.types.get(&mention.name.name).copied()
        } else {
            None
        }
    }

    /// The own value that a mention is of, where no local name is meant.
    pub(crate) fn value_of(&self, mention: &Mention) -> Option<u32>
        ensures own { spec.IsOwn self.now mention.now → result ≡ spec.found self.now.values mention.now.name.name }
        ensures other { (spec.IsOwn self.now mention.now → ⊥) → result ≡ None }
    {
        if self.is_own(mention) {
            self.named(&mention.name.name)
        } else {
            None
        }
    }

    /// The own value of a name.
    pub(crate) fn named(&self, name: &Text) -> Option<u32>
        ensures { result ≡ spec.found self.now.values name.now }
    {
        self.values.get(name).copied()
    }
}

/// Keeps the first declaration of a name.
fn note(table: &mut BTreeMap<Text, u32>, name: &Text, number: u32) -> Result<(), NoMemory>
    ensures new { spec.found table.old name.now ≡ None → OnOk result (spec.found table.new name.now ≡ Some number) }
    ensures known { IsSome (spec.found table.old name.now) → OnOk result (table.new ≡ table.old) }
{
    if table.get(name).is_none() {
        let _before = table.insert(name.clone()?, number)?;
    }
    Ok(())
}
