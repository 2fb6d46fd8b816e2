//! Declarations: what they mention, and which of them need themselves.

ghost use Rattle.std.specs.Prelude.{◌≡◌, [], ◌∷◌, IsNone, IfSome, IfOk, OnOk, option_map, slice_get, unwrap_or, false};
ghost use Rattle.psc_cycles.specs.First as spec;

use crate::binds::clause;
use crate::scope::{Found, Links, Walk, bare_cycles, is_before, reach_themselves};
use crate::tables::Tables;
use crate::types::{all_mentions, constraint_mentions, type_mentions};
use psc_ast::{ClassDecl, DataDecl, Decl, Module};
use psc_error::{Code, PsError};
use psc_groups::BindingGroup;
use psc_items::SharedItems;
use psc_text::{NoMemory, Span, Text};
use std::alloc::Global;

/// For each declaration those that it mentions, by their places in the module.
///
/// A type, a synonym or a class mentions types, synonyms and classes; a value mentions values. The first clause of a value
/// stands for all its clauses. Other declarations mention none.
pub fn declaration_mentions(alloc: Global, module: &Module) -> Result<Vec<Vec<u32>>, NoMemory> {
    let tables = Tables::of_module(alloc, module)?;
    let mut walk = Walk::start(alloc, tables);
    let mut mentions = walk_values(&mut walk, module)?.mentions;
    for (place, decl) in module.decls.as_slice().iter().enumerate() {
        if let Some(list) = mentions.get_mut(place) {
            decl_types(&walk.tables, decl, list)?;
        }
    }
    Ok(mentions)
}

/// The first declaration of a module that needs itself, for the groups of its `declaration_mentions`.
///
/// CycleInTypeSynonym at a synonym that reaches itself through synonyms; CycleInDeclaration at a class that reaches itself
/// through superclasses, and at a value, top-level or local, that mentions one of its own group outside every lambda.
pub fn cycle_error(
    alloc: Global,
    groups: &[BindingGroup],
    module: &Module,
) -> Result<Option<PsError>, NoMemory> {
    let tables = Tables::of_module(alloc, module)?;
    let synonyms = reach_themselves(alloc, &synonym_mentions(alloc, &tables, module)?)?;
    let classes = reach_themselves(alloc, &superclass_mentions(alloc, &tables, module)?)?;
    let mut walk = Walk::start(alloc, tables);
    let links = walk_values(&mut walk, module)?;
    let cycles = Cycles {
        synonyms,
        classes,
        values: bare_cycles(alloc, groups, &links.bare)?,
    };
    cycles.first(&walk, module)?.into_error(alloc, module)
}

/// For each declaration whether it needs itself, as a synonym, as a class and as a value.
#[derive(Drop)]
struct Cycles {
    synonyms: Vec<bool>,
    classes: Vec<bool>,
    values: Vec<bool>,
}

impl Cycles {
    /// The first of the declarations that need themselves, local ones among them.
    fn first(&self, walk: &Walk, module: &Module) -> Result<First, NoMemory> {
        let mut first = First { found: None };
        for (place, decl) in module.decls.as_slice().iter().enumerate() {
            self.offer(&mut first, place, decl)?;
        }
        if let Some(local) = &walk.found {
            first.offer(Code::CycleInDeclaration, &local.name, local.span)?;
        }
        Ok(first)
    }

    /// Offers a declaration, if it needs itself.
    fn offer(&self, first: &mut First, place: usize, decl: &Decl) -> Result<(), NoMemory> {
        match decl {
            Decl::Synonym(synonym) if is_set(&self.synonyms, place) => first.offer(
                Code::CycleInTypeSynonym,
                &synonym.name.name,
                synonym.span,
            ),
            Decl::Class(class) if is_set(&self.classes, place) => first.offer(
                Code::CycleInDeclaration,
                &class.name.name,
                class.span,
            ),
            Decl::Clause(one) if is_set(&self.values, place) => first.offer(
                Code::CycleInDeclaration,
                &one.name.name.0,
                one.span,
            ),
            _ => Ok(()),
        }
    }
}

/// The first in the source of the declarations that need themselves.
#[derive(Drop)]
struct First {
    found: Option<(Code, Found)>,
}

impl First {
    fn offer(&mut self, code: Code, name: &Text, span: Span) -> Result<(), NoMemory>
        ensures first { IsNone self.old.found → OnOk result (self.new.found ≡ Some (spec.offered code name.now span)) }
        ensures earlier { IfSome self.old.found (λ one. spec.IsBefore span one.1.span → OnOk result (self.new.found ≡ Some (spec.offered code name.now span))) }
        ensures later { IfSome self.old.found (λ one. (spec.IsBefore span one.1.span → ⊥) → OnOk result (self.new ≡ self.old)) }
    {
        let is_first = match &self.found {
            Some((_, found)) => is_before(span, found.span),
            None => true,
        };
        if is_first {
            let name = name.clone()?;
            self.found = Some((code, Found { name, span }));
        }
        Ok(())
    }

    fn into_error(self, alloc: Global, module: &Module) -> Result<Option<PsError>, NoMemory>
        ensures code { IfOk result (λ told. option_map (λ error. error.code) told ≡ option_map (λ one. one.0) self.found) }
        ensures place { IfOk result (λ told. option_map (λ error. error.span) told ≡ option_map (λ one. one.1.span) self.found) }
        ensures parts { IfOk result (λ told. option_map (λ error. error.parts) told ≡ option_map (λ one. one.1.name ∷ []) self.found) }
    {
        let First { found } = self;
        let Some((code, Found { name, span })) = found else {
            return Ok(None);
        };
        let mut parts = Vec::new(alloc);
        parts.push(name)?;
        Ok(Some(PsError {
            code,
            module: Some(module.name.name.clone()?),
            span,
            parts: SharedItems::from_vec(alloc, parts)?,
        }))
    }
}

fn is_set(flags: &[bool], place: usize) -> bool
    ensures { result ≡ unwrap_or (slice_get flags.now place) false }
{
    flags.get(place).copied().unwrap_or(false)
}

/// What the values of a module mention of one another.
fn walk_values(walk: &mut Walk, module: &Module) -> Result<Links, NoMemory> {
    let decls = module.decls.as_slice();
    walk.open_module(decls.len())?;
    for decl in decls {
        walk_decl(walk, decl)?;
    }
    Ok(walk.module_links())
}

/// Notes what a value or an instance mentions.
fn walk_decl(walk: &mut Walk, decl: &Decl) -> Result<(), NoMemory> {
    match decl {
        Decl::Clause(one) => {
            walk.begin_value(&one.name.name.0);
            clause(walk, one)
        }
        Decl::Instance(instance) => {
            walk.begin(None);
            for member in instance.members.as_slice() {
                clause(walk, member)?;
            }
            Ok(())
        }
        _ => Ok(()),
    }
}

/// Adds what a declaration mentions of types, synonyms and classes.
fn decl_types(tables: &Tables, decl: &Decl, found: &mut Vec<u32>) -> Result<(), NoMemory> {
    match decl {
        Decl::XData(data) | Decl::Newtype(data) => data_types(tables, data, found),
        Decl::Synonym(synonym) => type_mentions(tables, &synonym.body, found),
        Decl::Class(class) => class_types(tables, class, found),
        _ => Ok(()),
    }
}

fn data_types(tables: &Tables, data: &DataDecl, found: &mut Vec<u32>) -> Result<(), NoMemory> {
    for ctor in data.ctors.as_slice() {
        all_mentions(tables, ctor.fields.as_slice(), found)?;
    }
    Ok(())
}

fn class_types(tables: &Tables, class: &ClassDecl, found: &mut Vec<u32>) -> Result<(), NoMemory> {
    constraint_mentions(tables, class.supers.as_slice(), found)?;
    for member in class.members.as_slice() {
        type_mentions(tables, &member.x_type, found)?;
    }
    Ok(())
}

/// For each declaration the synonyms that it mentions, if it is one.
fn synonym_mentions(
    alloc: Global,
    tables: &Tables,
    module: &Module,
) -> Result<Vec<Vec<u32>>, NoMemory> {
    let decls = module.decls.as_slice();
    let mut all = Vec::new(alloc);
    for decl in decls {
        let found = mentioned_by_synonym(alloc, tables, decl)?;
        all.push(synonyms_of(alloc, decls, &found)?)?;
    }
    Ok(all)
}

/// What a declaration mentions of types, synonyms and classes, if it is a synonym.
fn mentioned_by_synonym(alloc: Global, tables: &Tables, decl: &Decl) -> Result<Vec<u32>, NoMemory> {
    let mut found = Vec::new(alloc);
    if let Decl::Synonym(synonym) = decl {
        type_mentions(tables, &synonym.body, &mut found)?;
    }
    Ok(found)
}

/// The synonyms among declarations.
fn synonyms_of(alloc: Global, decls: &[Decl], numbers: &[u32]) -> Result<Vec<u32>, NoMemory> {
    let mut synonyms = Vec::new(alloc);
    for number in numbers {
        if let Some(Decl::Synonym(_)) = decls.get(*number as usize) {
            synonyms.push(*number)?;
        }
    }
    Ok(synonyms)
}

/// For each declaration its superclasses, if it is a class.
fn superclass_mentions(
    alloc: Global,
    tables: &Tables,
    module: &Module,
) -> Result<Vec<Vec<u32>>, NoMemory> {
    let mut all = Vec::new(alloc);
    for decl in module.decls.as_slice() {
        all.push(superclasses_of(alloc, tables, decl)?)?;
    }
    Ok(all)
}

/// The superclasses of a declaration, if it is a class.
fn superclasses_of(alloc: Global, tables: &Tables, decl: &Decl) -> Result<Vec<u32>, NoMemory> {
    let mut found = Vec::new(alloc);
    if let Decl::Class(class) = decl {
        for constraint in class.supers.as_slice() {
            if let Some(number) = tables.type_of(&constraint.class) {
                found.push(number)?;
            }
        }
    }
    Ok(found)
}
