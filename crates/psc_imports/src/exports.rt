//! What a module exports.
//!
//! Without an export list these are all own declarations. A plain member of the list names own declarations alone. `module X`
//! exports what the imports of X and those `as X` give, and all own declarations where X is the module itself. A name that is
//! not there is an UnknownExport, and a second true name for an exported name is an ExportConflict.

use crate::imports::Imported;
use crate::own::Own;
use crate::world::Given;
use psc_ast::{Ctors, Export, Module, ModuleAt, Ref, UpperAt};
use psc_error::Code;
use psc_externs::ExportRow;
use psc_scope::{Area, Key, Stop, conflict, entity, wrong_name};
use psc_text::{ModuleName, NoMemory, Span, Text};
use std::alloc::Global;
use std::collections::BTreeMap;

/// The exported names, ascending by space and name, and where each is brought.
#[derive(Drop)]
pub struct Exported {
    pub rows: Vec<ExportRow>,
    pub brought: Vec<Span>,
}

/// The declaring module of an exported name, and the first export that brings it.
#[derive(Drop)]
struct Origin {
    module: ModuleName,
    span: Span,
}

/// The exports of a module.
///
/// Wrong at the first export, in the order of the source, that names what is not there or brings a second true name.
pub fn export_all(
    alloc: Global,
    module: &Module,
    own: &Own,
    imported: &Imported,
) -> Result<Exported, Stop> {
    let mut exporter = Exporter {
        alloc,
        module: module.name.name.clone()?,
        names: BTreeMap::new(alloc),
    };
    match exporter.all(module, own, imported) {
        Ok(()) => Ok(into_rows(alloc, exporter.names)?),
        Err(stop) => Err(stop),
    }
}

#[derive(Drop)]
struct Exporter {
    alloc: Global,
    module: ModuleName,
    names: BTreeMap<Key, Origin>,
}

impl Exporter {
    fn all(&mut self, module: &Module, own: &Own, imported: &Imported) -> Result<(), Stop> {
        match &module.exports {
            Some(exports) => {
                for export in exports.as_slice() {
                    self.export(own, imported, export)?;
                }
                Ok(())
            }
            None => self.all_own(own, Span::START),
        }
    }

    fn export(&mut self, own: &Own, imported: &Imported, export: &Export) -> Result<(), Stop> {
        match export {
            Export::Ref(reference) => self.reference(own, reference),
            Export::Module { name, span } => self.module(own, imported, name, *span),
        }
    }

    fn unknown(&self, name: &Text, span: Span) -> Stop {
        wrong_name(self.alloc, Code::UnknownExport, name, span)
    }

    fn reference(&mut self, own: &Own, reference: &Ref) -> Result<(), Stop> {
        let span = reference.span();
        match reference {
            Ref::Value { name } => self.declared(own, Area::Value, &name.name.0, name.span, span),
            Ref::Operator { op, .. } => self.declared(own, Area::ValueOp, &op.op.0, op.span, span),
            Ref::TypeOperator { op, .. } => self.declared(
                own,
                Area::TypeOp,
                &op.op.0,
                op.span,
                span,
            ),
            Ref::Class { name, .. } => self.x_type(own, name, true, span),
            Ref::XType { name, ctors, .. } => {
                self.x_type(own, name, false, span)?;
                self.constructors(own, name, ctors, span)
            }
        }
    }

    fn declared(
        &mut self,
        own: &Own,
        area: Area,
        name: &Text,
        at: Span,
        span: Span,
    ) -> Result<(), Stop> {
        if !own.has(area, name)? {
            return Err(self.unknown(name, at));
        }
        self.own(area, name, span)
    }

    /// A type or synonym, or a class.
    fn x_type(&mut self, own: &Own, name: &UpperAt, class: bool, span: Span) -> Result<(), Stop> {
        if own.is_class(&name.name) != class {
            return Err(self.unknown(&name.name, name.span));
        }
        self.declared(own, Area::XType, &name.name, name.span, span)
    }

    fn constructors(
        &mut self,
        own: &Own,
        x_type: &UpperAt,
        ctors: &Ctors,
        span: Span,
    ) -> Result<(), Stop> {
        match ctors {
            Ctors::Absent => Ok(()),
            Ctors::All => {
                for constructor in own.constructors_of(&x_type.name) {
                    self.own(Area::Constructor, constructor, span)?;
                }
                Ok(())
            }
            Ctors::Listed(names) => {
                for name in names.as_slice() {
                    if !own.is_constructor_of(&name.name, &x_type.name) {
                        return Err(self.unknown(&name.name, name.span));
                    }
                    self.own(Area::Constructor, &name.name, span)?;
                }
                Ok(())
            }
        }
    }

    fn module(
        &mut self,
        own: &Own,
        imported: &Imported,
        name: &ModuleAt,
        span: Span,
    ) -> Result<(), Stop> {
        let is_own = self.module.same(&name.name);
        match imported.lists_of(&name.name) {
            Some(places) => {
                if is_own {
                    self.all_own(own, span)?;
                }
                self.all_given(imported, places, span)
            }
            None => {
                if is_own {
                    self.all_own(own, span)
                } else {
                    Err(self.unknown(name.name.text(), name.span))
                }
            }
        }
    }

    fn all_given(&mut self, imported: &Imported, places: &[usize], span: Span) -> Result<(), Stop> {
        for place in places {
            if let Some(rows) = imported.lists.get(*place) {
                self.given(rows, span)?;
            }
        }
        Ok(())
    }

    fn given(&mut self, rows: &[Given], span: Span) -> Result<(), Stop> {
        for row in rows {
            self.add(row.area, &row.name, &row.module, span)?;
        }
        Ok(())
    }

    fn all_own(&mut self, own: &Own, span: Span) -> Result<(), Stop> {
        for name in &own.names {
            self.own(name.area, &name.name, span)?;
        }
        Ok(())
    }

    fn own(&mut self, area: Area, name: &Text, span: Span) -> Result<(), Stop> {
        let module = self.module.clone()?;
        self.add(area, name, &module, span)
    }

    fn add(
        &mut self,
        area: Area,
        name: &Text,
        module: &ModuleName,
        span: Span,
    ) -> Result<(), Stop> {
        let key = Key::plain(area, name)?;
        match self.names.get(&key) {
            Some(before) => {
                if before.module.same(module) {
                    Ok(())
                } else {
                    Err(export_conflict(self.alloc, name, &before.module, module, span))
                }
            }
            None => Ok(self.insert(key, module, span)?),
        }
    }

    fn insert(&mut self, key: Key, module: &ModuleName, span: Span) -> Result<(), NoMemory> {
        let origin = Origin {
            module: module.clone()?,
            span,
        };
        let _before = self.names.insert(key, origin)?;
        Ok(())
    }
}

/// An exported name that two modules declare.
fn export_conflict(
    alloc: Global,
    name: &Text,
    one: &ModuleName,
    other: &ModuleName,
    span: Span,
) -> Stop {
    match ascending(alloc, one, other) {
        Ok(modules) => conflict(alloc, Code::ExportConflict, name, &modules, span),
        Err(_) => Stop::NoMemory,
    }
}

/// The exported names as rows, with the place that brings each.
fn into_rows(alloc: Global, names: BTreeMap<Key, Origin>) -> Result<Exported, NoMemory> {
    let mut exported = Exported {
        rows: Vec::new(alloc),
        brought: Vec::new(alloc),
    };
    for (key, origin) in names {
        exported.add(&key, origin)?;
    }
    Ok(exported)
}

impl Exported {
    fn add(&mut self, key: &Key, origin: Origin) -> Result<(), NoMemory> {
        let Origin { module, span } = origin;
        if let Some(entity) = entity(key.area, &key.name)? {
            self.rows.push(ExportRow { entity, module })?;
            self.brought.push(span)?;
        }
        Ok(())
    }
}

/// Two modules, the lesser name first.
fn ascending(
    alloc: Global,
    one: &ModuleName,
    other: &ModuleName,
) -> Result<Vec<ModuleName>, NoMemory> {
    let mut modules = Vec::new(alloc);
    if one < other {
        modules.push(one.clone()?)?;
        modules.push(other.clone()?)?;
    } else {
        modules.push(other.clone()?)?;
        modules.push(one.clone()?)?;
    }
    Ok(modules)
}
