//! What the imports of a module bring into scope.
//!
//! An import without `as` gives names without a module before them, one with `as Q` gives `Q.x` alone. The names of a list
//! come before those of open and hiding imports. A name in a list that the module does not export is an UnknownImport.

ghost use Rattle.std.specs.Prelude.{◌≡◌, IfOk};
ghost use Rattle.psc_imports.specs.Lists as spec;

use crate::world::{Given, Interface, World, true_name};
use psc_ast::{Ctors, ImportList, ImportTree, ModuleAt, Ref, UpperAt};
use psc_error::Code;
use psc_externs::Externs;
use psc_scope::{Area, Class, Key, Scope, Stop, wrong_name};
use psc_text::{ModuleName, NoMemory, Qualified, Span, Text};
use std::alloc::Global;
use std::collections::{BTreeMap, BTreeSet};

/// What each import gives, by the names under which `module` may export it.
#[derive(Drop)]
pub struct Imported {
    alloc: Global,
    pub lists: Vec<Vec<Given>>,
    /// The places of the lists of the imports of a module, and of those `as` it.
    places: BTreeMap<ModuleName, Vec<usize>>,
}

impl Imported {
    fn new(alloc: Global) -> Imported {
        Imported {
            alloc,
            lists: Vec::new(alloc),
            places: BTreeMap::new(alloc),
        }
    }

    /// The places of what an export of a module gives, if it is imported.
    pub fn lists_of(&self, module: &ModuleName) -> Option<&[usize]> {
        match self.places.get(module) {
            Some(places) => Some(places.as_slice()),
            None => None,
        }
    }

    fn add(&mut self, import: &ImportTree, rows: Vec<Given>) -> Result<(), NoMemory> {
        let place = self.lists.len();
        self.add_place(&import.module.name, place)?;
        if let Some(alias) = &import.alias {
            if !alias.name.same(&import.module.name) {
                self.add_place(&alias.name, place)?;
            }
        }
        self.lists.push(rows)?;
        Ok(())
    }

    fn add_place(&mut self, module: &ModuleName, place: usize) -> Result<(), NoMemory> {
        if let Some(places) = self.places.get_mut(module) {
            places.push(place)?;
            return Ok(());
        }
        let mut places = Vec::new(self.alloc);
        places.push(place)?;
        let _before = self.places.insert(module.clone()?, places)?;
        Ok(())
    }
}

/// Brings the names of all imports into scope, and those of `Prim` behind them.
///
/// Wrong with UnknownImport at the first name of a list, in the order of the source, that is not exported.
pub fn import_all(
    alloc: Global,
    imports: &[ImportTree],
    env: &[Externs],
    world: &mut World,
    scope: &mut Scope,
) -> Result<Imported, Stop> {
    let mut imported = Imported::new(alloc);
    for import in imports {
        world.open(env, &import.module.name)?;
        import_one(alloc, import, world, scope, &mut imported)?;
    }
    match bring_prim(world, scope) {
        Ok(()) => Ok(imported),
        Err(error) => Err(Stop::from(error)),
    }
}

/// Brings the names of `Prim` into scope.
fn bring_prim(world: &World, scope: &mut Scope) -> Result<(), NoMemory> {
    match world.interface(world.prim()) {
        Some(interface) => bring(scope, Class::Prim, &None, &interface.rows),
        None => Ok(()),
    }
}

/// Brings the names of an import into scope, and notes them.
fn import_one(
    alloc: Global,
    import: &ImportTree,
    world: &World,
    scope: &mut Scope,
    imported: &mut Imported,
) -> Result<(), Stop> {
    let rows = imported_rows(alloc, import, world)?;
    bring_import(scope, import, &rows)?;
    imported.add(import, rows)?;
    Ok(())
}

fn imported_rows(alloc: Global, import: &ImportTree, world: &World) -> Result<Vec<Given>, Stop> {
    match world.interface(&import.module.name) {
        Some(interface) => rows_of(alloc, world, interface, &import.list),
        None => Ok(Vec::new(alloc)),
    }
}

fn bring_import(scope: &mut Scope, import: &ImportTree, rows: &[Given]) -> Result<(), NoMemory> {
    let qualifier = qualifier_of(&import.alias)?;
    bring(scope, class_of(&import.list), &qualifier, rows)
}

/// The class of the candidates that an import gives.
fn class_of(list: &ImportList) -> Class
    ensures { result ≡ spec.class_of list.now }
{
    match list {
        ImportList::Only(_) => Class::Explicit,
        ImportList::All | ImportList::Hiding(_) => Class::Open,
    }
}

/// What stands before the names that an import gives.
fn qualifier_of(alias: &Option<ModuleAt>) -> Result<Option<ModuleName>, NoMemory>
    ensures { IfOk result (λ before. before ≡ spec.alias alias.now) }
{
    match alias {
        Some(alias) => Ok(Some(alias.name.clone()?)),
        None => Ok(None),
    }
}

fn bring(
    scope: &mut Scope,
    class: Class,
    qualifier: &Option<ModuleName>,
    rows: &[Given],
) -> Result<(), NoMemory> {
    for row in rows {
        let key = Key::new(row.area, &row.name, qualifier)?;
        scope.add(class, key, row.module.clone()?)?;
    }
    Ok(())
}

/// The names that an import takes of what its module exports.
fn rows_of(
    alloc: Global,
    world: &World,
    interface: &Interface,
    list: &ImportList,
) -> Result<Vec<Given>, Stop> {
    match list {
        ImportList::All => copies(alloc, &interface.rows),
        ImportList::Only(refs) => listed(alloc, world, interface, refs.as_slice()),
        ImportList::Hiding(refs) => {
            let hidden = listed(alloc, world, interface, refs.as_slice())?;
            others(alloc, &interface.rows, &hidden)
        }
    }
}

fn copies(alloc: Global, rows: &[Given]) -> Result<Vec<Given>, Stop> {
    let mut all = Vec::new(alloc);
    for row in rows {
        all.push(row.copy()?)?;
    }
    Ok(all)
}

/// The rows whose names are not among those of a list.
fn others(alloc: Global, rows: &[Given], hidden: &[Given]) -> Result<Vec<Given>, Stop> {
    let names = names_of(alloc, hidden)?;
    let mut left = Vec::new(alloc);
    for row in rows {
        if !is_named(&names, row)? {
            left.push(row.copy()?)?;
        }
    }
    Ok(left)
}

fn names_of(alloc: Global, rows: &[Given]) -> Result<BTreeSet<Key>, NoMemory> {
    let mut names = BTreeSet::new(alloc);
    for row in rows {
        let _new = names.insert(Key::plain(row.area, &row.name)?)?;
    }
    Ok(names)
}

/// Whether the name of a row is among others.
fn is_named(names: &BTreeSet<Key>, row: &Given) -> Result<bool, NoMemory> {
    let name = Key::plain(row.area, &row.name)?;
    Ok(names.contains(&name))
}

/// The rows that references name.
fn listed(
    alloc: Global,
    world: &World,
    interface: &Interface,
    refs: &[Ref],
) -> Result<Vec<Given>, Stop> {
    let mut taker = Taker {
        alloc,
        taken: Vec::new(alloc),
    };
    match taker.take_all(world, interface, refs) {
        Ok(()) => Ok(taker.taken),
        Err(stop) => Err(stop),
    }
}

#[derive(Drop)]
struct Taker {
    alloc: Global,
    taken: Vec<Given>,
}

impl Taker {
    fn take_all(&mut self, world: &World, interface: &Interface, refs: &[Ref]) -> Result<(), Stop> {
        for reference in refs {
            self.take(world, interface, reference)?;
        }
        Ok(())
    }

    fn take(&mut self, world: &World, interface: &Interface, reference: &Ref) -> Result<(), Stop> {
        match reference {
            Ref::Value { name } => self.take_name(interface, Area::Value, &name.name.0, name.span),
            Ref::Operator { op, .. } => self.take_name(interface, Area::ValueOp, &op.op.0, op.span),
            Ref::TypeOperator { op, .. } => self.take_name(
                interface,
                Area::TypeOp,
                &op.op.0,
                op.span,
            ),
            Ref::Class { name, .. } => {
                let _types = self.take_types(world, interface, name, true)?;
                Ok(())
            }
            Ref::XType { name, ctors, .. } => {
                let types = self.take_types(world, interface, name, false)?;
                self.take_constructors(world, interface, &types, ctors)
            }
        }
    }

    fn take_name(
        &mut self,
        interface: &Interface,
        area: Area,
        name: &Text,
        span: Span,
    ) -> Result<(), Stop> {
        let places = interface.named(area, name)?;
        if places.is_empty() {
            return Err(wrong_name(self.alloc, Code::UnknownImport, name, span));
        }
        self.take_rows(interface, places)?;
        Ok(())
    }

    fn take_rows(&mut self, interface: &Interface, places: &[usize]) -> Result<(), NoMemory> {
        for place in places {
            if let Some(row) = interface.rows.get(*place) {
                self.taken.push(row.copy()?)?;
            }
        }
        Ok(())
    }

    /// Takes the types of a name, or the classes, and tells their true names.
    fn take_types(
        &mut self,
        world: &World,
        interface: &Interface,
        name: &UpperAt,
        classes: bool,
    ) -> Result<Vec<Qualified>, Stop> {
        let mut types = Vec::new(self.alloc);
        for place in interface.named(Area::XType, &name.name)? {
            if let Some(row) = interface.rows.get(*place) {
                self.take_type(world, row, classes, &mut types)?;
            }
        }
        if types.is_empty() {
            return Err(wrong_name(self.alloc, Code::UnknownImport, &name.name, name.span));
        }
        Ok(types)
    }

    /// Takes a row, if it is a class where one is wanted, or a type, and notes its true name.
    fn take_type(
        &mut self,
        world: &World,
        row: &Given,
        classes: bool,
        types: &mut Vec<Qualified>,
    ) -> Result<(), NoMemory> {
        if world.is_class(row)? == classes {
            types.push(true_name(&row.name, &row.module)?)?;
            self.taken.push(row.copy()?)?;
        }
        Ok(())
    }

    fn take_constructors(
        &mut self,
        world: &World,
        interface: &Interface,
        types: &[Qualified],
        ctors: &Ctors,
    ) -> Result<(), Stop> {
        match ctors {
            Ctors::Absent => Ok(()),
            Ctors::All => {
                for x_type in types {
                    self.take_rows(interface, interface.constructors_of(x_type))?;
                }
                Ok(())
            }
            Ctors::Listed(names) => {
                for name in names.as_slice() {
                    self.take_constructor(world, interface, types, name)?;
                }
                Ok(())
            }
        }
    }

    fn take_constructor(
        &mut self,
        world: &World,
        interface: &Interface,
        types: &[Qualified],
        name: &UpperAt,
    ) -> Result<(), Stop> {
        let before = self.taken.len();
        for place in interface.named(Area::Constructor, &name.name)? {
            if let Some(row) = interface.rows.get(*place) {
                if world.is_constructor_of(row, types)? {
                    self.taken.push(row.copy()?)?;
                }
            }
        }
        if self.taken.len() == before {
            return Err(wrong_name(self.alloc, Code::UnknownImport, &name.name, name.span));
        }
        Ok(())
    }
}
