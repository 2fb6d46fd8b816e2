//! What the modules of the environment export and declare, as far as it is asked for.
//!
//! An exported name counts only where the module that declares it has its row: the environment may be any list.

use psc_externs::{ClassRow, ConstructorRow, ExportRow, Externs, FixityRow, TypeRow, ValueRow};
use psc_scope::{Area, Key};
use psc_text::{ModuleName, NoMemory, Qualified, Text, read_module_name};
use std::alloc::Global;
use std::collections::{BTreeMap, BTreeSet};

/// A name with the module that declares it.
#[derive(Drop)]
pub struct Given {
    pub area: Area,
    pub name: Text,
    pub module: ModuleName,
}

impl Given {
    pub fn copy(&self) -> Result<Given, NoMemory> {
        Ok(Given {
            area: self.area,
            name: self.name.clone()?,
            module: self.module.clone()?,
        })
    }
}

/// What a module exports.
#[derive(Drop)]
pub struct Interface {
    pub rows: Vec<Given>,
    /// The rows of each name, by their places.
    places: BTreeMap<Key, Vec<usize>>,
    /// The exported constructors of each type, by their places.
    constructors: BTreeMap<Qualified, Vec<usize>>,
}

impl Interface {
    fn new(alloc: Global) -> Interface {
        Interface {
            rows: Vec::new(alloc),
            places: BTreeMap::new(alloc),
            constructors: BTreeMap::new(alloc),
        }
    }

    fn add(&mut self, alloc: Global, row: Given) -> Result<(), NoMemory> {
        let key = Key::plain(row.area, &row.name)?;
        let place = self.rows.len();
        add_place(alloc, &mut self.places, key, place)?;
        self.rows.push(row)?;
        Ok(())
    }

    /// The rows of a name.
    pub fn named(&self, area: Area, name: &Text) -> Result<&[usize], NoMemory> {
        let key = Key::plain(area, name)?;
        match self.places.get(&key) {
            Some(places) => Ok(places.as_slice()),
            None => Ok(&[]),
        }
    }

    /// The rows of a type's exported constructors.
    pub fn constructors_of(&self, parent: &Qualified) -> &[usize] {
        match self.constructors.get(parent) {
            Some(places) => places.as_slice(),
            None => &[],
        }
    }
}

fn add_place<K: Ord + Drop>(
    alloc: Global,
    map: &mut BTreeMap<K, Vec<usize>>,
    key: K,
    place: usize,
) -> Result<(), NoMemory> {
    if let Some(places) = map.get_mut(&key) {
        places.push(place)?;
        return Ok(());
    }
    let mut places = Vec::new(alloc);
    places.push(place)?;
    let _before = map.insert(key, places)?;
    Ok(())
}

/// The environment by its names.
#[derive(Drop)]
pub struct World {
    alloc: Global,
    prim: ModuleName,
    places: BTreeMap<ModuleName, usize>,
    interfaces: BTreeMap<ModuleName, Interface>,
    /// The modules whose declarations are known.
    learned: BTreeSet<ModuleName>,
    /// The known declarations: names with the modules that declare them.
    declared: BTreeSet<Key>,
    /// The type of each known constructor.
    parents: BTreeMap<Qualified, Text>,
    classes: BTreeSet<Qualified>,
}

/// A name with the module that declares it.
pub(crate) fn true_name(name: &Text, module: &ModuleName) -> Result<Qualified, NoMemory> {
    Ok(Qualified {
        module: Some(module.clone()?),
        name: name.clone()?,
    })
}

/// A name in its space, with the module that declares it.
fn true_key(area: Area, name: &Text, module: &ModuleName) -> Result<Key, NoMemory> {
    Ok(Key {
        area,
        name: name.clone()?,
        qualifier: Some(module.clone()?),
    })
}

/// Whether the true name of a module's name is among others.
fn is_among(name: &Text, module: &ModuleName, others: &[Qualified]) -> Result<bool, NoMemory> {
    let name = true_name(name, module)?;
    for other in others {
        if other.same(&name) {
            return Ok(true);
        }
    }
    Ok(false)
}

/// The name that a row exports.
fn given_by(row: &ExportRow) -> Result<Given, NoMemory> {
    Ok(Given {
        area: Area::of(row.entity.space()),
        name: row.entity.text().clone()?,
        module: row.module.clone()?,
    })
}

/// The types of `Prim`, its kinds among them.
const PRIM_TYPES: [&str; 11] = [
    "Array",
    "Boolean",
    "Char",
    "Constraint",
    "Function",
    "Int",
    "Record",
    "Row",
    "String",
    "Symbol",
    "Type",
];

const PRIM_CLASS: &str = "Partial";

/// The name of the module that every module sees.
pub fn prim_name(alloc: Global) -> Result<ModuleName, NoMemory> {
    match read_module_name(alloc, "Prim")? {
        Some(name) => Ok(name),
        None => Err(NoMemory),
    }
}

impl World {
    pub fn new(alloc: Global, env: &[Externs]) -> Result<World, NoMemory> {
        let mut world = World {
            alloc,
            prim: prim_name(alloc)?,
            places: BTreeMap::new(alloc),
            interfaces: BTreeMap::new(alloc),
            learned: BTreeSet::new(alloc),
            declared: BTreeSet::new(alloc),
            parents: BTreeMap::new(alloc),
            classes: BTreeSet::new(alloc),
        };
        match world.fill(env) {
            Ok(()) => Ok(world),
            Err(error) => Err(error),
        }
    }

    /// Notes where each module stands, and what `Prim` exports.
    fn fill(&mut self, env: &[Externs]) -> Result<(), NoMemory> {
        for (place, externs) in env.iter().enumerate() {
            let _before = self.places.insert(externs.module.clone()?, place)?;
        }
        self.add_prim()
    }

    fn add_prim(&mut self) -> Result<(), NoMemory> {
        let prim = self.prim.clone()?;
        let interface = self.prim_interface(&prim)?;
        let _before = self.interfaces.insert(prim.clone()?, interface)?;
        let _new = self.learned.insert(prim)?;
        Ok(())
    }

    fn prim_interface(&mut self, prim: &ModuleName) -> Result<Interface, NoMemory> {
        let mut interface = Interface::new(self.alloc);
        for name in PRIM_TYPES {
            self.add_prim_type(prim, name, &mut interface)?;
        }
        match self.add_prim_class(prim, &mut interface) {
            Ok(()) => Ok(interface),
            Err(error) => Err(error),
        }
    }

    fn add_prim_type(
        &mut self,
        prim: &ModuleName,
        name: &str,
        interface: &mut Interface,
    ) -> Result<(), NoMemory> {
        let row = self.prim_row(name)?;
        self.declare(Area::XType, &row.name, prim)?;
        interface.add(self.alloc, row)
    }

    fn add_prim_class(
        &mut self,
        prim: &ModuleName,
        interface: &mut Interface,
    ) -> Result<(), NoMemory> {
        let row = self.prim_row(PRIM_CLASS)?;
        self.declare(Area::XType, &row.name, prim)?;
        self.declare_class(&row.name, prim)?;
        interface.add(self.alloc, row)
    }

    fn prim_row(&self, name: &str) -> Result<Given, NoMemory> {
        Ok(Given {
            area: Area::XType,
            name: Text::new(self.alloc, name)?,
            module: self.prim.clone()?,
        })
    }

    /// Makes what a module exports known. A module that is not there exports nothing.
    pub fn open(&mut self, env: &[Externs], module: &ModuleName) -> Result<(), NoMemory> {
        if self.interfaces.contains_key(module) {
            return Ok(());
        }
        let interface = self.interface_of(env, module)?;
        let _before = self.interfaces.insert(module.clone()?, interface)?;
        Ok(())
    }

    fn interface_of(
        &mut self,
        env: &[Externs],
        module: &ModuleName,
    ) -> Result<Interface, NoMemory> {
        match self.externs_of(env, module) {
            Some(externs) => self.exported(env, externs.exports.as_slice()),
            None => Ok(Interface::new(self.alloc)),
        }
    }

    /// The exported names that their modules declare.
    fn exported(&mut self, env: &[Externs], rows: &[ExportRow]) -> Result<Interface, NoMemory> {
        let mut interface = Interface::new(self.alloc);
        for row in rows {
            self.learn(env, &row.module)?;
            self.add_exported(&mut interface, row)?;
        }
        Ok(interface)
    }

    /// Adds an exported name, if its module declares it.
    fn add_exported(&self, interface: &mut Interface, row: &ExportRow) -> Result<(), NoMemory> {
        let given = given_by(row)?;
        if !self.has_row(&given)? {
            return Ok(());
        }
        self.add_constructor(interface, &given)?;
        interface.add(self.alloc, given)
    }

    /// Whether the module that should declare a name does.
    fn has_row(&self, row: &Given) -> Result<bool, NoMemory> {
        let key = true_key(row.area, &row.name, &row.module)?;
        Ok(self.declared.contains(&key))
    }

    /// Notes the place of the next row under its type, if it is a constructor.
    fn add_constructor(&self, interface: &mut Interface, row: &Given) -> Result<(), NoMemory> {
        if row.area != Area::Constructor {
            return Ok(());
        }
        let name = true_name(&row.name, &row.module)?;
        if let Some(parent) = self.parents.get(&name) {
            let key = true_name(parent, &row.module)?;
            let place = interface.rows.len();
            add_place(self.alloc, &mut interface.constructors, key, place)?;
        }
        Ok(())
    }

    pub fn interface(&self, module: &ModuleName) -> Option<&Interface> {
        self.interfaces.get(module)
    }

    fn externs_of<'a>(&self, env: &'a [Externs], module: &ModuleName) -> Option<&'a Externs> {
        match self.places.get(module) {
            Some(place) => env.get(*place),
            None => None,
        }
    }

    /// Makes a module's declarations known.
    fn learn(&mut self, env: &[Externs], module: &ModuleName) -> Result<(), NoMemory> {
        if self.learned.contains(module) {
            return Ok(());
        }
        if let Some(externs) = self.externs_of(env, module) {
            self.learn_values(externs.values.as_slice(), module)?;
            self.learn_constructors(externs.constructors.as_slice(), module)?;
            self.learn_types(externs.types.as_slice(), module)?;
            self.learn_classes(externs.classes.as_slice(), module)?;
            self.learn_operators(externs.fixities.as_slice(), module)?;
        }
        let _new = self.learned.insert(module.clone()?)?;
        Ok(())
    }

    fn declare(&mut self, area: Area, name: &Text, module: &ModuleName) -> Result<(), NoMemory> {
        let key = true_key(area, name, module)?;
        let _new = self.declared.insert(key)?;
        Ok(())
    }

    fn declare_class(&mut self, name: &Text, module: &ModuleName) -> Result<(), NoMemory> {
        let name = true_name(name, module)?;
        let _new = self.classes.insert(name)?;
        Ok(())
    }

    fn learn_values(&mut self, rows: &[ValueRow], module: &ModuleName) -> Result<(), NoMemory> {
        for row in rows {
            self.declare(Area::Value, row.name.text(), module)?;
        }
        Ok(())
    }

    fn learn_constructors(
        &mut self,
        rows: &[ConstructorRow],
        module: &ModuleName,
    ) -> Result<(), NoMemory> {
        for row in rows {
            self.declare(Area::Constructor, row.name.text(), module)?;
            self.add_parent(row, module)?;
        }
        Ok(())
    }

    fn add_parent(&mut self, row: &ConstructorRow, module: &ModuleName) -> Result<(), NoMemory> {
        let name = true_name(row.name.text(), module)?;
        let _before = self.parents.insert(name, row.parent.text().clone()?)?;
        Ok(())
    }

    fn learn_types(&mut self, rows: &[TypeRow], module: &ModuleName) -> Result<(), NoMemory> {
        for row in rows {
            self.declare(Area::XType, row.name.text(), module)?;
        }
        Ok(())
    }

    fn learn_classes(&mut self, rows: &[ClassRow], module: &ModuleName) -> Result<(), NoMemory> {
        for row in rows {
            self.declare(Area::XType, row.name.text(), module)?;
            self.declare_class(row.name.text(), module)?;
        }
        Ok(())
    }

    fn learn_operators(&mut self, rows: &[FixityRow], module: &ModuleName) -> Result<(), NoMemory> {
        for row in rows {
            self.declare(Area::of_operator(row.space), &row.op.0, module)?;
        }
        Ok(())
    }

    pub fn is_class(&self, row: &Given) -> Result<bool, NoMemory> {
        let name = true_name(&row.name, &row.module)?;
        Ok(self.classes.contains(&name))
    }

    /// Whether a row is a constructor of one of the types.
    pub fn is_constructor_of(&self, row: &Given, types: &[Qualified]) -> Result<bool, NoMemory> {
        let name = true_name(&row.name, &row.module)?;
        match self.parents.get(&name) {
            Some(parent) => is_among(parent, &row.module, types),
            None => Ok(false),
        }
    }

    /// The fixities of a module, if it is there.
    pub fn fixities<'a>(&self, env: &'a [Externs], module: &ModuleName) -> &'a [FixityRow] {
        match self.externs_of(env, module) {
            Some(externs) => externs.fixities.as_slice(),
            None => &[],
        }
    }

    pub fn prim(&self) -> &ModuleName {
        &self.prim
    }
}
