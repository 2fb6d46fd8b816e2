//! Interfaces from short lines, for rows that import.
//!
//! A line has a module's name and a declaration: `value f TYPE`, `type T`, `synonym S TYPE`, `ctor A T TYPE`,
//! `class C f g < D E` (members, superclasses), `valueop + infixl 6 f` or `typeop ~> infixr 4 T`. It declares the name and
//! exports it; with `-` before the word it is not exported; with `of N` behind it, module N declares it and this one exports it.
//! A TYPE is words: `T` applied to what follows, `^C` a constraint of C before it, `~` a forall, `{` a row's field.

use crate::lists::{bare, none, with};
use crate::types::{constraint_of, true_name, type_of};
use psc_externs::{
    Assoc, ClassRow, ConstructorRow, Entity, ExportRow, ExternConstraint, ExternKind, ExternType,
    Externs, FixityRow, Name, OpSpace, SynonymRow, TrueName, TypeRow, ValueRow,
};
use psc_items::SharedItems;
use psc_text::{ModuleName, NoMemory, OpName, Text, read_module_name};
use psc_type::Kind;
use std::alloc::Global;

/// The interface of a module so far.
#[derive(Drop)]
struct Interface {
    alloc: Global,
    externs: Externs,
}

/// The interfaces of a row.
#[derive(Drop)]
pub(crate) struct Interfaces {
    alloc: Global,
    list: Vec<Interface>,
}

/// What a word says at the front of a line, with whether it exports.
fn exported(word: &str) -> (&str, bool) {
    match word.strip_prefix("-") {
        Some(kind) => (kind, false),
        None => (word, true),
    }
}

impl Interfaces {
    pub(crate) fn new(alloc: Global) -> Interfaces {
        Interfaces {
            alloc,
            list: Vec::new(alloc),
        }
    }

    /// Takes a line. A line that is not of the form is left out.
    pub(crate) fn take(&mut self, line: &str) -> Result<(), NoMemory> {
        let mut words = Vec::new(self.alloc);
        for word in line.split_whitespace() {
            words.push(word)?;
        }
        self.take_words(words.as_slice())
    }

    fn take_words(&mut self, words: &[&str]) -> Result<(), NoMemory> {
        let [module, word, name, rest @ ..] = words else {
            return Ok(());
        };
        match read_module_name(self.alloc, module)? {
            Some(module) => self.take_row(&module, word, name, rest),
            None => Ok(()),
        }
    }

    fn take_row(
        &mut self,
        module: &ModuleName,
        word: &str,
        name: &str,
        rest: &[&str],
    ) -> Result<(), NoMemory> {
        let place = self.place_of(module)?;
        match self.list.get_mut(place) {
            Some(interface) => interface.take(word, name, rest),
            None => Ok(()),
        }
    }

    fn place_of(&mut self, module: &ModuleName) -> Result<usize, NoMemory> {
        for (place, interface) in self.list.iter().enumerate() {
            if interface.externs.module.same(module) {
                return Ok(place);
            }
        }
        let place = self.list.len();
        self.list.push(Interface {
            alloc: self.alloc,
            externs: bare(self.alloc, module)?,
        })?;
        Ok(place)
    }

    /// The interfaces of the other modules, and that of the module itself.
    pub(crate) fn into_env(self, own: &str) -> Result<(Vec<Externs>, Vec<Externs>), NoMemory> {
        let Interfaces { alloc, list } = self;
        let mut env = Vec::new(alloc);
        let mut owns = Vec::new(alloc);
        for interface in list {
            let Interface { externs, .. } = interface;
            if externs.module.as_str() == own {
                owns.push(externs)?;
            } else {
                env.push(externs)?;
            }
        }
        Ok((env, owns))
    }
}

/// The module behind the word `of`.
fn declarer(alloc: Global, words: &[&str]) -> Result<Option<ModuleName>, NoMemory> {
    match words {
        ["of", module] => read_module_name(alloc, module),
        _ => Ok(None),
    }
}

fn name_of(alloc: Global, word: &str) -> Result<Option<Name>, NoMemory> {
    Ok(Name::new(Text::new(alloc, word)?))
}

fn names_of(alloc: Global, words: &[&str]) -> Result<Vec<Name>, NoMemory> {
    let mut names = Vec::new(alloc);
    for word in words {
        if let Some(name) = name_of(alloc, word)? {
            names.push(name)?;
        }
    }
    Ok(names)
}

fn assoc_of(word: &str) -> Assoc {
    match word {
        "infixl" => Assoc::Infixl,
        "infixr" => Assoc::Infixr,
        _ => Assoc::Infix,
    }
}

fn power_of(word: &str) -> u8 {
    match word.parse::<u8>() {
        Ok(power) => power,
        Err(_) => 0,
    }
}

impl Interface {
    fn take(&mut self, word: &str, name: &str, rest: &[&str]) -> Result<(), NoMemory> {
        let (kind, shown) = exported(word);
        match declarer(self.alloc, rest)? {
            Some(other) => self.export(kind, name, other),
            None => {
                self.declare(kind, name, rest)?;
                if shown {
                    self.export_own(kind, name)
                } else {
                    Ok(())
                }
            }
        }
    }

    fn declare(&mut self, kind: &str, name: &str, words: &[&str]) -> Result<(), NoMemory> {
        match kind {
            "valueop" => self.fixity(OpSpace::ValueOp, name, words),
            "typeop" => self.fixity(OpSpace::TypeOp, name, words),
            _ => match name_of(self.alloc, name)? {
                Some(name) => self.declare_named(kind, name, words),
                None => Ok(()),
            },
        }
    }

    fn declare_named(&mut self, kind: &str, name: Name, words: &[&str]) -> Result<(), NoMemory> {
        match kind {
            "value" => self.value(name, words),
            "type" => self.x_type(name),
            "synonym" => self.synonym(name, words),
            "class" => self.class(name, words),
            _ => self.constructor(name, words),
        }
    }

    fn written(&self, words: &[&str]) -> Result<Option<ExternType>, NoMemory> {
        Ok(ExternType::new(type_of(self.alloc, &self.externs.module, words)?))
    }

    fn value(&mut self, name: Name, words: &[&str]) -> Result<(), NoMemory> {
        if let Some(x_type) = self.written(words)? {
            let row = ValueRow { name, x_type };
            self.externs.values = with(self.alloc, &self.externs.values, row)?;
        }
        Ok(())
    }

    fn x_type(&mut self, name: Name) -> Result<(), NoMemory> {
        if let Some(kind) = ExternKind::new(Kind::Star) {
            let row = TypeRow {
                constructors: none(self.alloc)?,
                kind,
                name,
                newtype: false,
            };
            self.externs.types = with(self.alloc, &self.externs.types, row)?;
        }
        Ok(())
    }

    fn synonym(&mut self, name: Name, words: &[&str]) -> Result<(), NoMemory> {
        self.x_type(name.clone()?)?;
        if let Some(body) = self.written(words)? {
            let row = SynonymRow {
                body,
                name,
                params: none(self.alloc)?,
            };
            self.externs.synonyms = with(self.alloc, &self.externs.synonyms, row)?;
        }
        Ok(())
    }

    fn class(&mut self, name: Name, words: &[&str]) -> Result<(), NoMemory> {
        let mut parts = words.split(|word| *word == "<");
        let (members, supers) = (parts.next(), parts.next());
        let members = match members {
            Some(members) => names_of(self.alloc, members)?,
            None => Vec::new(self.alloc),
        };
        let supers = match supers {
            Some(supers) => self.supers(supers)?,
            None => Vec::new(self.alloc),
        };
        self.add_class(name, members, supers)
    }

    fn add_class(
        &mut self,
        name: Name,
        members: Vec<Name>,
        supers: Vec<ExternConstraint>,
    ) -> Result<(), NoMemory> {
        let alloc = self.alloc;
        let members = SharedItems::from_vec(alloc, members)?;
        let supers = SharedItems::from_vec(alloc, supers)?;
        let row = ClassRow {
            deps: none(alloc)?,
            members,
            name,
            params: none(alloc)?,
            supers,
        };
        self.externs.classes = with(alloc, &self.externs.classes, row)?;
        Ok(())
    }

    fn supers(&self, words: &[&str]) -> Result<Vec<ExternConstraint>, NoMemory> {
        let mut supers = Vec::new(self.alloc);
        for word in words {
            let constraint = constraint_of(self.alloc, &self.externs.module, word)?;
            if let Some(constraint) = ExternConstraint::new(constraint) {
                supers.push(constraint)?;
            }
        }
        Ok(supers)
    }

    fn constructor(&mut self, name: Name, words: &[&str]) -> Result<(), NoMemory> {
        let Some((parent, _fields)) = words.split_first() else {
            return Ok(());
        };
        match name_of(self.alloc, parent)? {
            Some(parent) => self.constructor_of(name, parent, words),
            None => Ok(()),
        }
    }

    fn constructor_of(&mut self, name: Name, parent: Name, words: &[&str]) -> Result<(), NoMemory> {
        if let Some(x_type) = self.written(words)? {
            let row = ConstructorRow {
                name,
                parent,
                x_type,
            };
            self.externs.constructors = with(self.alloc, &self.externs.constructors, row)?;
        }
        Ok(())
    }

    fn fixity(&mut self, space: OpSpace, op: &str, words: &[&str]) -> Result<(), NoMemory> {
        let [side, power, target] = words else {
            return Ok(());
        };
        match self.target(target)? {
            Some(target) => {
                let row = FixityRow {
                    assoc: assoc_of(side),
                    op: OpName(Text::new(self.alloc, op)?),
                    precedence: power_of(power),
                    space,
                    target,
                };
                self.externs.fixities = with(self.alloc, &self.externs.fixities, row)?;
                Ok(())
            }
            None => Ok(()),
        }
    }

    fn target(&self, word: &str) -> Result<Option<TrueName>, NoMemory> {
        let (module, name) = true_name(self.alloc, &self.externs.module, word)?;
        match Name::new(name) {
            Some(name) => Ok(Some(TrueName { module, name })),
            None => Ok(None),
        }
    }

    fn export_own(&mut self, kind: &str, name: &str) -> Result<(), NoMemory> {
        let module = self.externs.module.clone()?;
        self.export(kind, name, module)
    }

    fn export(&mut self, kind: &str, name: &str, module: ModuleName) -> Result<(), NoMemory> {
        if let Some(entity) = entity_of(self.alloc, kind, name)? {
            let row = ExportRow { entity, module };
            self.externs.exports = with(self.alloc, &self.externs.exports, row)?;
        }
        Ok(())
    }
}

fn entity_of(alloc: Global, kind: &str, name: &str) -> Result<Option<Entity>, NoMemory> {
    match kind {
        "value" => Ok(name_of(alloc, name)?.map(Entity::Value)),
        "type" | "synonym" | "class" => Ok(name_of(alloc, name)?.map(Entity::XType)),
        "ctor" => Ok(name_of(alloc, name)?.map(Entity::Constructor)),
        "valueop" => Ok(Some(Entity::ValueOp(OpName(Text::new(alloc, name)?)))),
        _ => Ok(Some(Entity::TypeOp(OpName(Text::new(alloc, name)?)))),
    }
}
