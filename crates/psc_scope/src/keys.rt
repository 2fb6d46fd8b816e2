//! The name spaces, and names in them.

ghost use Rattle.std.specs.Prelude.{◌≡◌, None, IfOk};
ghost use Rattle.psc_scope.specs.Lookup as lookup;
ghost use Rattle.psc_scope.specs.Names as spec;

use psc_externs::{Entity, Name, OpSpace, Space};
use psc_text::{ModuleName, NoMemory, OpName, Qualified, Text, begins_upper};
use std::alloc::Global;

/// A name space. They are in the order of the words that interface files call them by.
#[derive(Clone, Copy, PartialEq, Eq, PartialOrd, Ord)]
pub enum Area {
    Constructor,
    /// Types, synonyms and classes.
    XType,
    TypeOp,
    Value,
    ValueOp,
}

impl Area {
    /// The name space that interface files call so.
    pub fn of(space: Space) -> Area
        ensures { result ≡ spec.area_of space }
    {
        match space {
            Space::Constructor => Area::Constructor,
            Space::XType => Area::XType,
            Space::TypeOp => Area::TypeOp,
            Space::Value => Area::Value,
            Space::ValueOp => Area::ValueOp,
        }
    }

    /// The name space of an operator.
    pub fn of_operator(space: OpSpace) -> Area
        ensures { result ≡ spec.operator_area space }
    {
        match space {
            OpSpace::TypeOp => Area::TypeOp,
            OpSpace::ValueOp => Area::ValueOp,
        }
    }
}

/// A name in its name space, with the module before its dot, if one is written.
#[derive(PartialEq, Eq, PartialOrd, Ord, Drop)]
pub struct Key {
    pub area: Area,
    pub name: Text,
    pub qualifier: Option<ModuleName>,
}

impl Key {
    /// A name as it is written.
    pub fn new(area: Area, name: &Text, qualifier: &Option<ModuleName>) -> Result<Key, NoMemory>
        ensures { IfOk result (λ made. made ≡ lookup.key area name.now qualifier.now) }
    {
        Ok(Key {
            area,
            name: name.clone()?,
            qualifier: qualifier.clone()?,
        })
    }

    /// A name without a module before it.
    pub fn plain(area: Area, name: &Text) -> Result<Key, NoMemory>
        ensures { IfOk result (λ made. made ≡ lookup.key area name.now None) }
    {
        Ok(Key {
            area,
            name: name.clone()?,
            qualifier: None,
        })
    }
}

/// The name as interface files hold it. None where it cannot stand in one, which no name of a source is.
pub fn entity(area: Area, name: &Text) -> Result<Option<Entity>, NoMemory>
    ensures { IfOk result (λ made. made ≡ spec.entity area name.now) }
{
    let text = name.clone()?;
    Ok(entity_of(area, text))
}

fn entity_of(area: Area, text: Text) -> Option<Entity>
    ensures { result ≡ spec.entity area text }
{
    match area {
        Area::TypeOp => Some(Entity::TypeOp(OpName(text))),
        Area::ValueOp => Some(Entity::ValueOp(OpName(text))),
        Area::Constructor => match plain_name(text) {
            Some(name) => Some(Entity::Constructor(name)),
            None => None,
        },
        Area::XType => match plain_name(text) {
            Some(name) => Some(Entity::XType(name)),
            None => None,
        },
        Area::Value => match plain_name(text) {
            Some(name) => Some(Entity::Value(name)),
            None => None,
        },
    }
}

/// A text as a name that is no operator, where it is one.
fn plain_name(text: Text) -> Option<Name>
    ensures { result ≡ spec.plain_name text }
{
    Name::new(text)
}

/// A name as it is written, with its module and a dot before it, if it has one.
pub fn written(alloc: Global, name: &Qualified) -> Result<Text, NoMemory>
    ensures { IfOk result (λ text. text ≡ spec.written name.now) }
{
    match &name.module {
        Some(module) => {
            let (before, behind) = (module.as_str(), name.name.as_str());
            Text::from_string(format!(in alloc; "{}.{}", before, behind)?)
        }
        None => Ok(name.name.clone()?),
    }
}

/// Whether a name begins as those of constructors and types do.
pub fn is_upper(name: &Text) -> bool {
    match name.as_str().chars().next() {
        Some(letter) => begins_upper(letter),
        None => false,
    }
}
