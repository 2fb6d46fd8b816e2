//! Words for name spaces and for the sides of operators, and names in their name spaces.

ghost use Rattle.std.specs.Prelude.{◌≡◌, true, Some};
ghost use Rattle.psc_externs.specs.Entities.{space_of, text_of};
ghost use Rattle.psc_externs.specs.declared.rows.Entity.{Entity};
ghost use Rattle.psc_externs_rows.specs.Kept.{keeps_entity};
ghost use Rattle.psc_externs_rows.specs.Rows as rows;

use crate::names::string_value;
use crate::row::Row;
use psc_externs::{Assoc, Entity, Name, OpSpace, Space};
use psc_text::{NoMemory, OpName, Text};
use serde_json::Value;
use std::alloc::Global;

/// The word of a side.
fn assoc_word(assoc: Assoc) -> &'static str
    ensures { result.now ≡ rows.assoc_text assoc }
{
    match assoc {
        Assoc::Infix => "infix",
        Assoc::Infixl => "infixl",
        Assoc::Infixr => "infixr",
    }
}

/// The word of an operator's name space.
fn op_space_word(space: OpSpace) -> &'static str
    ensures { result.now ≡ rows.op_space_text space }
{
    match space {
        OpSpace::TypeOp => "typeop",
        OpSpace::ValueOp => "valueop",
    }
}

/// The word of a name space.
pub(crate) fn space_word(space: Space) -> &'static str
    ensures { result.now ≡ rows.space_text space }
{
    match space {
        Space::Constructor => "constructor",
        Space::XType => "type",
        Space::TypeOp => "typeop",
        Space::Value => "value",
        Space::ValueOp => "valueop",
    }
}

/// The side that has this word.
fn assoc_of(word: &str) -> Option<Assoc>
    ensures { result ≡ rows.assoc_of word.now }
{
    if word == "infix" {
        Some(Assoc::Infix)
    } else if word == "infixl" {
        Some(Assoc::Infixl)
    } else if word == "infixr" {
        Some(Assoc::Infixr)
    } else {
        None
    }
}

/// The operators' name space that has this word.
fn op_space_of(word: &str) -> Option<OpSpace>
    ensures { result ≡ rows.op_space_of word.now }
{
    if word == "typeop" {
        Some(OpSpace::TypeOp)
    } else if word == "valueop" {
        Some(OpSpace::ValueOp)
    } else {
        None
    }
}

/// The name space that has this word.
fn space_named(word: &str) -> Option<Space>
    ensures { result ≡ rows.space_named word.now }
{
    if word == "constructor" {
        Some(Space::Constructor)
    } else if word == "type" {
        Some(Space::XType)
    } else if word == "typeop" {
        Some(Space::TypeOp)
    } else if word == "value" {
        Some(Space::Value)
    } else if word == "valueop" {
        Some(Space::ValueOp)
    } else {
        None
    }
}

impl Row for Assoc {
    ghost use Rattle.std.specs.Prelude.{true};
    ghost use Rattle.serde_json.specs.Data.{string};
    ghost use Rattle.psc_externs_rows.specs.Rows as rows;

    ghost json = { λ a. string (rows.assoc_text a) };

    ghost keeps = { λ a. true };

    fn value(&self, alloc: Global) -> Result<Value, NoMemory> {
        string_value(alloc, assoc_word(*self))
    }

    fn read(_alloc: Global, value: &Value) -> Result<Option<Assoc>, NoMemory> {
        match value.as_str() {
            Some(word) => Ok(assoc_of(word)),
            None => Ok(None),
        }
    }
}

impl Row for OpSpace {
    ghost use Rattle.std.specs.Prelude.{true};
    ghost use Rattle.serde_json.specs.Data.{string};
    ghost use Rattle.psc_externs_rows.specs.Rows as rows;

    ghost json = { λ s. string (rows.op_space_text s) };

    ghost keeps = { λ s. true };

    fn value(&self, alloc: Global) -> Result<Value, NoMemory> {
        string_value(alloc, op_space_word(*self))
    }

    fn read(_alloc: Global, value: &Value) -> Result<Option<OpSpace>, NoMemory> {
        match value.as_str() {
            Some(word) => Ok(op_space_of(word)),
            None => Ok(None),
        }
    }
}

impl Row for Space {
    ghost use Rattle.std.specs.Prelude.{true};
    ghost use Rattle.serde_json.specs.Data.{string};
    ghost use Rattle.psc_externs_rows.specs.Rows as rows;

    ghost json = { λ s. string (rows.space_text s) };

    ghost keeps = { λ s. true };

    fn value(&self, alloc: Global) -> Result<Value, NoMemory> {
        string_value(alloc, space_word(*self))
    }

    fn read(_alloc: Global, value: &Value) -> Result<Option<Space>, NoMemory> {
        match value.as_str() {
            Some(word) => Ok(space_named(word)),
            None => Ok(None),
        }
    }
}

/// The name in the name space that these spell.
pub(crate) fn entity_of(space: Option<Space>, text: Option<Text>) -> Option<Entity>
    ensures { (e : Entity) → keeps_entity e ≡ true → space ≡ Some (space_of e) → text ≡ Some (text_of e) → result ≡ Some e }
{
    let text = text?;
    match space? {
        Space::Constructor => Some(Entity::Constructor(Name::new(text)?)),
        Space::XType => Some(Entity::XType(Name::new(text)?)),
        Space::TypeOp => Some(Entity::TypeOp(OpName(text))),
        Space::Value => Some(Entity::Value(Name::new(text)?)),
        Space::ValueOp => Some(Entity::ValueOp(OpName(text))),
    }
}
