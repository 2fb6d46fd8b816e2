//! The rows of an interface file. A name of the module itself is plain; a name that may be another
//! module's stands with its module. Lists are in the order of the source unless said.

ghost use Rattle.std.specs.Prelude.{◌≡◌};
ghost use Rattle.psc_externs.specs.Entities as spec;

use crate::name::{Name, TrueName};
use crate::written::{ExternConstraint, ExternKind, ExternType};
use psc_items::SharedItems;
use psc_text::{ModuleName, OpName, Text};
use std::alloc::AllocError;

/// The side to which an operator associates, by the word that declares it.
#[derive(Clone, Copy, Debug, PartialEq, Eq)]
pub enum Assoc {
    Infix,
    Infixl,
    Infixr,
}

/// The name space of an operator.
#[derive(Clone, Copy, Debug, PartialEq, Eq)]
pub enum OpSpace {
    TypeOp,
    ValueOp,
}

/// A name space.
#[derive(Clone, Copy, Debug, PartialEq, Eq)]
pub enum Space {
    Constructor,
    /// Types, synonyms and classes.
    XType,
    TypeOp,
    Value,
    ValueOp,
}

/// A name in its name space.
#[derive(Debug, Drop)]
pub enum Entity {
    Constructor(Name),
    /// A type, a synonym or a class.
    XType(Name),
    TypeOp(OpName),
    Value(Name),
    ValueOp(OpName),
}

impl Entity {
    /// The name space that the name is in.
    pub fn space(&self) -> Space
        ensures { result ≡ spec.space_of self.now }
    {
        match self {
            Entity::Constructor(_) => Space::Constructor,
            Entity::XType(_) => Space::XType,
            Entity::TypeOp(_) => Space::TypeOp,
            Entity::Value(_) => Space::Value,
            Entity::ValueOp(_) => Space::ValueOp,
        }
    }

    /// The name or the operator.
    pub fn text(&self) -> &Text
        ensures { result.now ≡ spec.text_of self.now }
    {
        match self {
            Entity::Constructor(name) | Entity::XType(name) | Entity::Value(name) => name.text(),
            Entity::TypeOp(op) | Entity::ValueOp(op) => &op.0,
        }
    }
}

impl Clone for Entity {
    ghost is_clone = { λ entity copy. copy ≡ entity };

    fn clone(&self) -> Result<Entity, AllocError> {
        match self {
            Entity::Constructor(name) => Ok(Entity::Constructor(name.clone()?)),
            Entity::XType(name) => Ok(Entity::XType(name.clone()?)),
            Entity::TypeOp(op) => Ok(Entity::TypeOp(op.clone()?)),
            Entity::Value(name) => Ok(Entity::Value(name.clone()?)),
            Entity::ValueOp(op) => Ok(Entity::ValueOp(op.clone()?)),
        }
    }
}

/// A parameter of a class or synonym with its kind.
#[derive(Debug, Drop)]
pub struct Param {
    pub name: Name,
    pub kind: ExternKind,
}

impl Clone for Param {
    ghost is_clone = { λ row copy. copy ≡ row };

    fn clone(&self) -> Result<Param, AllocError> {
        let name = self.name.clone()?;
        let kind = self.kind.clone()?;
        Ok(Param { name, kind })
    }
}

/// A functional dependency: the places of a class's parameters that determine others.
#[derive(Debug, Drop)]
pub struct Dependency {
    pub determining: SharedItems<u32>,
    pub determined: SharedItems<u32>,
}

impl Clone for Dependency {
    ghost is_clone = { λ row copy. copy ≡ row };

    fn clone(&self) -> Result<Dependency, AllocError> {
        let determining = self.determining.clone()?;
        let determined = self.determined.clone()?;
        Ok(Dependency {
            determining,
            determined,
        })
    }
}

/// A class.
#[derive(Debug, Drop)]
pub struct ClassRow {
    pub deps: SharedItems<Dependency>,
    pub members: SharedItems<Name>,
    pub name: Name,
    pub params: SharedItems<Param>,
    pub supers: SharedItems<ExternConstraint>,
}

impl Clone for ClassRow {
    ghost is_clone = { λ row copy. copy ≡ row };

    fn clone(&self) -> Result<ClassRow, AllocError> {
        let deps = self.deps.clone()?;
        let members = self.members.clone()?;
        let name = self.name.clone()?;
        let params = self.params.clone()?;
        let supers = self.supers.clone()?;
        Ok(ClassRow {
            deps,
            members,
            name,
            params,
            supers,
        })
    }
}

/// A constructor of a type of the module.
#[derive(Debug, Drop)]
pub struct ConstructorRow {
    pub name: Name,
    /// The type that it makes.
    pub parent: Name,
    pub x_type: ExternType,
}

impl Clone for ConstructorRow {
    ghost is_clone = { λ row copy. copy ≡ row };

    fn clone(&self) -> Result<ConstructorRow, AllocError> {
        let name = self.name.clone()?;
        let parent = self.parent.clone()?;
        let x_type = self.x_type.clone()?;
        Ok(ConstructorRow {
            name,
            parent,
            x_type,
        })
    }
}

/// An exported name and the module that declares it.
#[derive(Debug, Drop)]
pub struct ExportRow {
    pub entity: Entity,
    pub module: ModuleName,
}

impl Clone for ExportRow {
    ghost is_clone = { λ row copy. copy ≡ row };

    fn clone(&self) -> Result<ExportRow, AllocError> {
        let entity = self.entity.clone()?;
        let module = self.module.clone()?;
        Ok(ExportRow { entity, module })
    }
}

/// An operator and what it stands for.
#[derive(Debug, Drop)]
pub struct FixityRow {
    pub assoc: Assoc,
    pub op: OpName,
    pub precedence: u8,
    pub space: OpSpace,
    pub target: TrueName,
}

impl Clone for FixityRow {
    ghost is_clone = { λ row copy. copy ≡ row };

    fn clone(&self) -> Result<FixityRow, AllocError> {
        let op = self.op.clone()?;
        let target = self.target.clone()?;
        Ok(FixityRow {
            assoc: self.assoc,
            op,
            precedence: self.precedence,
            space: self.space,
            target,
        })
    }
}

/// An instance.
#[derive(Debug, Drop)]
pub struct InstanceRow {
    /// The name of the first instance of its chain.
    pub chain: Name,
    pub class: TrueName,
    pub context: SharedItems<ExternConstraint>,
    pub head: SharedItems<ExternType>,
    /// Its place in its chain, from 0.
    pub index: u32,
    pub name: Name,
    /// The type variables of its head.
    pub vars: SharedItems<Name>,
}

impl Clone for InstanceRow {
    ghost is_clone = { λ row copy. copy ≡ row };

    fn clone(&self) -> Result<InstanceRow, AllocError> {
        let chain = self.chain.clone()?;
        let class = self.class.clone()?;
        let context = self.context.clone()?;
        let head = self.head.clone()?;
        let name = self.name.clone()?;
        let vars = self.vars.clone()?;
        Ok(InstanceRow {
            chain,
            class,
            context,
            head,
            index: self.index,
            name,
            vars,
        })
    }
}

/// A synonym.
#[derive(Debug, Drop)]
pub struct SynonymRow {
    pub body: ExternType,
    pub name: Name,
    pub params: SharedItems<Param>,
}

impl Clone for SynonymRow {
    ghost is_clone = { λ row copy. copy ≡ row };

    fn clone(&self) -> Result<SynonymRow, AllocError> {
        let body = self.body.clone()?;
        let name = self.name.clone()?;
        let params = self.params.clone()?;
        Ok(SynonymRow { body, name, params })
    }
}

/// A type; a synonym has a row here too, without constructors.
#[derive(Debug, Drop)]
pub struct TypeRow {
    pub constructors: SharedItems<Name>,
    pub kind: ExternKind,
    pub name: Name,
    pub newtype: bool,
}

impl Clone for TypeRow {
    ghost is_clone = { λ row copy. copy ≡ row };

    fn clone(&self) -> Result<TypeRow, AllocError> {
        let constructors = self.constructors.clone()?;
        let kind = self.kind.clone()?;
        let name = self.name.clone()?;
        Ok(TypeRow {
            constructors,
            kind,
            name,
            newtype: self.newtype,
        })
    }
}

/// An exported value or member of a class.
#[derive(Debug, Drop)]
pub struct ValueRow {
    pub name: Name,
    pub x_type: ExternType,
}

impl Clone for ValueRow {
    ghost is_clone = { λ row copy. copy ≡ row };

    fn clone(&self) -> Result<ValueRow, AllocError> {
        let name = self.name.clone()?;
        let x_type = self.x_type.clone()?;
        Ok(ValueRow { name, x_type })
    }
}
