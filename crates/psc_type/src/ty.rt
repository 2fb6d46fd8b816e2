//! Types as the compiler sees them, with rows and constraints.

ghost use Rattle.std.specs.Prelude.{◌≡◌};

use crate::kind::Kind;
use psc_items::{Shared, SharedItems};
use psc_text::{Ident, Label, Qualified, Text};
use std::alloc::AllocError;

/// A type.
#[cycle(ty)]
#[derive(Debug, Drop)]
pub enum Ty {
    /// A variable.
    Var(Ident),
    /// A type that is not known yet.
    Unknown(u64),
    /// A type constructor, or a synonym that is not expanded yet.
    Con(Qualified),
    /// A type applied to one argument.
    App(Shared<Ty>, Shared<Ty>),
    /// `forall a. t`, where the variable has a kind.
    Forall(Ident, Kind, Shared<Ty>),
    /// `c => t`.
    Given(Constraint, Shared<Ty>),
    /// A row's first label with its type, and the rest of the row.
    RowCons(Label, Shared<Ty>, Shared<Ty>),
    /// The empty row.
    RowNil,
    /// A text that stands in a type.
    Symbol(Text),
    /// `$any`: stands for a type of this kind that nothing asks for.
    Any(Kind),
}

/// A class with its arguments.
#[cycle(ty)]
#[derive(Debug, Drop)]
pub struct Constraint {
    pub class: Qualified,
    pub args: SharedItems<Ty>,
}

impl Clone for Ty {
    ghost is_clone = { λ ty copy. copy ≡ ty };

    fn clone(&self) -> Result<Ty, AllocError> {
        match self {
            Ty::Var(name) => Ok(Ty::Var(name.clone()?)),
            Ty::Unknown(number) => Ok(Ty::Unknown(*number)),
            Ty::Con(name) => Ok(Ty::Con(name.clone()?)),
            Ty::App(function, argument) => Ok(Ty::App(function.clone()?, argument.clone()?)),
            Ty::Forall(name, kind, body) => Ok(Ty::Forall(
                name.clone()?,
                kind.clone()?,
                body.clone()?,
            )),
            Ty::Given(constraint, body) => Ok(Ty::Given(constraint.clone()?, body.clone()?)),
            Ty::RowCons(label, ty, rest) => Ok(Ty::RowCons(
                label.clone()?,
                ty.clone()?,
                rest.clone()?,
            )),
            Ty::RowNil => Ok(Ty::RowNil),
            Ty::Symbol(text) => Ok(Ty::Symbol(text.clone()?)),
            Ty::Any(kind) => Ok(Ty::Any(kind.clone()?)),
        }
    }
}

impl Clone for Constraint {
    ghost is_clone = { λ constraint copy. copy ≡ constraint };

    fn clone(&self) -> Result<Constraint, AllocError> {
        Ok(Constraint {
            class: self.class.clone()?,
            args: self.args.clone()?,
        })
    }
}
