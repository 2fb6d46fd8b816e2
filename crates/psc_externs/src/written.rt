//! Types, kinds and constraints that may stand in an interface file: without unknowns and `$any`,
//! with the module of each name that another module may have.

ghost use Rattle.std.specs.Prelude.{◌≡◌, ◌↔◌, IsTrue, IsSome, IfSome, Some};
ghost use Rattle.psc_externs.specs.Written as spec;
ghost use Rattle.psc_externs.specs.Names as names;

use crate::name::is_name;
use crate::sizes::{is_long, is_long_constraint, is_long_kind};
use psc_text::{Ident, ModuleName, Qualified};
use psc_type::{Constraint, Kind, Ty};
use std::alloc::AllocError;
use std::marker::Model;

/// A type of an interface file. Contracts see it as the type.
#[derive(Debug, Drop)]
pub struct ExternType {
    ty: Ty,
}

impl Model for ExternType {
    ghost use Rattle.std.specs.Prelude.{IsTrue};
    ghost use Rattle.std.specs.Coded.{codes};
    ghost use Rattle.psc_type.specs.declared.ty.Ty.{Ty};
    ghost use Rattle.psc_type.specs.contracts.ty.Ty as types;
    ghost use Rattle.psc_externs.specs.Written as spec;

    ghost Value = { Ty };

    ghost coded = { Prim.hlevel (codes, types.the_row.coded) };

    ghost view = { λ t. t.ty };

    ghost invariant = { λ t. IsTrue (spec.is_extern_type t.ty) };
}

impl ExternType {
    /// The type: None where an unknown, `$any`, a name without its module, or a name that is
    /// empty or has a dot stands in it, or where it has more than 20,000 words.
    pub fn new(ty: Ty) -> Option<ExternType>
        ensures exactly { IsSome result ↔ IsTrue (spec.is_extern_type ty) }
        ensures as_given { IfSome result (λ t. t ≡ ty) }
    {
        if is_written(&ty) && !is_long(&ty) {
            Some(ExternType { ty })
        } else {
            None
        }
    }

    /// The type, which may stand in an interface file.
    pub fn ty(&self) -> &Ty
        ensures same { result.now ≡ self.now }
        ensures written { IsTrue (spec.is_extern_type self.now) }
    {
        &self.ty
    }
}

impl Clone for ExternType {
    ghost is_clone = { λ ty copy. copy ≡ ty };

    fn clone(&self) -> Result<ExternType, AllocError> {
        let ty = self.ty.clone()?;
        Ok(ExternType { ty })
    }
}

/// A kind of an interface file: one without unknowns. Contracts see it as the kind.
#[derive(Debug, Drop)]
pub struct ExternKind {
    kind: Kind,
}

impl Model for ExternKind {
    ghost use Rattle.std.specs.Prelude.{IsTrue};
    ghost use Rattle.std.specs.Coded.{codes};
    ghost use Rattle.psc_type.specs.declared.kind.Kind.{Kind};
    ghost use Rattle.psc_type.specs.contracts.kind.Kind as kinds;
    ghost use Rattle.psc_externs.specs.Written as spec;

    ghost Value = { Kind };

    ghost coded = { Prim.hlevel (codes, kinds.the_row.coded) };

    ghost view = { λ k. k.kind };

    ghost invariant = { λ k. IsTrue (spec.is_extern_kind k.kind) };
}

impl ExternKind {
    /// The kind: None where an unknown stands in it, or where it has more than 20,000 words.
    pub fn new(kind: Kind) -> Option<ExternKind>
        ensures exactly { IsSome result ↔ IsTrue (spec.is_extern_kind kind) }
        ensures as_given { IfSome result (λ k. k ≡ kind) }
    {
        if kind.is_known() && !is_long_kind(&kind) {
            Some(ExternKind { kind })
        } else {
            None
        }
    }

    /// The kind, which has no unknown.
    pub fn kind(&self) -> &Kind
        ensures same { result.now ≡ self.now }
        ensures known { IsTrue (spec.is_extern_kind self.now) }
    {
        &self.kind
    }
}

impl Clone for ExternKind {
    ghost is_clone = { λ kind copy. copy ≡ kind };

    fn clone(&self) -> Result<ExternKind, AllocError> {
        let kind = self.kind.clone()?;
        Ok(ExternKind { kind })
    }
}

/// A constraint of an interface file. Contracts see it as the constraint.
#[derive(Debug, Drop)]
pub struct ExternConstraint {
    constraint: Constraint,
}

impl Model for ExternConstraint {
    ghost use Rattle.std.specs.Prelude.{IsTrue};
    ghost use Rattle.std.specs.Coded.{codes};
    ghost use Rattle.psc_type.specs.declared.ty.Constraint.{Constraint};
    ghost use Rattle.psc_type.specs.contracts.ty.Constraint as constraints;
    ghost use Rattle.psc_externs.specs.Written as spec;

    ghost Value = { Constraint };

    ghost coded = { Prim.hlevel (codes, constraints.the_row.coded) };

    ghost view = { λ c. c.constraint };

    ghost invariant = { λ c. IsTrue (spec.is_extern_constraint c.constraint) };
}

impl ExternConstraint {
    /// The constraint: None where its class has no module or a type of its may not stand in an
    /// interface file, or where it has more than 20,000 words.
    pub fn new(constraint: Constraint) -> Option<ExternConstraint>
        ensures exactly { IsSome result ↔ IsTrue (spec.is_extern_constraint constraint) }
        ensures as_given { IfSome result (λ c. c ≡ constraint) }
    {
        if is_written_constraint(&constraint) && !is_long_constraint(&constraint) {
            Some(ExternConstraint { constraint })
        } else {
            None
        }
    }

    /// The constraint, which may stand in an interface file.
    pub fn constraint(&self) -> &Constraint
        ensures same { result.now ≡ self.now }
        ensures written { IsTrue (spec.is_extern_constraint self.now) }
    {
        &self.constraint
    }
}

impl Clone for ExternConstraint {
    ghost is_clone = { λ constraint copy. copy ≡ constraint };

    fn clone(&self) -> Result<ExternConstraint, AllocError> {
        let constraint = self.constraint.clone()?;
        Ok(ExternConstraint { constraint })
    }
}

fn is_ident(name: &Ident) -> bool
    ensures { result ≡ names.is_name name.now.0 }
{
    is_name(name.0.as_str().as_bytes())
}

/// Whether the text is a module's name: each value of this type is one.
fn is_module(name: &ModuleName) -> bool
    ensures { result ≡ names.is_module (Some name.now) }
{
    let _upper_names = name.as_str();
    true
}

fn is_true_name(name: &Qualified) -> bool
    ensures { result ≡ names.is_true_name name.now }
{
    match &name.module {
        Some(module) => is_module(module) && is_name(name.name.as_str().as_bytes()),
        None => false,
    }
}

#[cycle(written)]
#[tactic(auto, using(crate::proofs::WrittenRules::written))]
fn is_written(ty: &Ty) -> bool
    ensures { result ≡ spec.is_written ty.now }
{
    match ty {
        Ty::Var(name) => is_ident(name),
        Ty::Con(name) => is_true_name(name),
        Ty::RowNil | Ty::Symbol(_) => true,
        Ty::Unknown(_) | Ty::Any(_) => false,
        Ty::App(left, right) | Ty::RowCons(_, left, right) => {
            is_written(left.get()) && is_written(right.get())
        }
        Ty::Forall(name, kind, body) => {
            is_ident(name) && kind.is_known() && is_written(body.get())
        }
        Ty::Given(given, body) => is_written_constraint(given) && is_written(body.get()),
    }
}

#[cycle(written)]
fn is_written_constraint(constraint: &Constraint) -> bool
    ensures { result ≡ spec.is_written_constraint constraint.now }
{
    is_true_name(&constraint.class) && are_written(constraint.args.as_slice())
}

#[cycle(written)]
fn are_written(args: &[Ty]) -> bool
    ensures { result ≡ spec.are_written args.now }
{
    for arg in args {
        if !is_written(arg) {
            return false;
        }
    }
    true
}
