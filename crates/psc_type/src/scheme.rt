//! Types of declarations, and the rigid variables that an unknown may stand for.

ghost use Rattle.std.specs.Prelude.{◌≡◌, ◌↔◌, IsTrue, IsSome, IfOk, IfSome};
ghost use Rattle.psc_type.specs.Closed as spec;

use crate::closed::{is_closed, is_known};
use crate::ty::Ty;
use psc_items::SharedItems;
use psc_text::{Ident, NoMemory};
use std::alloc::{AllocError, Global};
use std::marker::Model;

/// The rigid variables that may stand in what an unknown becomes.
#[derive(Debug, Drop)]
pub struct Scope {
    pub rigid: SharedItems<Ident>,
}

/// The type of a declaration: each variable is bound by a `forall` round it, and no unknown
/// stands in it. Contracts see it as the type.
#[derive(Debug, Drop)]
pub struct Scheme {
    ty: Ty,
}

impl Model for Scheme {
    ghost use Rattle.std.specs.Prelude.{IsTrue};
    ghost use Rattle.std.specs.Coded.{codes};
    ghost use Rattle.psc_type.specs.Closed as spec;
    ghost use Rattle.psc_type.specs.declared.ty.Ty.{Ty};
    ghost use Rattle.psc_type.specs.contracts.ty.Ty as types;

    ghost Value = { Ty };

    ghost coded = { Prim.hlevel (codes, types.the_row.coded) };

    ghost view = { λ s. s.ty };

    ghost invariant = { λ s. IsTrue (spec.is_scheme s.ty) };
}

impl Scheme {
    /// The type as a scheme: None where a variable is free or an unknown stands in it.
    pub fn new(alloc: Global, ty: Ty) -> Result<Option<Scheme>, NoMemory>
        ensures exactly { IfOk result (λ scheme. IsSome scheme ↔ IsTrue (spec.is_scheme ty)) }
        ensures as_given { IfOk result (λ scheme. IfSome scheme (λ s. s ≡ ty)) }
    {
        if is_known(&ty) && is_closed(alloc, &ty)? {
            Ok(Some(Scheme { ty }))
        } else {
            Ok(None)
        }
    }

    pub fn ty(&self) -> &Ty
        ensures same { result.now ≡ self.now }
        ensures scheme { IsTrue (spec.is_scheme self.now) }
    {
        &self.ty
    }

    /// Whether both are one scheme, node by node.
    pub fn same(&self, other: &Scheme) -> bool
        ensures { IsTrue result ↔ (self.now ≡ other.now) }
    {
        self.ty.same(&other.ty)
    }
}

impl Clone for Scheme {
    ghost is_clone = { λ scheme copy. copy ≡ scheme };

    fn clone(&self) -> Result<Scheme, AllocError> {
        let ty = self.ty.clone()?;
        Ok(Scheme { ty })
    }
}

impl Clone for Scope {
    ghost is_clone = { λ scope copy. copy ≡ scope };

    fn clone(&self) -> Result<Scope, AllocError> {
        let rigid = self.rigid.clone()?;
        Ok(Scope { rigid })
    }
}
