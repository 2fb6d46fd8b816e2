//! The typed core, and its erasure to CoreFn.
//!
//! A typed tree is what type checking makes of a declaration: each binder has its type, each use of a
//! class has its evidence. Erasure takes the types away and makes records of the evidence; what is left
//! is a tree of CoreFn, whose types are handed on from here.
#![tactic(auto)]

mod binder;
mod dictionary;
mod erasure;
mod evidence;
mod group;
mod scan;
mod typed;
mod typed_binder;

pub use erasure::erase;
pub use evidence::Evidence;
pub use group::{Draft, Member, Solved, TypedBind, Wants};
pub use psc_core_tree::{
    Ann, BinderField, BinderLiteral, CoreAlternative, CoreBind, CoreBinder, CoreBinding, CoreExpr,
    CoreGuarded, CoreModule, CoreOutcome, Field, Literal, Meta, ReExport,
};
pub use typed::{
    LocalBind, LocalGroup, Typed, TypedBranch, TypedField, TypedForm, TypedLit, TypedOutcome,
    TypedRow, TypedTest,
};
pub use typed_binder::{BinderForm, BinderLit, TypedBinder, TypedBinderField};
