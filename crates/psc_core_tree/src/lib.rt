//! CoreFn: the untyped core language that a compiled module is printed from.
//!
//! Values are trees that are built once and consumed. Their forms are those of PureScript's CoreFn:
//! every node has an annotation with its place in the source and what is known of it.
#![tactic(auto)]

mod ann;
mod binder;
mod expr;
mod literal;
mod module;

pub use ann::{Ann, Meta};
pub use binder::{BinderField, BinderLiteral, CoreBinder};
pub use expr::{CoreAlternative, CoreBind, CoreBinding, CoreExpr, CoreGuarded, CoreOutcome};
pub use literal::{Field, Literal};
pub use module::{CoreModule, ReExport};
