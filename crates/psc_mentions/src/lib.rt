//! Mentions of names, and the types and binders that they stand in.
//!
//! Input: what is in scope, and a type or a binder as it is written. Output: the same with the true name of each mention, and
//! rows of what is mentioned; or the first mention, in the order of the source, that names nothing or two things.
#![tactic(auto)]

mod binders;
mod resolver;
mod types;

pub use binders::{all_binders, binder, bound_names};
pub use resolver::{Resolver, copy, ident};
pub use types::{
    add_all_vars, bind_vars, constraint_list, front_vars, kind, label, signature, typ, typs,
};
