//! Operators become trees.
//!
//! Input: a module whose names are resolved, with the operators that it mentions. Output: the same module without chains,
//! each operator's target in its place, or the one error of its operators.
//! Chains follow the rule of right trees. A type or an expression that a bracket holds is a tree of its own.
#![tactic(auto)]

mod binders;
mod binds;
mod copies;
mod exprs;
mod items;
mod state;
mod types;

pub use items::rebracket;
pub use psc_cycles::{cycle_error, declaration_mentions};
pub use psc_groups::{BindingGroup, are_declared, binding_groups};
