//! Kinds and types, from symbols to trees.
//!
//! The rules of the grammar, one function each, from left to right. A `_`, an integer or a kind inside a type is a form
//! that this compiler does not have. This crate knows nothing of expressions and declarations.
#![tactic(auto)]

mod kinds;
mod types;

pub use kinds::{kind, some_variables, variables};
pub use types::{atoms, constraints, one_atom, parse_type, sig, whole_type};
