//! Binders, from symbols to trees.
//!
//! The rules of the grammar, one function each, from left to right. This crate knows nothing of expressions.
#![tactic(auto)]

mod binders;
mod token;

pub use binders::{atoms, list, one_binder, parse_binder, some_atoms};
