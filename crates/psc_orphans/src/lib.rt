//! Signatures of local bindings that stand before no clause of their name.
//!
//! Input: a clause of a value. Output: the first signature in it, in the order of the source, whose next binding is no clause
//! of its name. Types and binders hold no bindings, so only expressions are looked through; no name is looked up.
#![tactic(auto)]

mod binds;
mod exprs;

pub use binds::orphan_in_clause;
