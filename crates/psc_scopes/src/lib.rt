//! Scopes of unknowns: which rigid variables may stand in an unknown's value.
//!
//! The nodes of a graph were made equal with scopes left aside. Each unknown that was bound meanwhile
//! asks that the rigid variables in its value lie in its scope; the unknowns that are left in its
//! value get scopes within it. Knows nothing of names: a rigid variable stands here by its number.
#![tactic(auto)]

mod table;
mod walk;

pub use table::ScopeTable;
pub use walk::{Bounds, narrow};
