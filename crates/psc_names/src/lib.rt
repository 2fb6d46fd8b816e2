//! What the names of a module stand for.
//!
//! Input: a module as it is written, and the interfaces of the modules that it may import. Output: the module with the true
//! name of each mention, its operators, its mentions and what it exports; or the one error of its names.
//! Types are not looked into: what stands behind a name is read later.
#![tactic(auto)]

mod binds;
mod decls;
mod exprs;
mod phases;

pub use phases::{Resolved, resolve};
pub use psc_imports::exports_closed;
