//! What written names may stand for.
//!
//! Names live in spaces. At a place a name has candidates, which are modules that declare it, in classes: own declarations,
//! names of import lists, names of open and hiding imports, names of `Prim`. The first class that has a candidate counts.
//! Local names come before all of these. This crate knows tables of names and what they answer; it knows no tree.
#![tactic(auto)]

mod keys;
mod locals;
mod scope;
mod stop;

pub use keys::{Area, Key, entity, is_upper, written};
pub use locals::Locals;
pub use scope::{Candidates, Class, Found, Scope};
pub use stop::{Problem, Stop, conflict, error_of, wrong_name};
