//! Modules, from their sources to their trees.
//!
//! A module is its line up to `where`, and the items of the block behind it: imports and then declarations. Each item is
//! read by itself, and the first one that fails is the module's error. Of that item a form that this compiler does not have
//! counts first, then nesting past the limit, then an integer out of range, then that it is not of the grammar.
//! This crate knows nothing of scopes: what names stand for is decided later.
#![tactic(auto)]

mod classes;
mod cut;
mod decls;
mod head;
mod item;
mod outside;
mod range;
mod refs;
mod verdict;

pub use head::{ModuleHead, header};
pub use item::{parse, parse_bytes};
pub use verdict::NESTING_LIMIT;
