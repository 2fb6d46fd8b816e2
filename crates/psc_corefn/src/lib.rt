//! The CoreFn text of a module: compact JSON with ascending keys and no line end.
//!
//! Each writer appends to one string, and its contract says what it appends, so the work is linear in
//! the length of the text.
#![tactic(auto)]

mod ann;
mod append;
mod binder;
mod expr;
mod literal;
mod module;

pub use module::corefn_text;
