//! Plain trees as texts, for tests and for looking at what desugaring made.
//!
//! A node is `(word part ..)`, a name is itself, with its module and a bar before it if it has one. With places each node has
//! its own behind its word, as `word@2:1-2:6`.
#![tactic(auto)]

mod binders;
mod decls;
mod exprs;
mod names;
mod types;

pub use decls::plain_text;
