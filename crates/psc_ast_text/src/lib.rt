//! Trees as texts, for tests and for looking at what a parser made.
//!
//! A node is `(word part ..)`, a name is itself. With places each node has its own behind its word, as `word@2:1-2:6`.
#![tactic(auto)]

mod binders;
mod decls;
mod exprs;
mod kinds;
mod modules;
mod printer;
mod types;

pub use modules::module_text;
pub use printer::Printer;
