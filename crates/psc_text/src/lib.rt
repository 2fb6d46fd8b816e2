//! Texts, names and places: what every other crate speaks of.
//!
//! A text or a name is shared: a clone copies no bytes, and may be sent to another thread.
//! Equality, order by bytes and hash are lawful, so that each serves as a key.
#![tactic(auto)]

mod bytes;
mod letters;
mod memory;
mod module_name;
mod names;
mod span;
#[cfg(test)]
mod tests;
mod text;

pub use bytes::Bytes;
pub use letters::{begins_lower, begins_upper, goes_on};
pub use memory::NoMemory;
pub use module_name::{ModuleName, is_builtin, read_module_name};
pub use names::{Ident, Label, OpName, Qualified};
pub use span::Span;
pub use text::Text;
