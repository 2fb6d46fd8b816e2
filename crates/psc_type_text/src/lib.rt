//! The texts of types and kinds, as messages and editors show them.
//!
//! Input: a type or a kind. Output: its text in the syntax of the language, with names without their
//! modules and the labels of rows in order. Each writer appends to one string, so the work is linear
//! in the length of the text.
#![tactic(auto)]

mod append;
mod kinds;
mod names;
mod shape;
mod types;

pub use kinds::kind_text;
pub use types::type_text;
