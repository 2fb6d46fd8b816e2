//! The texts of interface files and of places: compact JSON with its members in the order of their
//! names, without a line end.
//!
//! A text is a function of the rows, by cases. A text is read by its JSON value, and then accepted only
//! where the rows that it gives are written as that very text: so another order, a repeated or missing
//! name, a blank, a byte behind it, or a number written otherwise is no such text.
#![tactic(auto)]

mod meaning;
#[cfg(test)]
mod tests;
mod text;

pub use meaning::Meaning;
pub use text::{read, read_places, write, write_places};
