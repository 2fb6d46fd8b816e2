//! The errors of a module, and their two texts: the line of a plain report and the JSON object of a
//! report for tools.
//!
//! Both texts are functions of the error and of the path that the source was read from.
#![tactic(auto)]

mod code;
mod error;
#[cfg(test)]
mod tests;
mod text;

pub use code::Code;
pub use error::PsError;
pub use text::{error_json, error_line};
