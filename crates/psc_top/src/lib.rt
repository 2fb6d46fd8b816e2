//! The calls that the program makes.
#![tactic(auto)]

mod compile;
mod core_module;
mod line;
mod printed;
mod report;
mod source;
mod words;

pub use compile::compile_alone;
pub use source::{accepted_is_spelled, spelled_is_accepted};
