//! Declarations that need themselves.
//!
//! Input: a module whose names are resolved. Output: what its declarations mention of one another, and the first declaration
//! that cannot be, as it needs itself: a synonym through synonyms, a class through superclasses, or a value outside every
//! lambda.
#![tactic(auto)]

mod binders;
mod binds;
mod exprs;
mod items;
mod scope;
mod tables;
mod types;

pub use items::{cycle_error, declaration_mentions};
