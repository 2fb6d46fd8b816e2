//! Types in which each synonym stands for what it means.
//!
//! Input: a type and a list of synonyms. Output: the type without them, or why there is none: a synonym
//! with too few arguments, or too many nodes. Each synonym's body is expanded once, after those that
//! it uses, so the work grows with the types and not with how often their parts are repeated.
#![tactic(auto)]

mod expanding;
mod head;
mod unfolding;

pub use head::Prepared;
pub use unfolding::{Unfolding, expand};
