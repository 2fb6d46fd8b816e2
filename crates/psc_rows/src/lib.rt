//! Equations between nodes of a graph of types, with rows, solved until none is left.
//!
//! Two rows are equal where each label has equal types on both sides in the same order, and the rest
//! is equal; different labels may stand in any order. What one side lacks becomes a part of its tail.
#![tactic(auto)]

mod align;
mod fields;
mod graph;
mod rows;
mod settled;
mod solve;

pub use graph::{Graph, Write};
pub use settled::Settled;
pub use solve::make_equal;
