//! The tree of one chain of operators, for expressions, binders and types alike.
//!
//! Input: the operands of a chain with what is known of their depth, and its operators with their targets. Output: the right
//! tree over them and its depth, or the two operators that clash.
//! A token lies one level deeper for each operator that it lies under or behind in its chain.
#![tactic(auto)]

mod joins;
mod size;
mod tree;

pub use joins::Joins;
pub use size::{DEEPEST, Size, levels};
pub use tree::{Bracketed, Chain, Operand, tree_of};
