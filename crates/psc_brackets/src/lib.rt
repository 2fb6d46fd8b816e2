//! Operators between operands, as trees.
//!
//! Input: the operators of a chain, each with its power and its side. Output: the tree in which each operator stands, or the
//! first two operators that cannot stand in one.
//! A tree over a chain is right if, read in order, it is the chain, and each child of a node binds tighter than the node, or
//! has its power and its side and stands on that side.
#![tactic(auto)]

mod chain;

pub use chain::{Clash, Operator, Turn, bracket};
