//! The plain form of a module: the tree that typing reads.
//!
//! A source says one thing in many ways: clauses and lambdas, `if` and `case`, `do` blocks and nested lambdas, operators
//! and calls, sections and lambdas over made names. Typing would have to know each of them. So one stage puts a few plain
//! forms in the place of all of them, and what stands behind it knows these alone: a function takes one variable, an
//! application has one argument, all tests are a `case`, all local names come from a `let`, and no parentheses are left.
//!
//! A plain tree is data without invariants of its own. Each node keeps the place of the written form that it was made of.
//! A name that the source does not have begins with `$`.
#![tactic(auto)]

mod binders;
mod decls;
mod exprs;
mod module;
mod types;

pub use binders::{PlainBinder, PlainBinderField};
pub use decls::{
    PlainClass, PlainCtor, PlainData, PlainDep, PlainForeign, PlainInstance, PlainMember,
    PlainSignature, PlainSynonym, PlainTypeDecl, PlainValue, PlainVar,
};
pub use exprs::{
    PlainAlt, PlainBind, PlainBindGroup, PlainExpr, PlainField, PlainGuard, PlainRhs, PlainTest,
};
pub use module::Plain;
pub use types::{PlainConstraint, PlainRowField, PlainType};
