//! What the rules of the grammar are made of.
//!
//! Tokens with their block marks are flattened into symbols, so that a block is ordinary grammar. A rule takes the symbols
//! that are left and gives what it read and the symbols behind it, or says why it read nothing.
//! This crate knows nothing of what types, expressions or declarations look like.
#![tactic(auto)]

mod fault;
mod literal;
mod name;
mod step;
mod symbol;

pub use fault::{Fault, Parsed, whole};
pub use literal::{character, integer_value, is_out_of_range, string};
pub use name::{ident, label, lower, mention, module_name, op, upper};
pub use step::{
    comes, content, eat, eat_next, expect, expect_next, goes_on, opens_block, peek, peek_second,
    peek_third, sees, span_of,
};
pub use symbol::{Next, Sym, symbols};
