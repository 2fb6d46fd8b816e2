//! Expressions, from symbols to trees, and the whole of psc_parse_type and psc_parse_binder with them.
//!
//! The rules of the grammar, one function each, from left to right: an expression is a chain of operands, an operand calls
//! joined by backticks, a call its parts, and a part an atom or one of the forms that begin with a keyword.
//! A nested update and a `_` as a field's value are forms that this compiler does not have.
//! This crate knows nothing of declarations.
#![tactic(auto)]

mod atoms;
mod blocks;
mod exprs;
mod forms;
mod sides;

pub use blocks::one_clause;
pub use exprs::{one_expr, parse_expr};
pub use psc_nesting::nesting;
pub use psc_parse_binder::parse_binder;
pub use psc_parse_type::parse_type;
