//! What expressions are made of that needs no expression inside: atoms of one token, labels, names in backticks, the places
//! where `_` may stand, and what comes behind an expression that is read.
//!
//! A `_` as a field's value or as the subject of an update is a form that this compiler does not have.
//! This crate knows nothing of the forms that expressions nest in.
#![tactic(auto)]

mod begin;
mod leaf;
mod make;
mod underscore;

pub use begin::{begins_part, is_operator, is_operator_alone};
pub use leaf::token;
pub use make::{accessed, made, minus_alone, ticked, typed};
pub use underscore::{Holes, bare_hole, hole, is_field_hole, is_scrutinee_hole, update_comes};
