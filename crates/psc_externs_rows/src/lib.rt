//! The rows of interface files and of places as JSON values, and back.
//!
//! Each row is written as one value, its members in the order of their names. A value that is a row's
//! is read as that row; of other values nothing is said here, since who reads compares the text.
#![tactic(auto)]

mod classes;
mod exports;
mod fixities;
mod instances;
mod kept;
mod names;
mod places;
mod row;
mod spaces;
mod types;

pub use row::{Row, list_member, member, with_row, with_rows};
