//! What a case of erased alternatives becomes in CoreFn, and the nodes that stand in no source.
//!
//! CoreFn can't say a test `p <- e` of a guard: a case with one becomes named subjects and named places
//! where it goes on.
#![tactic(auto)]

mod made;
mod numbering;
mod rows;

pub use made::{forced, super_label, thunk, true_binder, variable};
pub use numbering::{Numbers, after};
pub use rows::{Branch, Row, Test, alternative, case_of, row_of};
