//! Groups of declarations that reach one another, in the order in which they may be treated.
//!
//! Input: for each declaration the numbers of those that it mentions. Output: the groups.
//! Two declarations are in one group where each reaches the other by mention. The order takes each time the group with the
//! earliest declaration among those whose mentions are all placed.
#![tactic(auto)]

mod declared;
mod groups;
mod order;
mod walk;

pub use declared::are_declared;
pub use groups::{BindingGroup, binding_groups};
