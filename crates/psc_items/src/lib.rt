//! Lists and boxes that contracts see as what they hold, so that a tree of them is plain data.
#![tactic(auto)]

mod shared;
mod shared_items;

pub use shared::Shared;
pub use shared_items::SharedItems;
