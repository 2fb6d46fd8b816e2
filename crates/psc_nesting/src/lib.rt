//! How deep an item nests, counted on tokens before anything descends.
//!
//! Counted at a token are the brackets, blocks, lambdas, `if`, `case`, `let` and `forall` that reach over it. A bracket
//! reaches to its partner, and to the item's end where it has none; a block to its end. Any other of them reaches to the end
//! of the innermost bracket or block item that holds it, or to the next comma that stands directly in that bracket and is
//! not between a `case` and its `of`.
//!
//! Each token is looked at once, and each step costs the same, whatever is open.
#![tactic(auto)]

mod depth;
mod nest;
mod role;

pub use depth::{deepest, nesting};
