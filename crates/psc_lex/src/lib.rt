//! A source as its tokens, with the blocks that they stand in.
//!
//! A token is the longest spelling that begins at its place. Blocks are told by the columns of the
//! tokens; each token's mark says which blocks end before it, whether an item begins with it, and
//! which block it opens.
#![tactic(auto)]

mod blocks;
mod class;
mod common;
mod cut;
mod layout;
mod lex;
mod machine;
mod openers;
mod raw;
mod sign;
mod token;
mod words;

pub use lex::lex_layout;
pub use sign::Sign;
pub use token::{Mark, Opens, Tok, TokKind};
