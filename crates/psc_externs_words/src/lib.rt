//! Types, kinds and constraints of interface files as lists of words, and back.
//!
//! A list of words has each form before its parts. It is read from its last word to its first, with a
//! stack of what the words so far have made, so that no list makes the reader recurse.
#![tactic(auto)]

mod forms;
mod stack;
mod words;
mod words_read;

pub use forms::{constraint_words, kind_words, read_constraint, read_kind, read_type, type_words};
pub use words_read::cut_at_last_dot;
