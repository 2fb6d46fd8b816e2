//! The JavaScript text of trees, whole, against texts that were written by hand.

mod modules;
mod texts;
