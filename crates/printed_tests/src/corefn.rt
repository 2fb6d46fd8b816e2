//! The CoreFn text, whole, against texts that were written by hand.

mod forms;
mod modules;
