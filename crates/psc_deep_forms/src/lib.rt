//! Forms of PureScript that this compiler does not have, found in items that nest too deep to be read by a descent.
//!
//! It is the grammar once more, without trees: what is still to be read of an item is a stack of goals, so that no source
//! makes anything deeper than that stack. Each symbol is looked at a limited number of times, whatever is open. The answer
//! is that of the descent, were there no limit to it: a form counts where the grammar meets it, and an item that breaks
//! off before has none. Forms that tokens alone tell are not looked for.
#![tactic(auto)]

mod ahead;
mod binders;
mod blocks;
mod decls;
mod exprs;
mod goal;
mod read;
mod records;
mod run;
mod types;

pub use run::has_deep_form;
