//! From what is written to the plain forms that typing reads.
//!
//! Input: a module whose names are resolved and whose operators are trees. Output: its plain form, or the first clause, name or
//! label that cannot stand where it does.
//! A name that the source does not have is `$` and a number. The numbers count from 0 in each declaration, in the order of the
//! first tokens of the forms that need them.
#![tactic(auto)]

mod ado;
mod binds;
mod calls;
mod clauses;
mod decls;
mod exprs;
mod functions;
mod heads;
mod layers;
mod plain;
mod rights;
mod statements;
mod type_decls;
mod values;

pub use plain::desugar;
