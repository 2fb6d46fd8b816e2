//! The solver of type equations: rigid variables, unknowns with scopes, and equations between types.
//!
//! Types become nodes of a graph, on which the equations are solved in place; a value is read back
//! when it is asked for. Where an equation has no solution, the solver goes back to the state before
//! it, and answers that clash from then on. Knows nothing of syntax, constraints or instances.
#![tactic(auto)]

mod add;
mod equate;
mod kinds;
mod names;
mod opened;
mod read;
mod solver;
mod state;
mod tables;

pub use solver::{Clash, Solver, TypeKind};
