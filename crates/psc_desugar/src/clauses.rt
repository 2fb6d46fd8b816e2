//! Clauses in plain forms.
//!
//! Successive clauses are functions of made names over a case of all arguments; one clause of variables alone without guards keeps
//! its names.

use crate::functions::{enter_variables, named_lambdas};
use crate::heads::Clauses;
use crate::rights::{alternative_of, right_value};
use psc_ast::{Clause, Rhs};
use psc_plain::PlainExpr;
use psc_plain_parts::{Desugar, Mark, Stop, all_variables};

/// Whether a clause that stands alone keeps its names: it has variables alone and no guards.
fn keeps_names(clause: &Clause) -> bool {
    matches!(clause.rhs, Rhs::Plain(_)) && all_variables(clause.arguments.as_slice())
}

/// Adds a clause to those of its declaration.
#[cycle(exprs)]
pub(crate) fn add_clause(
    state: &mut Desugar,
    clause: &Clause,
    mark: Mark,
    clauses: &mut Clauses,
) -> Result<(), Stop> {
    if mark.is_alone() && keeps_names(clause) {
        let value = named_clause(state, clause)?;
        clauses.named = Some(value);
        return Ok(());
    }
    clauses.begin(state, clause, mark)?;
    let alt = alternative_of(state, &clause.rhs, clause.arguments.as_slice(), clause.span)?;
    clauses.alternatives.push(alt)?;
    Ok(())
}

#[cycle(exprs)]
fn named_clause(state: &mut Desugar, clause: &Clause) -> Result<PlainExpr, Stop> {
    let mark = state.scope.mark();
    enter_variables(state, clause.arguments.as_slice())?;
    let body = right_value(state, &clause.rhs, clause.span)?;
    state.scope.leave(mark);
    Ok(named_lambdas(state.alloc, clause.arguments.as_slice(), body, clause.span)?)
}
