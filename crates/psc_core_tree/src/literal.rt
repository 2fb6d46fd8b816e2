//! Literals of expressions.

use crate::expr::CoreExpr;
use psc_text::{Label, Text};
use sqlite_items::Items;

/// A literal of an expression.
#[cycle(core)]
#[derive(Drop)]
pub enum Literal {
    Int(i32),
    Str(Text),
    Char(char),
    Bool(bool),
    Array(Items<CoreExpr>),
    /// The fields in the order of the source.
    Object(Items<Field>),
}

/// An expression under a label.
#[cycle(core)]
#[derive(Drop)]
pub struct Field {
    pub label: Label,
    pub value: CoreExpr,
}
