//! Plain types: operators are applied constructors, and arrows and braces are `Prim.Function` and `Prim.Record`.

use psc_text::{Ident, Label, Qualified, Span, Text};
use psc_type::Kind;
use sqlite_items::{Boxed, Items};

/// A written type.
#[cycle(types)]
#[derive(Drop)]
pub enum PlainType {
    Variable {
        name: Ident,
        span: Span,
    },
    /// A type, a synonym or a class by its true name.
    Constructor {
        name: Qualified,
        span: Span,
    },
    /// One argument. A use of a synonym is the synonym applied so.
    Application {
        function: Boxed<PlainType>,
        argument: Boxed<PlainType>,
        span: Span,
    },
    /// One variable; without a kind where none is written.
    Forall {
        name: Ident,
        kind: Option<Kind>,
        body: Boxed<PlainType>,
        span: Span,
    },
    /// One constraint.
    Given {
        constraint: PlainConstraint,
        body: Boxed<PlainType>,
        span: Span,
    },
    /// Fields in their order, and the type behind `|`.
    Row {
        fields: Items<PlainRowField>,
        tail: Option<Boxed<PlainType>>,
        span: Span,
    },
    Symbol {
        value: Text,
        span: Span,
    },
}

/// A class and its arguments.
#[cycle(types)]
#[derive(Drop)]
pub struct PlainConstraint {
    pub class: Qualified,
    pub class_span: Span,
    pub arguments: Items<PlainType>,
    pub span: Span,
}

#[cycle(types)]
#[derive(Drop)]
pub struct PlainRowField {
    pub label: Label,
    pub label_span: Span,
    pub x_type: PlainType,
}

impl PlainType {
    /// The place of the whole type.
    pub fn span(&self) -> Span {
        match self {
            PlainType::Variable { span, .. }
            | PlainType::Constructor { span, .. }
            | PlainType::Application { span, .. }
            | PlainType::Forall { span, .. }
            | PlainType::Given { span, .. }
            | PlainType::Row { span, .. }
            | PlainType::Symbol { span, .. } => *span,
        }
    }
}
