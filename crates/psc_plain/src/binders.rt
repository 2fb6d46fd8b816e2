//! Plain binders: an operator is its constructor, and `x@y@b` is one name at a time.

use crate::types::PlainType;
use psc_text::{Ident, Label, Qualified, Span, Text};
use sqlite_items::{Boxed, Items};

/// A binder.
#[cycle(binders)]
#[derive(Drop)]
pub enum PlainBinder {
    Wild {
        span: Span,
    },
    Variable {
        name: Ident,
        span: Span,
    },
    /// `name@inner`; the span is that of both, `name_span` that of the name alone.
    Named {
        name: Ident,
        name_span: Span,
        inner: Boxed<PlainBinder>,
        span: Span,
    },
    Integer {
        value: i32,
        span: Span,
    },
    Str {
        value: Text,
        span: Span,
    },
    Character {
        value: char,
        span: Span,
    },
    Boolean {
        value: bool,
        span: Span,
    },
    /// A constructor by its true name with its arguments, of which there may be none.
    Constructor {
        name: Qualified,
        name_span: Span,
        arguments: Items<PlainBinder>,
        span: Span,
    },
    Array {
        items: Items<PlainBinder>,
        span: Span,
    },
    XRecord {
        fields: Items<PlainBinderField>,
        span: Span,
    },
    Typed {
        inner: Boxed<PlainBinder>,
        x_type: Boxed<PlainType>,
        span: Span,
    },
}

#[cycle(binders)]
#[derive(Drop)]
pub struct PlainBinderField {
    pub label: Label,
    pub label_span: Span,
    pub value: PlainBinder,
}

impl PlainBinder {
    /// The place of the whole binder.
    pub fn span(&self) -> Span {
        match self {
            PlainBinder::Wild { span }
            | PlainBinder::Variable { span, .. }
            | PlainBinder::Named { span, .. }
            | PlainBinder::Integer { span, .. }
            | PlainBinder::Str { span, .. }
            | PlainBinder::Character { span, .. }
            | PlainBinder::Boolean { span, .. }
            | PlainBinder::Constructor { span, .. }
            | PlainBinder::Array { span, .. }
            | PlainBinder::XRecord { span, .. }
            | PlainBinder::Typed { span, .. } => *span,
        }
    }
}
