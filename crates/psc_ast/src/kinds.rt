//! Kinds, and type variables with theirs.

use crate::names::IdentAt;
use psc_text::Span;
use sqlite_items::{Boxed, Items};

/// A kind as written.
#[derive(Drop)]
pub enum KindTree {
    XType {
        span: Span,
    },
    Constraint {
        span: Span,
    },
    Symbol {
        span: Span,
    },
    /// `Row` written once or more, and the kind after it: `Row Row k` has 2 rows.
    Row {
        rows: u32,
        of: Boxed<KindTree>,
        span: Span,
    },
    /// `k1 -> .. -> kn -> k`, where `from` has at least one kind.
    Arrow {
        from: Items<KindTree>,
        to: Boxed<KindTree>,
        span: Span,
    },
    Paren {
        inner: Boxed<KindTree>,
        span: Span,
    },
}

/// A variable of a head or of a `forall`, with its kind if one is written.
#[derive(Drop)]
pub struct TypeVar {
    pub name: IdentAt,
    pub kind: Option<KindTree>,
    pub span: Span,
}

impl KindTree {
    /// The place of the whole kind.
    pub fn span(&self) -> Span {
        match self {
            KindTree::XType { span }
            | KindTree::Constraint { span }
            | KindTree::Symbol { span }
            | KindTree::Row { span, .. }
            | KindTree::Arrow { span, .. }
            | KindTree::Paren { span, .. } => *span,
        }
    }
}
