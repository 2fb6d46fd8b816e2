//! Binders: what stands left of `=`, `->` and `<-`.

use crate::names::{IdentAt, LabelAt, Mention};
use crate::types::TypeTree;
use psc_text::{Span, Text};
use sqlite_items::{Boxed, Items};

/// A binder as written. `(x)` is a `Paren` and no `Variable`.
#[cycle(binders)]
#[derive(Drop)]
pub enum BinderTree {
    /// Operands with operators between them, as written; there is at least one operator.
    Chain {
        first: Boxed<BinderTree>,
        rest: Items<BinderStep>,
        span: Span,
    },
    /// An operator with both operands. Bracketing makes it of chains; a parsed tree has none.
    Operation {
        op: Mention,
        left: Boxed<BinderTree>,
        right: Boxed<BinderTree>,
        span: Span,
    },
    /// A constructor and its arguments, of which there may be none.
    Constructor {
        name: Mention,
        arguments: Items<BinderTree>,
        span: Span,
    },
    Variable {
        name: IdentAt,
    },
    /// `x@y@b`: one name or more, outermost first, and the binder behind the last `@`.
    Named {
        names: Items<IdentAt>,
        inner: Boxed<BinderTree>,
        span: Span,
    },
    Wild {
        span: Span,
    },
    /// An integer with its `-`, if any.
    Integer {
        value: i32,
        span: Span,
    },
    Str {
        value: Text,
        span: Span,
    },
    Character {
        value: char,
        span: Span,
    },
    Boolean {
        value: bool,
        span: Span,
    },
    Paren {
        inner: Boxed<BinderTree>,
        span: Span,
    },
    /// `(b :: t)`
    Typed {
        inner: Boxed<BinderTree>,
        x_type: Boxed<TypeTree>,
        span: Span,
    },
    Array {
        items: Items<BinderTree>,
        span: Span,
    },
    XRecord {
        fields: Items<BinderField>,
        span: Span,
    },
}

/// A later operand of a chain, and the operator before it.
#[cycle(binders)]
#[derive(Drop)]
pub struct BinderStep {
    pub op: Mention,
    pub operand: BinderTree,
}

/// `label: binder`, or `label` alone, which binds the variable of that name.
#[cycle(binders)]
#[derive(Drop)]
pub struct BinderField {
    pub label: LabelAt,
    pub value: Option<Boxed<BinderTree>>,
}

impl BinderTree {
    /// The place of the whole binder; parentheses round it count.
    pub fn span(&self) -> Span {
        match self {
            BinderTree::Chain { span, .. }
            | BinderTree::Operation { span, .. }
            | BinderTree::Constructor { span, .. }
            | BinderTree::Named { span, .. }
            | BinderTree::Wild { span }
            | BinderTree::Integer { span, .. }
            | BinderTree::Str { span, .. }
            | BinderTree::Character { span, .. }
            | BinderTree::Boolean { span, .. }
            | BinderTree::Paren { span, .. }
            | BinderTree::Typed { span, .. }
            | BinderTree::Array { span, .. }
            | BinderTree::XRecord { span, .. } => *span,
            BinderTree::Variable { name } => name.span,
        }
    }
}
