//! Plain expressions.

use crate::binders::PlainBinder;
use crate::decls::PlainSignature;
use crate::types::PlainType;
use psc_text::{Ident, Label, Qualified, Span, Text};
use sqlite_items::{Boxed, Items};

/// An expression.
#[cycle(exprs)]
#[derive(Drop)]
pub enum PlainExpr {
    Integer {
        value: i32,
        span: Span,
    },
    Str {
        value: Text,
        span: Span,
    },
    Character {
        value: char,
        span: Span,
    },
    Boolean {
        value: bool,
        span: Span,
    },
    Array {
        items: Items<PlainExpr>,
        span: Span,
    },
    /// Labels in the order of the source, no two of them the same.
    XRecord {
        fields: Items<PlainField>,
        span: Span,
    },
    /// A local name without a module, or a value by its true name.
    Variable {
        name: Qualified,
        span: Span,
    },
    /// A constructor by its true name.
    Constructor {
        name: Qualified,
        span: Span,
    },
    /// A function of one variable.
    Lambda {
        name: Ident,
        name_span: Span,
        body: Boxed<PlainExpr>,
        span: Span,
    },
    Application {
        function: Boxed<PlainExpr>,
        argument: Boxed<PlainExpr>,
        span: Span,
    },
    /// Each alternative has as many binders as there are scrutinees. Guards of a clause without arguments are a case of
    /// nothing.
    Case {
        scrutinees: Items<PlainExpr>,
        alternatives: Items<PlainAlt>,
        span: Span,
    },
    /// The groups stand in the order in which each may use the ones before it. `of_where` tells whether a `where` was
    /// written.
    Let {
        groups: Items<PlainBindGroup>,
        body: Boxed<PlainExpr>,
        of_where: bool,
        span: Span,
    },
    Typed {
        value: Boxed<PlainExpr>,
        x_type: Boxed<PlainType>,
        span: Span,
    },
    Access {
        subject: Boxed<PlainExpr>,
        label: Label,
        span: Span,
    },
    /// Labels in the order of the source, no two of them the same.
    Update {
        subject: Boxed<PlainExpr>,
        updates: Items<PlainField>,
        span: Span,
    },
}

/// A label of a record or of an update with its value.
#[cycle(exprs)]
#[derive(Drop)]
pub struct PlainField {
    pub label: Label,
    pub label_span: Span,
    pub value: PlainExpr,
}

/// An alternative of a `case`.
#[cycle(exprs)]
#[derive(Drop)]
pub struct PlainAlt {
    pub binders: Items<PlainBinder>,
    pub rhs: PlainRhs,
    pub span: Span,
}

#[cycle(exprs)]
#[derive(Drop)]
pub enum PlainRhs {
    Body(Boxed<PlainExpr>),
    /// At least one guard.
    Guarded(Items<PlainGuard>),
}

/// Tests, of which there is at least one, and what stands behind them.
#[cycle(exprs)]
#[derive(Drop)]
pub struct PlainGuard {
    pub tests: Items<PlainTest>,
    pub body: Boxed<PlainExpr>,
    pub span: Span,
}

#[cycle(exprs)]
#[derive(Drop)]
pub enum PlainTest {
    Holds(PlainExpr),
    Binds {
        binder: PlainBinder,
        value: PlainExpr,
        span: Span,
    },
}

/// Local bindings that reach one another, in the order of the source.
#[cycle(exprs)]
#[derive(Drop)]
pub struct PlainBindGroup {
    /// Whether a member mentions a member.
    pub recursive: bool,
    pub binds: Items<PlainBind>,
}

/// A local binding.
#[cycle(exprs)]
#[derive(Drop)]
pub struct PlainBind {
    pub name: Ident,
    pub name_span: Span,
    pub signature: Option<PlainSignature>,
    pub body: Boxed<PlainExpr>,
    /// The first clause.
    pub span: Span,
}

impl PlainExpr {
    /// The place of the whole expression.
    pub fn span(&self) -> Span {
        match self {
            PlainExpr::Integer { span, .. }
            | PlainExpr::Str { span, .. }
            | PlainExpr::Character { span, .. }
            | PlainExpr::Boolean { span, .. }
            | PlainExpr::Array { span, .. }
            | PlainExpr::XRecord { span, .. }
            | PlainExpr::Variable { span, .. }
            | PlainExpr::Constructor { span, .. }
            | PlainExpr::Lambda { span, .. }
            | PlainExpr::Application { span, .. }
            | PlainExpr::Case { span, .. }
            | PlainExpr::Let { span, .. }
            | PlainExpr::Typed { span, .. }
            | PlainExpr::Access { span, .. }
            | PlainExpr::Update { span, .. } => *span,
        }
    }
}
