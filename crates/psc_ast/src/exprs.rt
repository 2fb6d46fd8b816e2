//! Expressions, local bindings, alternatives and statements.

use crate::binders::BinderTree;
use crate::names::{IdentAt, LabelAt, Mention};
use crate::types::{Sig, TypeTree};
use psc_text::{Span, Text};
use sqlite_items::{Boxed, Items};

/// An expression as written.
#[cycle(exprs)]
#[derive(Drop)]
pub enum ExprTree {
    /// `e :: t`
    Typed {
        value: Boxed<ExprTree>,
        x_type: Boxed<TypeTree>,
        span: Span,
    },
    /// Operands with operators between them, as written; there is at least one operator.
    Chain {
        first: Boxed<ExprTree>,
        rest: Items<ChainStep>,
        span: Span,
    },
    /// An operator with both operands. Bracketing makes it of chains; a parsed tree has none.
    Operation {
        op: Mention,
        left: Boxed<ExprTree>,
        right: Boxed<ExprTree>,
        span: Span,
    },
    /// `-` before an operand that is no integer.
    Negate {
        minus: Span,
        operand: Boxed<ExprTree>,
        span: Span,
    },
    /// Calls with names in backticks between them, which associate to the left; there is at least one such name.
    Ticks {
        first: Boxed<ExprTree>,
        rest: Items<TickStep>,
        span: Span,
    },
    /// A function and its arguments, of which there is at least one.
    Call {
        function: Boxed<ExprTree>,
        arguments: Items<ExprTree>,
        span: Span,
    },
    Lambda {
        binders: Items<BinderTree>,
        body: Boxed<ExprTree>,
        span: Span,
    },
    If {
        test: Boxed<ExprTree>,
        then: Boxed<ExprTree>,
        otherwise: Boxed<ExprTree>,
        span: Span,
    },
    /// Each alternative has as many binders as there are scrutinees.
    Case {
        scrutinees: Items<ExprTree>,
        alternatives: Items<Alt>,
        span: Span,
    },
    Let {
        binds: Items<Bind>,
        body: Boxed<ExprTree>,
        span: Span,
    },
    /// At least one statement, the last of which is an expression.
    Do {
        statements: Items<Stmt>,
        span: Span,
    },
    Ado {
        statements: Items<Stmt>,
        result: Boxed<ExprTree>,
        span: Span,
    },
    /// `e.a.b`: at least one label. The subject may be a `Hole`.
    Access {
        subject: Boxed<ExprTree>,
        labels: Items<LabelAt>,
        span: Span,
    },
    /// `e { a = e1, b = e2 }`: at least one update.
    Update {
        subject: Boxed<ExprTree>,
        updates: Items<Update>,
        span: Span,
    },
    /// An integer with its `-`, if that stands where an operand may have one.
    Integer {
        value: i32,
        span: Span,
    },
    Str {
        value: Text,
        span: Span,
    },
    Character {
        value: char,
        span: Span,
    },
    Boolean {
        value: bool,
        span: Span,
    },
    Variable {
        name: Mention,
    },
    Constructor {
        name: Mention,
    },
    /// `(+)` or `M.(+)`; the place of the name is inside that of the whole.
    Operator {
        name: Mention,
        span: Span,
    },
    /// `_`: an operand of a chain or of backticks that is the whole content of parentheses, before `.label`, or a scrutinee.
    Hole {
        span: Span,
    },
    Paren {
        inner: Boxed<ExprTree>,
        span: Span,
    },
    Array {
        items: Items<ExprTree>,
        span: Span,
    },
    XRecord {
        fields: Items<Field>,
        span: Span,
    },
}

/// A later operand of a chain, and the operator before it.
#[cycle(exprs)]
#[derive(Drop)]
pub struct ChainStep {
    pub op: Mention,
    pub operand: ExprTree,
}

/// A later operand of backticks, and the name before it.
#[cycle(exprs)]
#[derive(Drop)]
pub struct TickStep {
    /// A variable or a constructor.
    pub name: Mention,
    pub operand: ExprTree,
}

/// `label: e`, or `label` alone, which stands for `label: label`.
#[cycle(exprs)]
#[derive(Drop)]
pub struct Field {
    pub label: LabelAt,
    pub value: Option<Boxed<ExprTree>>,
}

/// `label = e` in an update.
#[cycle(exprs)]
#[derive(Drop)]
pub struct Update {
    pub label: LabelAt,
    pub value: Boxed<ExprTree>,
}

/// An alternative of a `case`.
#[cycle(exprs)]
#[derive(Drop)]
pub struct Alt {
    pub binders: Items<BinderTree>,
    pub rhs: Rhs,
    pub span: Span,
}

/// The right side of a clause, a binding or an alternative.
#[cycle(exprs)]
#[derive(Drop)]
pub enum Rhs {
    Plain(Branch),
    /// At least one guard.
    Guarded(Items<Guard>),
}

/// `| test, test = branch`: at least one test.
#[cycle(exprs)]
#[derive(Drop)]
pub struct Guard {
    pub tests: Items<Test>,
    pub branch: Branch,
    pub span: Span,
}

/// An expression with the bindings of its `where`, if one is written.
#[cycle(exprs)]
#[derive(Drop)]
pub struct Branch {
    pub body: Boxed<ExprTree>,
    pub locals: Option<Locals>,
}

/// A `where` and its bindings, of which there may be none.
#[cycle(exprs)]
#[derive(Drop)]
pub struct Locals {
    pub binds: Items<Bind>,
    pub span: Span,
}

/// A test of a guard.
#[cycle(exprs)]
#[derive(Drop)]
pub enum Test {
    Holds {
        value: ExprTree,
    },
    Binds {
        binder: BinderTree,
        value: ExprTree,
        span: Span,
    },
}

/// A local binding.
#[cycle(exprs)]
#[derive(Drop)]
pub enum Bind {
    Sig(Sig),
    Clause(Clause),
    /// A binder that begins with no lower name, or with one and `@`.
    Value {
        binder: BinderTree,
        rhs: Rhs,
        span: Span,
    },
}

/// A clause of a function, with no argument of a value: top-level, local or of an instance.
#[cycle(exprs)]
#[derive(Drop)]
pub struct Clause {
    pub name: IdentAt,
    pub arguments: Items<BinderTree>,
    pub rhs: Rhs,
    pub span: Span,
}

/// A statement of a `do` or `ado`.
#[cycle(exprs)]
#[derive(Drop)]
pub enum Stmt {
    Binds {
        binder: BinderTree,
        value: ExprTree,
        span: Span,
    },
    Let {
        binds: Items<Bind>,
        span: Span,
    },
    Run {
        value: ExprTree,
    },
}

impl ExprTree {
    /// The place of the whole expression; parentheses round it count.
    pub fn span(&self) -> Span {
        match self {
            ExprTree::Typed { span, .. }
            | ExprTree::Chain { span, .. }
            | ExprTree::Operation { span, .. }
            | ExprTree::Negate { span, .. }
            | ExprTree::Ticks { span, .. }
            | ExprTree::Call { span, .. }
            | ExprTree::Lambda { span, .. }
            | ExprTree::If { span, .. }
            | ExprTree::Case { span, .. }
            | ExprTree::Let { span, .. }
            | ExprTree::Do { span, .. }
            | ExprTree::Ado { span, .. }
            | ExprTree::Access { span, .. }
            | ExprTree::Update { span, .. }
            | ExprTree::Integer { span, .. }
            | ExprTree::Str { span, .. }
            | ExprTree::Character { span, .. }
            | ExprTree::Boolean { span, .. }
            | ExprTree::Operator { span, .. }
            | ExprTree::Hole { span }
            | ExprTree::Paren { span, .. }
            | ExprTree::Array { span, .. }
            | ExprTree::XRecord { span, .. } => *span,
            ExprTree::Variable { name } => name.span,
            ExprTree::Constructor { name } => name.span,
        }
    }
}

impl Stmt {
    /// The place of the whole statement.
    pub fn span(&self) -> Span {
        match self {
            Stmt::Binds { span, .. } | Stmt::Let { span, .. } => *span,
            Stmt::Run { value } => value.span(),
        }
    }
}

impl Bind {
    /// The place of the whole binding.
    pub fn span(&self) -> Span {
        match self {
            Bind::Sig(sig) => sig.span,
            Bind::Clause(clause) => clause.span,
            Bind::Value { span, .. } => *span,
        }
    }
}
