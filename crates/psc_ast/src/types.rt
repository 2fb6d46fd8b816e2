//! Types, rows and constraints.

use crate::kinds::TypeVar;
use crate::names::{IdentAt, LabelAt, Mention};
use psc_text::{Span, Text};
use sqlite_items::{Boxed, Items};

/// A type as written.
#[cycle(types)]
#[derive(Drop)]
pub enum TypeTree {
    /// `forall a. C a => t -> u`: what stands before the last arrow or dot, in order, and the type behind it.
    /// There is at least one prefix.
    Prefixed {
        prefixes: Items<TypePrefix>,
        result: Boxed<TypeTree>,
        span: Span,
    },
    /// Operands with operators between them, as written; there is at least one operator.
    Chain {
        first: Boxed<TypeTree>,
        rest: Items<TypeStep>,
        span: Span,
    },
    /// An operator with both operands. Bracketing makes it of chains; a parsed tree has none.
    Operation {
        op: Mention,
        left: Boxed<TypeTree>,
        right: Boxed<TypeTree>,
        span: Span,
    },
    /// A type and its arguments, of which there is at least one.
    Application {
        function: Boxed<TypeTree>,
        arguments: Items<TypeTree>,
        span: Span,
    },
    Variable {
        name: IdentAt,
    },
    Constructor {
        name: Mention,
    },
    /// `(->)`
    Function {
        span: Span,
    },
    Str {
        value: Text,
        span: Span,
    },
    Paren {
        inner: Boxed<TypeTree>,
        span: Span,
    },
    /// A row in parentheses.
    Row {
        row: RowTree,
        span: Span,
    },
    /// A row in braces.
    XRecord {
        row: RowTree,
        span: Span,
    },
}

/// What may stand before a type. Its place ends with its dot, `=>` or `->`.
#[cycle(types)]
#[derive(Drop)]
pub enum TypePrefix {
    /// `forall a b.`
    Forall {
        vars: Items<TypeVar>,
        span: Span,
    },
    /// `(C a, D b) =>`
    Given {
        constraints: Items<Constr>,
        span: Span,
    },
    /// `t ->`
    Argument {
        x_type: TypeTree,
        span: Span,
    },
}

/// A later operand of a chain, and the operator before it.
#[cycle(types)]
#[derive(Drop)]
pub struct TypeStep {
    pub op: Mention,
    pub operand: TypeTree,
}

/// A constraint: a class and its arguments.
#[cycle(types)]
#[derive(Drop)]
pub struct Constr {
    pub class: Mention,
    pub arguments: Items<TypeTree>,
    pub span: Span,
}

/// A row: fields in their order, and the type behind `|`.
#[cycle(types)]
#[derive(Drop)]
pub struct RowTree {
    pub fields: Items<RowField>,
    pub tail: Option<Boxed<TypeTree>>,
}

/// `label :: type`
#[cycle(types)]
#[derive(Drop)]
pub struct RowField {
    pub label: LabelAt,
    pub x_type: TypeTree,
}

/// A signature `name :: type`: of a value, of a local binding or of a class's member.
#[derive(Drop)]
pub struct Sig {
    pub name: IdentAt,
    pub x_type: TypeTree,
    pub span: Span,
}

impl TypeTree {
    /// The place of the whole type; parentheses round it count.
    pub fn span(&self) -> Span {
        match self {
            TypeTree::Prefixed { span, .. }
            | TypeTree::Chain { span, .. }
            | TypeTree::Operation { span, .. }
            | TypeTree::Application { span, .. }
            | TypeTree::Function { span }
            | TypeTree::Str { span, .. }
            | TypeTree::Paren { span, .. }
            | TypeTree::Row { span, .. }
            | TypeTree::XRecord { span, .. } => *span,
            TypeTree::Variable { name } => name.span,
            TypeTree::Constructor { name } => name.span,
        }
    }
}
