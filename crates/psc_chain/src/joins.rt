//! Trees that operators can join.

ghost use Rattle.std.specs.Prelude.{IfOk};
ghost use Rattle.psc_ast.specs.declared.names.Mention.{Mention};
ghost use Rattle.psc_chain.specs.Built.{JoinsExprs, JoinsBinders, JoinsTypes};

use psc_ast::{BinderTree, ExprTree, Mention, TypeTree};
use psc_text::{NoMemory, Span};
use sqlite_items::Boxed;
use std::alloc::Global;

/// A tree that operators can join.
pub trait Joins: Drop {
    /// The operator, its left and its right operand, and the tree of them.
    ghost is_operation: { Mention → Self → Self → Self → Type 0 };

    /// An operator with both operands. Its place is that of both.
    fn operation(alloc: Global, op: Mention, left: Self, right: Self) -> Result<Self, NoMemory>
        ensures { IfOk result (is_operation op left right) };

    /// What stands in the place of a chain that has no tree, until the module is dropped.
    fn nothing(span: Span) -> Self;
}

impl Joins for ExprTree {
    ghost is_operation = { JoinsExprs };

    fn operation(
        alloc: Global,
        op: Mention,
        left: ExprTree,
        right: ExprTree,
    ) -> Result<ExprTree, NoMemory> {
        let span = left.span().to(right.span());
        let left = Boxed::new(alloc, left)?;
        let right = Boxed::new(alloc, right)?;
        Ok(ExprTree::Operation {
            op,
            left,
            right,
            span,
        })
    }

    fn nothing(span: Span) -> ExprTree {
        ExprTree::Hole { span }
    }
}

impl Joins for BinderTree {
    ghost is_operation = { JoinsBinders };

    fn operation(
        alloc: Global,
        op: Mention,
        left: BinderTree,
        right: BinderTree,
    ) -> Result<BinderTree, NoMemory> {
        let span = left.span().to(right.span());
        let left = Boxed::new(alloc, left)?;
        let right = Boxed::new(alloc, right)?;
        Ok(BinderTree::Operation {
            op,
            left,
            right,
            span,
        })
    }

    fn nothing(span: Span) -> BinderTree {
        BinderTree::Wild { span }
    }
}

impl Joins for TypeTree {
    ghost is_operation = { JoinsTypes };

    fn operation(
        alloc: Global,
        op: Mention,
        left: TypeTree,
        right: TypeTree,
    ) -> Result<TypeTree, NoMemory> {
        let span = left.span().to(right.span());
        let left = Boxed::new(alloc, left)?;
        let right = Boxed::new(alloc, right)?;
        Ok(TypeTree::Operation {
            op,
            left,
            right,
            span,
        })
    }

    fn nothing(span: Span) -> TypeTree {
        TypeTree::Function { span }
    }
}
