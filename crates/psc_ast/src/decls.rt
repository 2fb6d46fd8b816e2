//! Declarations.

use crate::exprs::Clause;
use crate::kinds::{KindTree, TypeVar};
use crate::names::{IdentAt, Mention, OpAt, UpperAt};
use crate::order::{KindOf, Side};
use crate::types::{Constr, Sig, TypeTree};
use psc_text::Span;
use sqlite_items::Items;

/// A declaration as written. Clauses of one name that follow one another are not joined here.
#[derive(Drop)]
pub enum Decl {
    XData(DataDecl),
    /// One constructor with one argument.
    Newtype(DataDecl),
    Synonym(SynonymDecl),
    /// `data T :: k`, and the same with `newtype`, `type` and `class`.
    KindSig {
        of: KindOf,
        name: UpperAt,
        kind: KindTree,
        span: Span,
    },
    /// `foreign import f :: t`
    ForeignValue {
        sig: Sig,
        span: Span,
    },
    /// `foreign import data T :: k`
    ForeignData {
        name: UpperAt,
        kind: KindTree,
        span: Span,
    },
    Class(ClassDecl),
    Instance(InstanceDecl),
    Fixity(FixityDecl),
    Sig(Sig),
    Clause(Clause),
}

#[derive(Drop)]
pub struct DataDecl {
    pub name: UpperAt,
    pub vars: Items<TypeVar>,
    pub ctors: Items<Ctor>,
    pub span: Span,
}

/// A constructor with the types of its fields.
#[derive(Drop)]
pub struct Ctor {
    pub name: UpperAt,
    pub fields: Items<TypeTree>,
    pub span: Span,
}

#[derive(Drop)]
pub struct SynonymDecl {
    pub name: UpperAt,
    pub vars: Items<TypeVar>,
    pub body: TypeTree,
    pub span: Span,
}

#[derive(Drop)]
pub struct ClassDecl {
    pub supers: Items<Constr>,
    pub name: UpperAt,
    pub vars: Items<TypeVar>,
    pub deps: Items<Dep>,
    pub members: Items<Sig>,
    pub span: Span,
}

/// A functional dependency: the first list may be empty, the second is not.
#[derive(Drop)]
pub struct Dep {
    pub from: Items<IdentAt>,
    pub to: Items<IdentAt>,
    pub span: Span,
}

#[derive(Drop)]
pub struct InstanceDecl {
    /// Whether it begins with `else`, and so goes on the chain of the instance before it.
    pub goes_on: bool,
    pub name: Option<IdentAt>,
    pub context: Items<Constr>,
    pub class: Mention,
    pub arguments: Items<TypeTree>,
    pub members: Items<Clause>,
    pub span: Span,
}

/// `infixl 6 f as +`
#[derive(Drop)]
pub struct FixityDecl {
    pub side: Side,
    /// From 0 to 9.
    pub power: u8,
    pub of_types: bool,
    /// A value, a constructor or, of types, a type.
    pub target: Mention,
    pub op: OpAt,
    pub span: Span,
}

impl Decl {
    /// The place of the whole declaration: from its first token to its last.
    pub fn span(&self) -> Span {
        match self {
            Decl::XData(decl) | Decl::Newtype(decl) => decl.span,
            Decl::Synonym(decl) => decl.span,
            Decl::KindSig { span, .. }
            | Decl::ForeignValue { span, .. }
            | Decl::ForeignData { span, .. } => *span,
            Decl::Class(decl) => decl.span,
            Decl::Instance(decl) => decl.span,
            Decl::Fixity(decl) => decl.span,
            Decl::Sig(sig) => sig.span,
            Decl::Clause(clause) => clause.span,
        }
    }
}
