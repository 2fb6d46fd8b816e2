//! Modules, export lists and imports.

use crate::decls::Decl;
use crate::names::{IdentAt, ModuleAt, OpAt, UpperAt};
use psc_text::Span;
use sqlite_items::Items;

/// A module as written.
#[derive(Drop)]
pub struct Module {
    pub name: ModuleAt,
    /// The token `module`, where errors of the whole module stand.
    pub header: Span,
    /// The line of the module's `where`.
    pub where_line: u32,
    /// None where no list is written.
    pub exports: Option<Items<Export>>,
    pub imports: Items<ImportTree>,
    pub decls: Items<Decl>,
    /// From the first token to the last.
    pub span: Span,
}

/// A member of an export list.
#[derive(Drop)]
pub enum Export {
    Ref(Ref),
    /// `module M`
    Module { name: ModuleAt, span: Span },
}

/// A member of an export or import list. `span` is the whole member.
#[derive(Drop)]
pub enum Ref {
    Value {
        name: IdentAt,
    },
    /// `(+)`
    Operator {
        op: OpAt,
        span: Span,
    },
    /// `T`, `T(..)` or `T(A, B)`
    XType {
        name: UpperAt,
        ctors: Ctors,
        span: Span,
    },
    /// `class C`
    Class {
        name: UpperAt,
        span: Span,
    },
    /// `type (+)`
    TypeOperator {
        op: OpAt,
        span: Span,
    },
}

/// The constructors that a reference to a type brings.
#[derive(Drop)]
pub enum Ctors {
    /// Nothing is written behind the type.
    Absent,
    /// `(..)`
    All,
    /// The written ones, of which there may be none.
    Listed(Items<UpperAt>),
}

/// An import as written.
#[derive(Drop)]
pub struct ImportTree {
    pub module: ModuleAt,
    pub list: ImportList,
    /// The name behind `as`.
    pub alias: Option<ModuleAt>,
    pub span: Span,
}

/// What an import takes.
#[derive(Drop)]
pub enum ImportList {
    /// Everything: no list is written.
    All,
    Only(Items<Ref>),
    Hiding(Items<Ref>),
}

impl Ref {
    /// The place of the whole reference.
    pub fn span(&self) -> Span {
        match self {
            Ref::Value { name } => name.span,
            Ref::Operator { span, .. }
            | Ref::XType { span, .. }
            | Ref::Class { span, .. }
            | Ref::TypeOperator { span, .. } => *span,
        }
    }

    /// The place of the name inside the reference.
    pub fn name_span(&self) -> Span {
        match self {
            Ref::Value { name } => name.span,
            Ref::Operator { op, .. } | Ref::TypeOperator { op, .. } => op.span,
            Ref::XType { name, .. } | Ref::Class { name, .. } => name.span,
        }
    }
}

impl Export {
    /// The place of the whole export.
    pub fn span(&self) -> Span {
        match self {
            Export::Ref(reference) => reference.span(),
            Export::Module { span, .. } => *span,
        }
    }
}
