//! Names with their places.
//!
//! A mention is a use of something that is declared elsewhere; the others stand where a name is brought in.

use psc_text::{Ident, Label, ModuleName, OpName, Qualified, Span, Text};

/// The name of a value or of a type variable, where it is declared or bound.
#[derive(Debug, Drop)]
pub struct IdentAt {
    pub name: Ident,
    pub span: Span,
}

/// An upper name that is declared or listed: of a type, a class or a constructor.
#[derive(Debug, Drop)]
pub struct UpperAt {
    pub name: Text,
    pub span: Span,
}

/// An operator that is declared or listed, without its parentheses.
#[derive(Debug, Drop)]
pub struct OpAt {
    pub op: OpName,
    pub span: Span,
}

/// A label, decoded where it is written as a string.
#[derive(Debug, Drop)]
pub struct LabelAt {
    pub label: Label,
    pub span: Span,
}

/// The name of a module.
#[derive(Debug, Drop)]
pub struct ModuleAt {
    pub name: ModuleName,
    pub span: Span,
}

/// A use of a name. As parsed it has the module that is written before it; once names are resolved it is the true name,
/// and a local name has no module.
///
/// The place of an operator in parentheses is the operator's alone, or that of the whole `M.(+)`.
#[derive(Debug, Drop)]
pub struct Mention {
    pub name: Qualified,
    pub span: Span,
}
