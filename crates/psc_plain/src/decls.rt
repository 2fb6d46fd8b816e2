//! Plain declarations.

use crate::exprs::PlainExpr;
use crate::types::{PlainConstraint, PlainType};
use psc_text::{Ident, Qualified, Span, Text};
use psc_type::Kind;
use sqlite_items::Items;

/// A written signature.
#[derive(Drop)]
pub struct PlainSignature {
    pub x_type: PlainType,
    /// The whole signature, from its name on.
    pub span: Span,
}

/// A top-level value, or a member of an instance.
#[derive(Drop)]
pub struct PlainValue {
    pub name: Ident,
    pub name_span: Span,
    pub signature: Option<PlainSignature>,
    pub body: PlainExpr,
    /// The first clause.
    pub span: Span,
}

/// `foreign import f :: t`
#[derive(Drop)]
pub struct PlainForeign {
    pub name: Ident,
    pub name_span: Span,
    pub x_type: PlainType,
    pub span: Span,
}

/// A type variable of a head, with its kind if one is written.
#[derive(Drop)]
pub struct PlainVar {
    pub name: Ident,
    pub kind: Option<Kind>,
    pub span: Span,
}

/// A type, a synonym or a class. The kind is the one that a kind signature before the declaration states.
#[derive(Drop)]
pub enum PlainTypeDecl {
    XData(PlainData),
    Synonym(PlainSynonym),
    /// `foreign import data T :: k`
    Foreign {
        name: Text,
        name_span: Span,
        kind: Kind,
        span: Span,
    },
    Class(PlainClass),
}

#[derive(Drop)]
pub struct PlainData {
    pub name: Text,
    pub name_span: Span,
    pub is_newtype: bool,
    pub kind: Option<Kind>,
    pub vars: Items<PlainVar>,
    pub ctors: Items<PlainCtor>,
    pub span: Span,
}

/// A constructor with the types of its fields.
#[derive(Drop)]
pub struct PlainCtor {
    pub name: Text,
    pub name_span: Span,
    pub fields: Items<PlainType>,
    /// The name and the fields.
    pub span: Span,
}

#[derive(Drop)]
pub struct PlainSynonym {
    pub name: Text,
    pub name_span: Span,
    pub kind: Option<Kind>,
    pub vars: Items<PlainVar>,
    pub body: PlainType,
    pub span: Span,
}

#[derive(Drop)]
pub struct PlainClass {
    pub name: Text,
    pub name_span: Span,
    pub kind: Option<Kind>,
    pub supers: Items<PlainConstraint>,
    pub vars: Items<PlainVar>,
    pub deps: Items<PlainDep>,
    pub members: Items<PlainMember>,
    pub span: Span,
}

/// A functional dependency by the places of the class's variables, from 0 on.
#[derive(Drop)]
pub struct PlainDep {
    pub from: Items<u32>,
    pub to: Items<u32>,
}

/// A member of a class with its signature.
#[derive(Drop)]
pub struct PlainMember {
    pub name: Ident,
    pub name_span: Span,
    pub x_type: PlainType,
    pub span: Span,
}

#[derive(Drop)]
pub struct PlainInstance {
    /// The written name, or the one made of the class and the constructors of the head.
    pub name: Ident,
    /// Whether it goes on the chain of the instance before it.
    pub goes_on: bool,
    pub context: Items<PlainConstraint>,
    pub class: Qualified,
    pub class_span: Span,
    pub head: Items<PlainType>,
    pub members: Items<PlainValue>,
    pub span: Span,
}

impl PlainTypeDecl {
    /// The declared name.
    pub fn name(&self) -> &Text {
        match self {
            PlainTypeDecl::XData(decl) => &decl.name,
            PlainTypeDecl::Synonym(decl) => &decl.name,
            PlainTypeDecl::Foreign { name, .. } => name,
            PlainTypeDecl::Class(decl) => &decl.name,
        }
    }

    /// The place of the whole declaration.
    pub fn span(&self) -> Span {
        match self {
            PlainTypeDecl::XData(decl) => decl.span,
            PlainTypeDecl::Synonym(decl) => decl.span,
            PlainTypeDecl::Foreign { span, .. } => *span,
            PlainTypeDecl::Class(decl) => decl.span,
        }
    }
}
