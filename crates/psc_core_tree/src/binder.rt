//! Binders: what an alternative compares a value with.

use crate::ann::Ann;
use psc_text::{Ident, Label, Qualified, Text};
use sqlite_items::{Boxed, Items};

/// A pattern. A name of a constructor or of a type has its module.
#[cycle(binder)]
#[derive(Drop)]
pub enum CoreBinder {
    /// `_`
    Null {
        ann: Ann,
    },
    Literal {
        ann: Ann,
        value: BinderLiteral,
    },
    Var {
        ann: Ann,
        name: Ident,
    },
    Constructor {
        ann: Ann,
        type_name: Qualified,
        constructor_name: Qualified,
        binders: Items<CoreBinder>,
    },
    /// `x@p`
    Named {
        ann: Ann,
        name: Ident,
        binder: Boxed<CoreBinder>,
    },
}

/// A literal of a binder.
#[cycle(binder)]
#[derive(Drop)]
pub enum BinderLiteral {
    Int(i32),
    Str(Text),
    Char(char),
    Bool(bool),
    Array(Items<CoreBinder>),
    /// The fields in the order of the source. A value may have others.
    Object(Items<BinderField>),
}

/// A binder under a label.
#[cycle(binder)]
#[derive(Drop)]
pub struct BinderField {
    pub label: Label,
    pub value: CoreBinder,
}
