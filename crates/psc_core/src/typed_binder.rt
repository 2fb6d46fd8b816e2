//! Binders of the typed core: what an alternative compares a value with, and the type of each place.

use psc_core_tree::Ann;
use psc_text::{Ident, Label, Qualified, Text};
use psc_type::Ty;
use sqlite_items::{Boxed, Items};

/// A binder. `at` is the type of its place.
#[cycle(typed_binder)]
#[derive(Drop)]
pub struct TypedBinder {
    pub ann: Ann,
    pub at: Ty,
    pub form: BinderForm,
}

/// What a binder consists of.
#[cycle(typed_binder)]
#[derive(Drop)]
pub enum BinderForm {
    /// `_`
    Wild,
    Var {
        name: Ident,
    },
    /// `x@p`
    Named {
        name: Ident,
        inner: Boxed<TypedBinder>,
    },
    Lit {
        value: BinderLit,
    },
    /// A constructor of the type `parent`, and a binder for each of its fields.
    Ctor {
        name: Qualified,
        parent: Qualified,
        parts: Items<TypedBinder>,
    },
}

/// A literal of a binder.
#[cycle(typed_binder)]
#[derive(Drop)]
pub enum BinderLit {
    Int(i32),
    Str(Text),
    Char(char),
    Bool(bool),
    Array(Items<TypedBinder>),
    /// The fields in the order of the source. A value may have others.
    Object(Items<TypedBinderField>),
}

/// A binder under a label.
#[cycle(typed_binder)]
#[derive(Drop)]
pub struct TypedBinderField {
    pub label: Label,
    pub value: TypedBinder,
}
