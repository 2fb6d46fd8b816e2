//! Expressions and local bindings of the typed core.
//!
//! Types and classes stand where they are used: a polymorphic value is a lambda over types and is
//! applied to types, a constrained one is a lambda over dictionaries and is applied to evidence.

use crate::evidence::Evidence;
use crate::typed_binder::TypedBinder;
use psc_core_tree::Ann;
use psc_text::{Ident, Label, Qualified, Text};
use psc_type::{Constraint, Kind, Ty};
use sqlite_items::{Boxed, Items};

/// An expression.
#[cycle(typed)]
#[derive(Drop)]
pub struct Typed {
    pub ann: Ann,
    pub form: TypedForm,
}

/// What an expression consists of.
#[cycle(typed)]
#[derive(Drop)]
pub enum TypedForm {
    Lit {
        value: TypedLit,
    },
    /// The function that makes a value of the type `parent`. It stands only as a constructor's own
    /// binding; a use of a constructor is a `Name`.
    Ctor {
        name: Qualified,
        parent: Qualified,
    },
    Get {
        subject: Boxed<Typed>,
        label: Label,
    },
    /// The updates stand in the order of the source.
    Update {
        subject: Boxed<Typed>,
        updates: Items<TypedField>,
    },
    Abs {
        name: Ident,
        param: Ty,
        body: Boxed<Typed>,
    },
    App {
        function: Boxed<Typed>,
        argument: Boxed<Typed>,
    },
    /// A local name has no module.
    Name {
        name: Qualified,
    },
    /// Each row has a binder for each subject. `result` is the type of the whole.
    Case {
        subjects: Items<Typed>,
        rows: Items<TypedRow>,
        result: Ty,
    },
    Let {
        groups: Items<LocalGroup>,
        body: Boxed<Typed>,
    },
    /// A lambda over a type.
    TyAbs {
        name: Ident,
        kind: Kind,
        body: Boxed<Typed>,
    },
    TyApp {
        function: Boxed<Typed>,
        argument: Ty,
    },
    /// A lambda over the dictionary of a constraint.
    DictAbs {
        name: Ident,
        constraint: Constraint,
        body: Boxed<Typed>,
    },
    DictApp {
        function: Boxed<Typed>,
        evidence: Evidence,
    },
}

/// A literal.
#[cycle(typed)]
#[derive(Drop)]
pub enum TypedLit {
    Int(i32),
    Str(Text),
    Char(char),
    Bool(bool),
    Array {
        element: Ty,
        items: Items<Typed>,
    },
    /// The fields in the order of the source.
    Object(Items<TypedField>),
    /// The record of an instance: evidence of the superclasses, and the members. It stands nowhere
    /// else.
    Dict {
        supers: Items<Evidence>,
        members: Items<TypedField>,
    },
}

/// An expression under a label.
#[cycle(typed)]
#[derive(Drop)]
pub struct TypedField {
    pub label: Label,
    pub value: Typed,
}

/// An alternative of a case.
#[cycle(typed)]
#[derive(Drop)]
pub struct TypedRow {
    pub binders: Items<TypedBinder>,
    pub outcome: TypedOutcome,
}

/// What an alternative gives.
#[cycle(typed)]
#[derive(Drop)]
pub enum TypedOutcome {
    Always(Typed),
    /// The first branch whose tests hold. Where none does, the next alternative is tried.
    Guarded(Items<TypedBranch>),
}

/// An expression behind tests, which are tried in order.
#[cycle(typed)]
#[derive(Drop)]
pub struct TypedBranch {
    pub tests: Items<TypedTest>,
    pub body: Typed,
}

/// A test of a guard.
#[cycle(typed)]
#[derive(Drop)]
pub enum TypedTest {
    /// A boolean.
    Holds(Typed),
    /// `p <- e`
    Binds(TypedBinder, Typed),
}

/// One local binding, or several that mention one another.
#[cycle(typed)]
#[derive(Drop)]
pub enum LocalGroup {
    NonRec(LocalBind),
    Rec(Items<LocalBind>),
}

/// A local name of the type `at`, and what it stands for.
#[cycle(typed)]
#[derive(Drop)]
pub struct LocalBind {
    pub ann: Ann,
    pub name: Ident,
    pub at: Ty,
    pub body: Typed,
}
