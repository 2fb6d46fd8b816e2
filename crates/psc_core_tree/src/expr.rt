//! Expressions and bindings.

use crate::ann::Ann;
use crate::binder::CoreBinder;
use crate::literal::{Field, Literal};
use psc_items::SharedItems;
use psc_text::{Ident, Label, Qualified, Text};
use sqlite_items::{Boxed, Items};

/// An expression.
#[cycle(core)]
#[derive(Drop)]
pub enum CoreExpr {
    Literal {
        ann: Ann,
        value: Literal,
    },
    /// The function that makes a value of a data type. It stands only as a constructor's own binding.
    Constructor {
        ann: Ann,
        type_name: Text,
        constructor_name: Text,
        field_names: SharedItems<Ident>,
    },
    Accessor {
        ann: Ann,
        subject: Boxed<CoreExpr>,
        label: Label,
    },
    /// The updates stand in the order of the source.
    ObjectUpdate {
        ann: Ann,
        subject: Boxed<CoreExpr>,
        updates: Items<Field>,
    },
    Abs {
        ann: Ann,
        argument: Ident,
        body: Boxed<CoreExpr>,
    },
    App {
        ann: Ann,
        function: Boxed<CoreExpr>,
        argument: Boxed<CoreExpr>,
    },
    /// A local name has no module.
    Var {
        ann: Ann,
        name: Qualified,
    },
    Case {
        ann: Ann,
        subjects: Items<CoreExpr>,
        alternatives: Items<CoreAlternative>,
    },
    Let {
        ann: Ann,
        binds: Items<CoreBind>,
        body: Boxed<CoreExpr>,
    },
}

/// An alternative of a case: a binder for each subject.
#[cycle(core)]
#[derive(Drop)]
pub struct CoreAlternative {
    pub binders: Items<CoreBinder>,
    pub outcome: CoreOutcome,
}

/// What an alternative gives.
#[cycle(core)]
#[derive(Drop)]
pub enum CoreOutcome {
    Always(CoreExpr),
    /// The first whose guard holds. Where none does, the next alternative is tried.
    Guarded(Items<CoreGuarded>),
}

/// An expression behind a guard.
#[cycle(core)]
#[derive(Drop)]
pub struct CoreGuarded {
    pub guard: CoreExpr,
    pub body: CoreExpr,
}

/// One binding, or several that mention one another.
#[cycle(core)]
#[derive(Drop)]
pub enum CoreBind {
    NonRec(CoreBinding),
    Rec(Items<CoreBinding>),
}

/// A name and what it stands for.
#[cycle(core)]
#[derive(Drop)]
pub struct CoreBinding {
    pub ann: Ann,
    pub name: Ident,
    pub body: CoreExpr,
}
