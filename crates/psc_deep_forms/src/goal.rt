//! What is still to be read of an item, one goal for each place that the grammar can be at.
//!
//! A goal `More..` stands behind one of a list and reads the rest of that list.

use psc_lex::Sign;

/// Whether the operands of a chain may be a `_`.
#[derive(Clone, Copy, Debug, PartialEq, Eq)]
pub(crate) enum Holes {
    Refused,
    Allowed,
    /// One of them is a `_`, so that no type stands behind the chain.
    Seen,
}

/// Which form a block of statements belongs to.
#[derive(Clone, Copy, Debug, PartialEq, Eq)]
pub(crate) enum Steps {
    Do,
    Ado,
}

/// How many scrutinees a `case` has, and how its alternatives fit them.
#[derive(Clone, Copy)]
pub(crate) struct Widths {
    pub(crate) scrutinees: usize,
    /// How many binders the alternative that is being read has so far.
    pub(crate) binders: usize,
    /// Whether each alternative before has as many binders as there are scrutinees.
    pub(crate) fit: bool,
}

/// What has to come.
#[derive(Clone, Copy)]
pub(crate) enum Goal {
    Token(Sign),
    /// A lower name without a module.
    Name,
    Names,

    Kind,
    KindAtom,
    MoreKinds,
    Variable,
    Variables,

    WholeType,
    /// An arrow and the type behind it, or nothing.
    TypeArrow,
    TypeAtom,
    TypeAtoms,
    MoreOperands,
    Row,
    RowField,
    MoreRowFields,
    RowTail,
    /// Constraints, in parentheses or one alone.
    Context,
    Constraint,
    MoreConstraints,

    Binder,
    BinderOperand,
    BinderAtom,
    BinderAtoms,
    MoreBinderOperands,
    /// The type of a binder in parentheses, if it has one, and the right one.
    BinderEnd,
    MoreBinders,
    BinderField,
    MoreBinderFields,

    Expr(Holes),
    Operand(Holes),
    /// Operators and operands, and the type behind the chain.
    MoreOperators(Holes),
    Call(Holes),
    MoreTicks(Holes),
    Part,
    Parts,
    /// The labels and the update behind an atom.
    Behind,
    MoreExprs,
    Field,
    MoreFields,
    Update,
    MoreUpdates,

    /// The scrutinee of this number.
    Scrutinee(usize),
    MoreScrutinees(usize),
    Alternative(Widths),
    /// The other binders of an alternative, and what stands behind them.
    AlternativeEnd(Widths),
    MoreAlternatives(Widths),
    /// A right side, whose expressions stand behind this token.
    Side(Sign),
    Guards(Sign),
    Test,
    MoreTests,
    Branch(Sign),
    /// The `where` of a branch, if it has one.
    BranchEnd,
    Locals,
    Local,
    MoreLocals,
    Statements(Steps),
    Statement(Steps),
    /// What stands behind the block of a `let` that begins a statement.
    LetEnd(Steps),
    /// The statements behind one that is an expression, or is none.
    MoreStatements(Steps, bool),

    Signature,
    /// A clause, as it stands at the top of a module or in an instance.
    Clause,
    /// The constructors of a type, if it has any.
    Ctors,
    Ctor,
    MoreCtors,
    /// The functional dependencies of a class, if it has any.
    Deps,
    Dep,
    MoreDeps,
    /// The members of a class, if it has any.
    ClassMembers,
    MoreClassMembers,
    /// The members of an instance, if it has any.
    Members,
    Member,
    MoreMembers,
    /// The class of an instance.
    ClassName,
}
