//! The tree of a module as it is written.
//!
//! A tree has all that later phases ask of a source: each name with its place, each part with the place that it
//! reaches over. It knows nothing of tokens, scopes or types.
//!
//! What is right recursive in the grammar without brackets (arrows, operators, applications, labels behind one another)
//! is a flat list here, so that a tree is no deeper than the brackets, blocks and lambdas of its source.
#![tactic(auto)]

mod binders;
mod decls;
mod exprs;
mod kinds;
mod modules;
mod names;
mod order;
mod types;

pub use binders::{BinderField, BinderStep, BinderTree};
pub use decls::{ClassDecl, Ctor, DataDecl, Decl, Dep, FixityDecl, InstanceDecl, SynonymDecl};
pub use exprs::{
    Alt, Bind, Branch, ChainStep, Clause, ExprTree, Field, Guard, Locals, Rhs, Stmt, Test,
    TickStep, Update,
};
pub use kinds::{KindTree, TypeVar};
pub use modules::{Ctors, Export, ImportList, ImportTree, Module, Ref};
pub use names::{IdentAt, LabelAt, Mention, ModuleAt, OpAt, UpperAt};
pub use order::{Fixities, Fixity, Group, KindOf, Side};
pub use types::{Constr, RowField, RowTree, Sig, TypePrefix, TypeStep, TypeTree};
