//! Interface files: what a module shows to the modules that import it, and where its names stand.
//!
//! The rows are plain data that cannot hold what no interface file may hold, and their texts are
//! functions of the rows that are read back exactly.
#![tactic(auto)]

mod externs;
mod name;
mod outcome;
mod places;
mod rows;
mod sizes;
mod written;

pub use externs::Externs;
pub use name::{Name, TrueName};
pub use outcome::{Outcome, Outputs, Source};
pub use places::{DeclRow, Places, UseRow};
pub use rows::{
    Assoc, ClassRow, ConstructorRow, Dependency, Entity, ExportRow, FixityRow, InstanceRow,
    OpSpace, Param, Space, SynonymRow, TypeRow, ValueRow,
};
pub use sizes::MOST_WORDS;
pub use written::{ExternConstraint, ExternKind, ExternType};
