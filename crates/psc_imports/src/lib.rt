//! What a module brings into scope, declares and exports.
//!
//! Input: the imports, declarations and export list of a module as they are written, and the interfaces of other modules.
//! Output: the names in scope, the own names and the exported ones, or the first error of the first of these three phases;
//! and, of a finished interface, whether what is exported needs an own name that is not.
#![tactic(auto)]

mod closed;
mod exports;
mod imports;
mod own;
mod world;

pub use closed::exports_closed;
pub use exports::{Exported, export_all};
pub use imports::{Imported, import_all};
pub use own::{Own, OwnName, own_names};
pub use world::{Given, Interface, World};
