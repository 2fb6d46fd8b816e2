//! Modules.

use crate::expr::CoreBind;
use psc_items::SharedItems;
use psc_text::{Ident, ModuleName, Span, Text};
use sqlite_items::Items;

/// A module of CoreFn.
///
/// Exports and re-exports are names as JavaScript has them, foreign values as the source has them.
/// These lists, the imports and the modules of the re-exports ascend.
#[derive(Drop)]
pub struct CoreModule {
    pub name: ModuleName,
    /// From the first token to the last.
    pub span: Span,
    /// The modules that are imported or whose names are used, without `Prim` and the module itself.
    pub imports: SharedItems<ModuleName>,
    /// Own names alone.
    pub exports: SharedItems<Text>,
    pub re_exports: SharedItems<ReExport>,
    pub foreign: SharedItems<Ident>,
    pub decls: Items<CoreBind>,
}

/// The names that are exported from another module.
#[derive(Debug, Drop)]
pub struct ReExport {
    pub module: ModuleName,
    pub names: SharedItems<Text>,
}
