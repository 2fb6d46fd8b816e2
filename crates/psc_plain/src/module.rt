//! A plain module.

use crate::decls::{PlainForeign, PlainInstance, PlainTypeDecl, PlainValue};
use psc_ast::{FixityDecl, ImportTree, ModuleAt};
use psc_text::Span;
use sqlite_items::Items;

/// A module in plain forms. Each list is in the order of the source; groups number types and values by their places here.
#[derive(Drop)]
pub struct Plain {
    pub name: ModuleAt,
    /// The token `module`, where errors of the whole module stand.
    pub header: Span,
    pub imports: Items<ImportTree>,
    pub types: Items<PlainTypeDecl>,
    pub values: Items<PlainValue>,
    pub foreigns: Items<PlainForeign>,
    pub instances: Items<PlainInstance>,
    pub fixities: Items<FixityDecl>,
    /// From the first token to the last.
    pub span: Span,
}
