//! What is known of an error, apart from the path of its source.

use crate::code::Code;
use psc_items::SharedItems;
use psc_text::{ModuleName, Span, Text};

/// The one error of a module, or of a list of modules.
#[derive(Debug, Drop)]
pub struct PsError {
    pub code: Code,
    /// The module that it stands in. None where the source has no readable module line.
    pub module: Option<ModuleName>,
    pub span: Span,
    /// The names, types or literals that the code speaks of, in the code's own order.
    pub parts: SharedItems<Text>,
}
