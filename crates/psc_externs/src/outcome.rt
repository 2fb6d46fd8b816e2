//! What compiling one module gives.

use psc_error::PsError;
use psc_text::{Bytes, Text};

/// A source with the path that it was read from.
#[derive(Debug, Drop)]
pub struct Source {
    pub path: Text,
    pub bytes: Bytes,
}

/// The four texts of a module that compiles.
#[derive(Debug, Drop)]
pub struct Outputs {
    pub externs: Text,
    pub corefn: Text,
    pub js: Text,
    pub places: Text,
}

/// What a source compiles to under the interfaces of other modules.
#[derive(Debug, Drop)]
pub enum Outcome {
    Good(Outputs),
    Bad(PsError),
}
