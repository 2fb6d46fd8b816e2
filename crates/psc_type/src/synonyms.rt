//! Synonyms of types, and why a type that uses them may not be expanded.

ghost use Rattle.std.specs.Prelude.{◌≡◌};

use crate::ty::Ty;
use psc_items::SharedItems;
use psc_text::{Ident, Qualified};
use std::alloc::AllocError;
use thiserror::Error;

/// A name for a type, which has parameters.
#[derive(Debug, Drop)]
pub struct Synonym {
    pub name: Qualified,
    pub params: SharedItems<Ident>,
    pub body: Ty,
}

/// The synonyms that a type may use. Of two rows with one name the first counts.
#[derive(Debug, Drop)]
pub struct Synonyms {
    pub rows: SharedItems<Synonym>,
}

/// Why a type has no expanded form.
#[derive(Debug, Drop, Error)]
pub enum ExpandFault {
    /// A synonym stands where it has fewer arguments than parameters.
    #[error("a synonym has too few arguments")]
    Partial(Qualified),
    /// The expanded type has more nodes than are allowed.
    #[error("the expanded type is too large")]
    TooLarge,
}

impl Clone for Synonym {
    ghost is_clone = { λ synonym copy. copy ≡ synonym };

    fn clone(&self) -> Result<Synonym, AllocError> {
        let name = self.name.clone()?;
        let params = self.params.clone()?;
        let body = self.body.clone()?;
        Ok(Synonym { name, params, body })
    }
}

impl Clone for Synonyms {
    ghost is_clone = { λ synonyms copy. copy ≡ synonyms };

    fn clone(&self) -> Result<Synonyms, AllocError> {
        let rows = self.rows.clone()?;
        Ok(Synonyms { rows })
    }
}
