//! What every node of the core is annotated with.

ghost use Rattle.std.specs.Prelude.{◌≡◌};

use psc_items::SharedItems;
use psc_text::{Ident, Span};
use std::alloc::AllocError;

/// The place of a node in the source and what is known of it. A made node has the place of the form
/// that it comes from.
#[derive(Debug, Drop)]
pub struct Ann {
    pub span: Span,
    pub meta: Meta,
}

/// What is known of a node beside its form.
#[derive(Debug, Drop)]
pub enum Meta {
    NoMeta,
    /// A constructor of a data type, a mention of it or its binder: whether the type has others, and
    /// the names of the constructor's fields.
    IsConstructor {
        sum: bool,
        identifiers: SharedItems<Ident>,
    },
    /// The same of a newtype's constructor.
    IsNewtype,
    /// A mention of a foreign value.
    IsForeign,
    /// A `let` that is written as the `where` of a branch.
    IsWhere,
}

impl Ann {
    /// An annotation with a place alone.
    pub fn plain(span: Span) -> Ann
        ensures { result ≡ record { span = span; meta = Meta.NoMeta } }
    {
        Ann {
            span,
            meta: Meta::NoMeta,
        }
    }
}

impl Clone for Ann {
    ghost is_clone = { λ ann copy. copy ≡ ann };

    fn clone(&self) -> Result<Ann, AllocError> {
        Ok(Ann {
            span: self.span,
            meta: self.meta.clone()?,
        })
    }
}

impl Clone for Meta {
    ghost is_clone = { λ meta copy. copy ≡ meta };

    fn clone(&self) -> Result<Meta, AllocError> {
        match self {
            Meta::NoMeta => Ok(Meta::NoMeta),
            Meta::IsConstructor { sum, identifiers } => Ok(Meta::IsConstructor {
                sum: *sum,
                identifiers: identifiers.clone()?,
            }),
            Meta::IsNewtype => Ok(Meta::IsNewtype),
            Meta::IsForeign => Ok(Meta::IsForeign),
            Meta::IsWhere => Ok(Meta::IsWhere),
        }
    }
}
