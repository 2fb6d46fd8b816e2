//! Evidence: what shows that a constraint holds, as a term that stands for a dictionary.

ghost use Rattle.std.specs.Prelude.{◌≡◌};

use psc_items::{Shared, SharedItems};
use psc_text::{Ident, Qualified};
use psc_type::Ty;
use std::alloc::AllocError;

/// Evidence of a constraint. It is shared: a clone copies no nodes, and equals its source.
#[derive(Debug, Drop)]
pub enum Evidence {
    /// A dictionary that is a parameter.
    Param(Ident),
    /// The superclass of this number, counted from 0, of what the evidence shows.
    Super(Shared<Evidence>, u32),
    /// An instance at the types of its variables, with evidence of its context.
    Inst(Qualified, SharedItems<Ty>, SharedItems<Evidence>),
}

impl Clone for Evidence {
    ghost is_clone = { λ evidence copy. copy ≡ evidence };

    fn clone(&self) -> Result<Evidence, AllocError> {
        match self {
            Evidence::Param(name) => Ok(Evidence::Param(name.clone()?)),
            Evidence::Super(of, number) => Ok(Evidence::Super(of.clone()?, *number)),
            Evidence::Inst(name, types, context) => Ok(Evidence::Inst(
                name.clone()?,
                types.clone()?,
                context.clone()?,
            )),
        }
    }
}
