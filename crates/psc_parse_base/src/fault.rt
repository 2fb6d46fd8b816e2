//! Why a rule reads nothing.

use crate::symbol::Sym;
use psc_text::NoMemory;
use std::alloc::{AllocError, AllocFailed};

/// Why a rule reads nothing.
#[derive(Clone, Copy, Debug, PartialEq, Eq)]
pub enum Fault {
    OutOfMemory,
    /// The symbols are not of the grammar.
    Grammar,
    /// A form of PureScript that this compiler does not have stands here.
    Outside,
}

impl From<AllocError> for Fault {
    fn from(_error: AllocError) -> Fault {
        Fault::OutOfMemory
    }
}

impl<T: Drop> From<AllocFailed<T>> for Fault {
    fn from(_error: AllocFailed<T>) -> Fault {
        Fault::OutOfMemory
    }
}

impl From<NoMemory> for Fault {
    fn from(_error: NoMemory) -> Fault {
        Fault::OutOfMemory
    }
}

/// What was read and the symbols behind it.
pub type Parsed<'a, T> = Result<(T, &'a [Sym]), Fault>;

/// What was read where nothing stands behind it, else None.
pub fn whole<T: Drop>(read: Parsed<'_, T>) -> Result<Option<T>, NoMemory> {
    match read {
        Ok((found, [])) => Ok(Some(found)),
        Ok(_) => Ok(None),
        Err(Fault::OutOfMemory) => Err(NoMemory),
        Err(Fault::Grammar | Fault::Outside) => Ok(None),
    }
}
