//! The answer to a reading.

ghost use Rattle.std.specs.Prelude.{◌≡◌, IfOk};
ghost use Rattle.std.specs.Option.{option_copied};
ghost use Rattle.psc_outside.specs.Contents.{answer_at};

use psc_text::{Bytes, NoMemory};
use std::alloc::AllocError;

/// The most bytes that a reading gives: 1 GiB.
pub const READ_LIMIT: usize = 1 << 30;

/// What a reading found under a path or name.
#[derive(Debug, PartialEq, Eq, Drop)]
pub enum ReadFile {
    /// The bytes that are held there, at most 1 GiB of them.
    Got(Bytes),
    /// Nothing is held there.
    Absent,
    /// The reading failed: a fault.
    Failed,
}

impl Clone for ReadFile {
    ghost is_clone = { λ answer copy. copy ≡ answer };

    fn clone(&self) -> Result<ReadFile, AllocError> {
        match self {
            ReadFile::Got(bytes) => Ok(ReadFile::Got(bytes.clone()?)),
            ReadFile::Absent => Ok(ReadFile::Absent),
            ReadFile::Failed => Ok(ReadFile::Failed),
        }
    }
}

/// What a reading answers where this is held and no fault comes first.
///
/// `Failed` where more than 1 GiB is held.
pub(crate) fn answer_of(held: Option<&Bytes>) -> Result<ReadFile, NoMemory>
    ensures { IfOk result (λ r. r ≡ answer_at (option_copied held.entry)) }
{
    match held {
        None => Ok(ReadFile::Absent),
        Some(bytes) => {
            if bytes.as_slice().len() <= READ_LIMIT {
                Ok(ReadFile::Got(bytes.clone()?))
            } else {
                Ok(ReadFile::Failed)
            }
        }
    }
}
