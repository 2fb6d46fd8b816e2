//! The answer to a writing.

/// What became of bytes that were given away.
#[derive(Clone, Copy, Debug, PartialEq, Eq)]
pub enum Put {
    /// All of them were taken.
    Done,
    /// The writing failed: a fault.
    Failed,
}
