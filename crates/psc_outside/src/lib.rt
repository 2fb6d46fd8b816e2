//! What the program asks of the world outside it, as traits: files to read, a shelf to keep results on, a sink for
//! printed text, and the status that a run ends with.
//!
//! Each object counts its faults, and may tell contracts what it holds. The memory versions tell it; an object over
//! the real world does not.
#![tactic(auto)]

mod counting;
mod files;
mod laws;
mod mem_files;
mod mem_shelf;
mod mem_sink;
mod put;
mod read_file;
mod schedule;
mod shelf;
mod sink;
mod status;

pub use counting::{count_put, count_read};
pub use files::Files;
pub use laws::replacement_is_of_one_name;
pub use mem_files::MemFiles;
pub use mem_shelf::{MemShelf, ShelfCall};
pub use mem_sink::MemSink;
pub use put::Put;
pub use read_file::{READ_LIMIT, ReadFile};
pub use shelf::Shelf;
pub use sink::Sink;
pub use status::Status;

#[cfg(test)]
mod tests;
