//! What a caller knows through the bounds alone, and how the objects in memory answer.

mod in_memory;
mod through_bounds;
