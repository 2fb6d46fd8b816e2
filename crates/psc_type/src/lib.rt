//! Types, kinds and constraints, and what can be asked of a type by itself.
//!
//! A type is shared: a clone copies no nodes, equals its source, and may be sent to another thread.
#![tactic(auto)]

mod alike;
mod closed;
mod equal;
mod kind;
mod nodes;
mod rows;
mod scheme;
mod synonyms;
mod ty;
mod vars;

pub use alike::row_equal;
pub use closed::{is_closed, is_known};
pub use kind::Kind;
pub use nodes::{MOST_NODES, has_more_nodes};
pub use rows::canonical;
pub use scheme::{Scheme, Scope};
pub use synonyms::{ExpandFault, Synonym, Synonyms};
pub use ty::{Constraint, Ty};
pub use vars::{Replaced, is_free, substitute};
