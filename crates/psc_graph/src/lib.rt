//! Equations between nodes of a graph of types, solved in place: the first-order steps.
//!
//! A node is an unknown, a link to the node that stands for it, or a type former over other nodes.
//! A solution gives each node a tree that meets what the node says. Binding an unknown and merging
//! two equal nodes keep a most general solution. Rows are only walked through here.
#![tactic(auto)]

mod binding;
mod growing;
mod links;
mod merging;
mod node;
mod occurs;
mod shortening;
mod work;

pub use binding::bind;
pub use growing::{kind_of_node, push_node};
pub use links::{find, node_at};
pub use merging::merge;
pub use node::{Former, Leaf, Node, Stop, Task};
pub use occurs::{is_inside, is_seen, note, see, take_note};
pub use shortening::skip;
pub use work::{add, is_same_former, is_same_leaf, take_last};
