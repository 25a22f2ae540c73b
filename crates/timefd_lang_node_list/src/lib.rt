//! Descriptions of version 3 as one list of nodes, each after its members, and the views of such a
//! list. Users import the views from `timefd_items`, which has the descriptions.
#![tactic(auto)]

mod debug;
pub mod in_turn;
pub mod leaves;
pub mod members;
pub mod node;
pub mod node_list;
pub mod tally;
pub mod view;
pub mod walk;

// The items of versions 1 and 2 and of strftime.
pub mod item;

pub use in_turn::InTurn;
pub use leaves::{Leaf, Leaves};
pub use members::Members;
pub use view::{Shape, View};
pub use walk::Walk;
