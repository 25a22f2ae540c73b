//! Moments written by the nodes of a description, as C has them, without memory; and the list of
//! such nodes that dates are read by. This is an addition of this port; the crate `timefd_c`
//! exports it to C.

mod component;
mod fault;
mod flat;
mod format;
mod forward;
pub mod laws;
mod leaf;
mod len;
mod listing;
mod modifier;
mod part;
mod put;
mod short;
mod walk;
mod write;

pub use fault::node_fault;
pub use flat::leaves_of;
pub use format::{NodesError, NodesText, format_nodes};
pub use listing::{are_texts, listed};
