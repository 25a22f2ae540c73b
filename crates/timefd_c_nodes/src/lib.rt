//! Descriptions as nodes of fixed size, for programs in C. This is an addition of this port; the
//! crate `timefd_c` exports it to C.
#![tactic(auto)]

mod component;
mod fields;
mod items;
pub mod laws;
mod node;
mod part;
mod position;
mod view;

// Dates of short numbers, read by nodes at once.
pub mod dates;

// Moments written by nodes, and what dates are read by of them.
pub mod formatting;

// Texts of each language read as nodes.
pub mod reading;

pub use component::component_node;
pub use items::write_compound;
pub use node::RawNode;
pub use position::{START, WritePosition, Written, put, put_component, put_literal};
pub use view::write_view;
