//! The components of descriptions: the modern form of each, how many bytes each reserves, and what a
//! description means, as a tree of components and literals. Users take them from `timefd_items`.
#![tactic(auto)]

mod component;
pub mod debug;
pub mod laws;
mod modern;
pub mod reserved;

// What stands in the brackets of a component.
pub mod bracket;

pub use component::Component;
