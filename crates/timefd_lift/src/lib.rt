//! Rewrites format descriptions from one version of the language to the next.
#![tactic(auto)]

mod component;
mod escape;
mod from_one;
mod from_two;
mod item;
pub mod laws;

pub use component::push_component;
pub use from_one::{v1_to_v2, v1_to_v2_borrowed};
pub use from_two::v2_to_v3;
