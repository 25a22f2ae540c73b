//! Shows an accepted description as a tree: its nodes, and a line for each of them, with the words of its
//! component and what that writes for one fixed moment.
#![tactic(auto)]

mod example;
mod explain;
mod line;
mod members;
mod node;
mod piece;
mod pieces;
mod tree;

pub use example::sample;
pub use explain::{Explanation, explained, explanation_of};
pub use node::{NodeKind, ShownNode, words_of};
