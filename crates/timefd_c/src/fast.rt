//! A quick way to write a moment by nodes, tried before the exact one.
//!
//! It writes numbers of two digits, years of four, fractions, names and literals, by nodes without members of
//! their own and a last one of which all may be members. The date has to be known, and the numbers of all parts have
//! to be in their ranges. `None` says nothing about the nodes or the numbers, and changes nothing: the exact way looks
//! at the same nodes again.

mod component;
mod flag;
mod leaf;
mod moment;
mod range;
mod shown;
mod walk;
mod write;

pub use write::write_at_once;
