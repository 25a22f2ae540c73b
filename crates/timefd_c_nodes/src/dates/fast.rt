//! A quick reader, tried before the exact one. A `Some` is what the exact reader answers. A `None` says
//! nothing about the nodes and the date, and changes nothing: the exact reader looks at the same bytes again.

mod component;
mod literal;
mod walk;

pub use walk::moment_shown;
