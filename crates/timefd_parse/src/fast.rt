//! Quick readers for what most texts have, tried before the exact ones: brackets with only a name, and
//! brackets with white bytes or modifiers, spelled as in the tables.
//!
//! Each returns an `Option`. A `Some` is what the exact reader returns. A `None` says nothing about
//! the text and changes nothing: the exact reader looks at the same bytes again.

pub mod bare;
mod begins;
pub mod modified;
mod reprs;
mod values;
pub mod words;
