//! What the linter reports about accepted texts: their warnings, and a message for each warning; and about
//! formats of other languages.
#![tactic(auto)]

mod found;
mod hint;
mod message;
mod reported;

// What is reported of formats of other languages.
pub mod dialects;

pub use found::{found_at_once, found_in};
pub use reported::{messages, messages_at};
