//! Components as they are written in brackets: the name, the words that say the form, and the
//! modifiers.

mod defaults;
mod form;
mod modifier;
mod modifiers;
mod words;

pub use defaults::Defaults;
pub use words::push_words;
