//! The faults of a text that isn't a format description: the rule that is broken, its position, its
//! stable code, and its sentence, which can be written into a buffer of the caller without taking
//! memory. Users import them from `timefd_items` and `timefd_parse`.
#![tactic(auto)]

// What is reported about a text: an error that owns what it quotes, and one that borrows it.
pub mod borrowed_fault;
pub mod borrowed_parse_error;
mod invalid_format_description;

// The rules, what they speak of, their codes, and the errors of the readers.
pub mod code;
pub mod key;
pub mod name;
pub mod read_error;
pub mod refuser;
pub mod rule;

// Sentences in a buffer that may be too short.
mod digits;
pub mod excerpt;
pub mod laws;
mod sentence;

pub use borrowed_fault::BorrowedFault;
pub use borrowed_parse_error::{BorrowedParseError, ParseError};
pub use code::{Code, all_are_there, names_differ};
pub use excerpt::Excerpt;
pub use invalid_format_description::InvalidFormatDescription;
pub use key::Key;
pub use name::{ComponentName, Name};
pub use read_error::{Fault, ReadError};
pub use refuser::Refuser;
pub use rule::{FaultKind, Rule, Slot};
