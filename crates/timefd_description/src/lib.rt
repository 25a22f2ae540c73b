//! Format descriptions of any language, opened once, to write moments and to read texts. This crate is the way in
//! for callers: it also passes on what they need of the crates below.
#![tactic(auto)]

// The description, and how a text of each language becomes one.
mod composite;
mod description;
mod nodes;
mod strftime;
mod version;
mod writing;

// A moment written, and a text read, by the text of a description.
mod format_error;
mod formatting;
mod read_error;
mod reading;
mod sentence;

// Which descriptions given texts of dates may have been written by.
pub mod guessing;

pub use description::Description;
pub use format_error::FormatTextError;
pub use formatting::{format_text, format_text_within};
pub use read_error::ReadTextError;
pub use reading::{read_text, read_text_fields, read_text_fields_within, read_text_within};
pub use sentence::{reason_sentence, unread_sentence};

// The languages, the faults of texts, and what is wrong with one.
pub use timefd_lang_fault::{BorrowedFault, BorrowedParseError};
pub use timefd_language::{DescriptionVersion, Language};
pub use timefd_lint_diagnosis::{Diagnostic, diagnose};

// A text in another language.
pub use timefd_lang_convert::{ConvertError, convert};

// What is written and read.
pub use timefd_date_format::{FormatError, TextError, write_front};
pub use timefd_date_moment::fields::{Fields, ReadError};
pub use timefd_date_moment::{Date, Moment, Time, UnixTime, UtcOffset};
