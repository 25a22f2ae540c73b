//! Why a text shows nothing by the text of a description.

ghost use Rattle.std.specs.Prelude.{◌≡◌};
ghost use Rattle.timefd_description.specs.ReadAnswers as spec;

use std::alloc::AllocError;
use timefd_date_moment::fields::ReadError;
use timefd_date_moment::reading::ValueError;
use timefd_parse::{BorrowedFault, BorrowedParseError};

/// Why a text shows nothing by the text of a description.
#[derive(Drop)]
pub enum ReadTextError<'a> {
    /// The text of the description isn't a description, because of this fault.
    Fault(BorrowedFault<'a>),
    /// The first part of the text that doesn't read, and the byte index where it begins.
    Unread(ReadError),
    /// The whole text was read, but what was read isn't a moment.
    Value(ValueError),
    /// Memory ran out. The text of the description has no fault then.
    Memory(AllocError),
}

/// Converts the error of a text that wasn't read as a description.
pub(crate) fn of_parse_error(error: BorrowedParseError<'_>) -> ReadTextError<'_>
    ensures { result ≡ spec.of_parse_error error.entry }
{
    match error {
        BorrowedParseError::Invalid(fault) => ReadTextError::Fault(fault),
        BorrowedParseError::Memory(error) => ReadTextError::Memory(error),
    }
}
