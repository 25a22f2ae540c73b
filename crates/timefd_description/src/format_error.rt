//! Why a text writes nothing.

ghost use Rattle.std.specs.Prelude.{◌≡◌};
ghost use Rattle.timefd_lang_fault.specs.BorrowedFaults as borrowed;
ghost use Rattle.timefd_lang_fault.specs.Faults as spec;
ghost use Rattle.timefd_description.specs.Formatted.{IsFaulty, IsMemory, of_text_error};

use std::alloc::AllocError;
use timefd_date_format::{TextError, Unshown};
use timefd_parse::{BorrowedFault, BorrowedParseError};

/// Why a text writes nothing of a moment.
#[derive(Drop)]
pub enum FormatTextError<'a> {
    /// The text isn't a description, because of this fault.
    Fault(BorrowedFault<'a>),
    /// The first component that shows nothing of the moment.
    Unshown(Unshown),
    /// Memory ran out. The text has no fault then.
    Memory(AllocError),
}

/// Converts the error of a text that is a description.
pub(crate) fn of_text_error<'a>(error: TextError) -> FormatTextError<'a>
    ensures { result ≡ of_text_error error }
{
    match error {
        TextError::Unshown(unshown) => FormatTextError::Unshown(unshown),
        TextError::Memory(error) => FormatTextError::Memory(error),
    }
}

/// Converts the error of a text that wasn't read.
pub(crate) fn of_parse_error(error: BorrowedParseError<'_>) -> FormatTextError<'_>
    ensures fault { (f : spec.Fault) → borrowed.IsBorrowed f error.entry → IsFaulty f result }
    ensures memory { borrowed.IsMemory error.entry → IsMemory result }
{
    match error {
        BorrowedParseError::Invalid(fault) => FormatTextError::Fault(fault),
        BorrowedParseError::Memory(error) => FormatTextError::Memory(error),
    }
}
