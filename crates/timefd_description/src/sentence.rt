//! The sentences about a part of a text that doesn't read.

ghost use Rattle.std.specs.Prelude.{◌≡◌, IfOk, string_bytes};
ghost use Rattle.timefd_description.specs.Sentences as spec;

use std::alloc::{AllocError, Global};
use timefd_date_format::component_name;
use timefd_date_moment::fields::{ReadError, UnreadReason};

/// Why a part of a text doesn't read, and the byte index where it begins: `another text was expected at
/// byte 4`. An `Err` says that memory ran out.
pub fn unread_sentence(alloc: Global, error: ReadError) -> Result<String, AllocError>
    ensures { IfOk result (λ text. string_bytes text ≡ spec.unread_sentence error) }
{
    let reason = reason_sentence(alloc, error.reason)?;
    let index = error.index;
    format!(in alloc; "{reason} at byte {index}")
}

/// Why it doesn't read, without the position, which a caller may give in its own words: `another text
/// was expected`. An `Err` says that memory ran out.
pub fn reason_sentence(alloc: Global, reason: UnreadReason) -> Result<String, AllocError>
    ensures { IfOk result (λ text. string_bytes text ≡ spec.reason_sentence reason) }
{
    match reason {
        UnreadReason::Unread(component) => {
            let name = component_name(component);
            format!(in alloc; "the component `{name}` was expected")
        }
        UnreadReason::Contradiction(component) => {
            let name = component_name(component);
            format!(in alloc; "the component `{name}` has a different value")
        }
        UnreadReason::Literal => String::from_str(alloc, "another text was expected"),
        UnreadReason::Trailing => String::from_str(alloc, "nothing may follow"),
    }
}
