//! Why a format is not converted.

use crate::reason::Reason;
use std::alloc::AllocError;

/// The part of a format that has no text of version 3.
#[derive(Clone, Copy)]
pub struct RefusedPart {
    /// Why the part has none.
    pub reason: Reason,
    /// Where the part begins in the format: an index in bytes.
    pub index: usize,
}

/// Why a format is not converted.
#[derive(Clone, Copy)]
pub enum DialectError {
    /// A part of the format has no text of version 3.
    Refused(RefusedPart),
    /// Memory ran out.
    Memory(AllocError),
}

impl From<AllocError> for DialectError {
    ghost use Rattle.std.specs.Prelude.{◌≡◌};
    ghost use Rattle.timefd_lang_dialect.specs.declared.error.DialectError.TheVariants.{Memory};

    ghost from_gives = { λ e error. error ≡ Memory e };

    fn from(error: AllocError) -> Self {
        DialectError::Memory(error)
    }
}
