//! Faults inside the readers: they borrow their words and take no memory.

ghost use Rattle.std.specs.Prelude.{◌≡◌};
ghost use Rattle.timefd_lang_fault.specs.declared.read_error.ReadError.TheVariants.{Invalid, Memory};

use crate::rule::Rule;
use std::alloc::{AllocError, AllocFailed};

/// A fault, its position, and how many bytes are at fault. The reader that finds it has the text only
/// from some byte on, so the position is counted from the end.
#[derive(Clone, Copy)]
pub struct Fault<'a> {
    /// The rule that is broken.
    pub rule: Rule<'a>,
    /// The number of bytes from the fault to the end of the text.
    pub remaining: usize,
    /// The number of bytes at fault.
    pub len: usize,
}

/// Why the reader stops.
#[derive(Drop)]
pub enum ReadError<'a> {
    Invalid(Fault<'a>),
    Memory,
}

impl<'a> From<Fault<'a>> for ReadError<'a> {
    ghost from_gives = { λ f e. e ≡ Invalid f };

    fn from(fault: Fault<'a>) -> ReadError<'a> {
        ReadError::Invalid(fault)
    }
}

impl<'a> From<AllocError> for ReadError<'a> {
    ghost from_gives = { λ _ e. e ≡ Memory };

    fn from(_error: AllocError) -> ReadError<'a> {
        ReadError::Memory
    }
}

impl<'a, T: Drop> From<AllocFailed<T>> for ReadError<'a> {
    ghost from_gives = { λ _ e. e ≡ Memory };

    fn from(_error: AllocFailed<T>) -> ReadError<'a> {
        ReadError::Memory
    }
}
