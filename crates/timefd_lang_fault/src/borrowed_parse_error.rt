//! The errors of the public calls: one whose fault owns what it quotes, and one whose fault borrows it.

ghost use Rattle.std.specs.Prelude.{◌≡◌, ◌≤◌};
ghost use Rattle.timefd_lang_fault.specs.ReadErrors.{MemoryOr};
ghost use Rattle.timefd_lang_fault.specs.BorrowedFaults.{IsOwned, Borrows, BorrowsSpan};

use crate::borrowed_fault::BorrowedFault;
use crate::invalid_format_description::InvalidFormatDescription;
use crate::read_error::ReadError;
use std::alloc::{AllocError, Global};

/// Why a text was not read.
#[derive(Debug, Drop)]
pub enum ParseError {
    /// The text isn't a description, because of this fault.
    Invalid(InvalidFormatDescription),
    /// Memory ran out. The text has no fault, or one that quotes the text.
    Memory(AllocError),
}

/// Why a text was not read. It is like `ParseError`, but borrows what its fault quotes of the text.
#[derive(Drop)]
pub enum BorrowedParseError<'a> {
    /// The text isn't a description, because of this fault.
    Invalid(BorrowedFault<'a>),
    /// Memory ran out. No call returns this for a text that has a fault.
    Memory(AllocError),
}

impl<'a> BorrowedParseError<'a> {
    /// The error with a copy of what the fault quotes, or `Memory` if there is no memory for the
    /// copy. A fault that quotes nothing takes none.
    pub fn into_owned(self, alloc: Global) -> ParseError
        ensures { IsOwned self.entry result }
    {
        match self {
            BorrowedParseError::Invalid(fault) => owned(alloc, fault),
            BorrowedParseError::Memory(error) => ParseError::Memory(error),
        }
    }
}

// The error with a copy of this fault.
fn owned(alloc: Global, fault: BorrowedFault) -> ParseError
    ensures { IsOwned (BorrowedParseError.Invalid fault.entry) result }
{
    match fault.into_owned(alloc) {
        Ok(fault) => ParseError::Invalid(fault),
        Err(error) => ParseError::Memory(error),
    }
}

/// The borrowed error for a reader's error in a text of `len` bytes.
pub fn borrowed<'a>(error: ReadError<'a>, len: usize) -> BorrowedParseError<'a>
    requires { MemoryOr (λ f. f.remaining ≤ len) error }
    ensures borrows { Borrows len error.entry result }
    ensures span { BorrowsSpan len error.entry result }
{
    match error {
        ReadError::Invalid(fault) => BorrowedParseError::Invalid(BorrowedFault::of(fault, len)),
        ReadError::Memory => BorrowedParseError::Memory(AllocError),
    }
}
