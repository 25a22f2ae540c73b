//! Why a row has no answer.

use std::alloc::{AllocError, AllocFailed};
use std::error::Error;
use std::fmt;

/// Why a row has no answer.
#[derive(Clone, Copy, Debug)]
pub enum RowFault {
    /// Memory ran out.
    Memory,
    /// No domain knows the word that the row begins with.
    NoAsk,
    /// The row doesn't have these fields.
    Fields(&'static str),
    /// A field isn't one of these.
    Field(&'static str),
    /// A literal isn't written as in Rust.
    Literal(&'static str),
}

impl fmt::Display for RowFault {
    fn fmt<W: fmt::Write>(&self, f: &mut fmt::Formatter<W>) -> fmt::Result {
        match self {
            RowFault::Memory => write!(f, "memory ran out"),
            RowFault::NoAsk => write!(f, "the first word is none that src/ask.rt knows"),
            RowFault::Fields(wanted) => write!(f, "expected the fields {wanted}"),
            RowFault::Field(wanted) => write!(f, "expected {wanted}"),
            RowFault::Literal(problem) => write!(f, "{problem} in a literal"),
        }
    }
}

impl Error for RowFault {}

impl From<AllocError> for RowFault {
    fn from(_error: AllocError) -> RowFault {
        RowFault::Memory
    }
}

impl<T: Drop> From<AllocFailed<T>> for RowFault {
    fn from(_error: AllocFailed<T>) -> RowFault {
        RowFault::Memory
    }
}
