//! The answers to C.

ghost use Rattle.std.specs.Prelude.{◌≡◌, false};
ghost use Rattle.timefd_c.specs.Answers.{error_answer};

use timefd_parse::BorrowedParseError;

/// The status of a text that is a description. The value is the number of its items, or in version
/// 3 the number of bytes that it reserves.
pub const ACCEPTED: u32 = 0;

/// The status of a text that isn't a description. The value is the index of its fault, in bytes
/// from the start of the text.
pub const REFUSED: u32 = 1;

/// The status of bytes that aren't UTF-8. The value is 0.
pub const NOT_UTF8: u32 = 2;

/// The status if memory ran out. Then the text has no fault. The value is 0.
pub const NO_MEMORY: u32 = 3;

/// The status if no language has the number. The value is 0.
pub const UNKNOWN_KIND: u32 = 4;

/// The status if there is no conversion from one language to the other. The value is 0.
pub const NO_CONVERSION: u32 = 7;

/// The answer about a text.
#[repr(C)]
#[derive(Debug, Clone, Copy, PartialEq, Eq)]
pub struct TextAnswer {
    /// One of the first five statuses, or from a conversion any of the six.
    pub status: u32,
    /// What the status counts: items, reserved bytes, the bytes of the converted text, or the bytes
    /// before the fault.
    pub value: usize,
    /// How many bytes the whole sentence of the fault has if one was asked for, or else 0.
    pub sentence_len: usize,
    /// How many bytes of the sentence, or of the converted text, were written.
    pub written: usize,
}

// `examples/timefd.h` declares it with this size.
const _: () = prove!(size_of::<TextAnswer>() == 32);

const _: () = prove!(align_of::<TextAnswer>() == 8);

impl TextAnswer {
    /// The answer with this status and value, and with no sentence.
    #[inline(always)]
    pub(crate) fn plain(status: u32, value: usize) -> TextAnswer
        ensures { result ≡ record { status = status; value = value; sentence_len = 0; written = 0 } }
    {
        TextAnswer {
            status,
            value,
            sentence_len: 0,
            written: 0,
        }
    }

    /// The answer for a text that was not converted because of this error.
    pub(crate) fn of_error(error: BorrowedParseError) -> TextAnswer
        ensures { result ≡ error_answer error.entry }
    {
        match error {
            BorrowedParseError::Invalid(fault) => TextAnswer::plain(REFUSED, fault.start),
            BorrowedParseError::Memory(_) => TextAnswer::plain(NO_MEMORY, 0),
        }
    }
}

/// The answer about a text that is read as nodes.
#[repr(C)]
#[derive(Debug, Clone, Copy, PartialEq, Eq)]
pub struct ReadAnswer {
    /// One of the first five statuses.
    pub status: u32,
    /// What the status counts: items, reserved bytes, or the bytes before the fault.
    pub value: usize,
    /// How many nodes an accepted text has, or else 0.
    pub nodes: usize,
    /// How many bytes the literals of an accepted text have together, or else 0.
    pub literals: usize,
    /// Whether both buffers had room for everything.
    pub written: bool,
    /// How many bytes the longest rendering of an accepted text has, in any language, at most
    /// `usize::MAX`, or else 0.
    pub bytes: usize,
}

// `examples/timefd.h` declares it with this size.
const _: () = prove!(size_of::<ReadAnswer>() == 48);

const _: () = prove!(align_of::<ReadAnswer>() == 8);

impl ReadAnswer {
    /// The answer with this status and value, if nothing was written.
    #[inline(always)]
    pub(crate) fn plain(status: u32, value: usize) -> ReadAnswer
        ensures { result ≡ record {
          status = status;
          value = value;
          nodes = 0;
          literals =
              0;
          written = false;
          bytes =
              0;
        } }
    {
        ReadAnswer {
            status,
            value,
            nodes: 0,
            literals: 0,
            written: false,
            bytes: 0,
        }
    }
}
