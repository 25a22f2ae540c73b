//! The answer to C about a format of another language.

ghost use Rattle.std.specs.Prelude.{◌≡◌, false};
ghost use Rattle.timefd_c.specs.FormatConversions as spec;

use crate::answer::{ACCEPTED, REFUSED};
use crate::reason_code::reason_code;
use timefd_lang_dialect::{Converted, RefusedPart};

/// The answer about a format of another language that is converted to version 3.
#[repr(C)]
#[derive(Debug, Clone, Copy, PartialEq, Eq)]
pub struct ConvertAnswer {
    /// One of the first five statuses of an `Answer`.
    pub status: u32,
    /// Why a part of the format has no text of version 3, or else 0.
    pub reason: u32,
    /// The length of the text in bytes, or how many bytes of the format are before that part, or
    /// else 0.
    pub value: usize,
    /// How many bytes were written: all of the text, or nothing.
    pub written: usize,
    /// The first year from which on the text writes the same, or else 0.
    pub first_year: u32,
    /// Whether the text writes the same only for offsets of whole minutes.
    pub whole_minutes: bool,
}

// `examples/timefd.h` declares it with this size.
const _: () = prove!(size_of::<ConvertAnswer>() == 32);

const _: () = prove!(align_of::<ConvertAnswer>() == 8);

impl ConvertAnswer {
    /// The answer with this status and value, if nothing is written.
    pub(crate) fn silent(status: u32, value: usize) -> ConvertAnswer
        ensures { result ≡ spec.silent status value }
    {
        ConvertAnswer {
            status,
            reason: 0,
            value,
            written: 0,
            first_year: 0,
            whole_minutes: false,
        }
    }

    /// The answer if a part of the format has no text of version 3.
    pub(crate) fn refused(refusal: RefusedPart) -> ConvertAnswer
        ensures { result ≡ spec.refused_answer refusal }
    {
        ConvertAnswer {
            reason: reason_code(refusal.reason),
            ..ConvertAnswer::silent(REFUSED, refusal.index)
        }
    }

    /// The answer if the format has this text, of which `written` bytes were written.
    pub(crate) fn converted(converted: &Converted, written: usize) -> ConvertAnswer
        ensures { result ≡ spec.converted_answer converted.now written }
    {
        ConvertAnswer {
            written,
            first_year: u32::from(converted.limits.first_year),
            whole_minutes: converted.limits.whole_minutes,
            ..ConvertAnswer::silent(ACCEPTED, converted.text.len())
        }
    }
}
