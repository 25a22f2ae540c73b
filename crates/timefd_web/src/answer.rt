//! The answers to the page.

/// The status if there is a report. It is in the buffer if all of it fits.
pub const REPORTED: u32 = 0;

/// The status if the bytes aren't UTF-8.
pub const NOT_UTF8: u32 = 1;

/// The status if memory ran out.
pub const NO_MEMORY: u32 = 2;

/// The status if no language has the number.
pub const NO_LANGUAGE: u32 = 3;

/// The status if a number of the moment is out of its range.
pub const OUT_OF_RANGE: u32 = 4;

/// The answer to the page about a text.
#[repr(C)]
#[derive(Debug, Clone, Copy, PartialEq, Eq)]
pub struct ReportAnswer {
    /// One of the five statuses.
    pub status: u32,
    /// How many bytes the report has, or 0 if there is none.
    pub len: usize,
}

// `web/timefd.mjs` expects this size.
const _: () = prove!(size_of::<ReportAnswer>() == 16);
