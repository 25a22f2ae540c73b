//! The answer to C about a text that a moment is written by.

ghost use Rattle.std.specs.Prelude.{◌≡◌};
ghost use Rattle.timefd_c.specs.Formats.{lack_number, range_answer, range_number, silent, unshown_answer};

use timefd_c_nodes::component_node;
use timefd_date_format::{Lack, Unshown};
use timefd_date_moment::ComponentRange;

/// The status if a component shows nothing of the moment. The answer says which one, and why.
pub const UNSHOWN: u32 = 5;

/// The status if a number of the moment is out of its range. The answer says which one.
pub const OUT_OF_RANGE: u32 = 6;

/// The status if nodes aren't a description. The value is the index of the first node that is not
/// part of one.
pub const NO_DESCRIPTION: u32 = 8;

/// The answer about a text, or nodes, that a moment is written by.
#[repr(C)]
#[derive(Debug, Clone, Copy, PartialEq, Eq)]
pub struct FormatAnswer {
    /// One of the first five statuses of an `Answer`, or `UNSHOWN`, `OUT_OF_RANGE` or
    /// `NO_DESCRIPTION`.
    pub status: u32,
    /// Why a component shows nothing, or which number is out of its range, or else 0.
    pub reason: u32,
    /// The number that nodes have for the component that shows nothing, or else 0.
    pub component: u32,
    /// The length of the text in bytes, or the index of the fault in bytes, or the index of the
    /// node that is not part of a description, or else 0.
    pub value: usize,
    /// How many bytes were written: all of the text, or nothing.
    pub written: usize,
}

// `examples/timefd.h` declares it with this size.
const _: () = prove!(size_of::<FormatAnswer>() == 32);

const _: () = prove!(align_of::<FormatAnswer>() == 8);

impl FormatAnswer {
    /// The answer with this status and value, if nothing was written.
    pub(crate) fn silent(status: u32, value: usize) -> FormatAnswer
        ensures { result ≡ silent status value }
    {
        FormatAnswer {
            status,
            reason: 0,
            component: 0,
            value,
            written: 0,
        }
    }

    /// The answer if a component shows nothing.
    pub(crate) fn unshown(unshown: Unshown) -> FormatAnswer
        ensures { result ≡ unshown_answer unshown }
    {
        FormatAnswer {
            status: UNSHOWN,
            reason: lack_code(unshown.lack),
            component: u32::from(component_node(unshown.component, 0).component),
            value: 0,
            written: 0,
        }
    }

    /// The answer if a number of the moment is out of its range.
    pub(crate) fn out_of_range(range: ComponentRange) -> FormatAnswer
        ensures { result ≡ range_answer range }
    {
        FormatAnswer {
            reason: range_code(range),
            ..FormatAnswer::silent(OUT_OF_RANGE, 0)
        }
    }
}

fn lack_code(lack: Lack) -> u32
    ensures { result ≡ lack_number lack }
{
    match lack {
        Lack::NoDate => 1,
        Lack::NoTime => 2,
        Lack::NoOffset => 3,
        Lack::YearTooLong => 4,
        Lack::InstantOutOfRange => 5,
    }
}

fn range_code(range: ComponentRange) -> u32
    ensures { result ≡ range_number range }
{
    match range {
        ComponentRange::Year => 1,
        ComponentRange::Month => 2,
        ComponentRange::Day => 3,
        ComponentRange::Hour => 4,
        ComponentRange::Minute => 5,
        ComponentRange::Second => 6,
        ComponentRange::Nanosecond => 7,
        ComponentRange::Offset => 8,
        ComponentRange::Instant => 9,
    }
}
