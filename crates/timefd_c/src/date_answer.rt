//! The answer to C about a text that is read as a date.

ghost use Rattle.std.specs.Prelude.{◌≡◌};
ghost use Rattle.timefd_c.specs.Dates.{Answers, IsRead, component_in, date_part_number, instant_part_number, offset_part_number, part_number, reason_number, silent, time_part_number, unread_answer, value_answer};

use crate::answer::{ACCEPTED, NO_MEMORY, REFUSED};
use crate::moment::MomentFields;
use timefd_c_nodes::component_node;
use timefd_date_moment::Moment;
use timefd_date_moment::fields::{ReadError, UnreadReason};
use timefd_date_moment::reading::{DatePart, InstantPart, OffsetPart, Part, TimePart, ValueError};
use timefd_description::ReadTextError;

/// The status if a part of the date doesn't match the description. The value is the byte index
/// where that part begins, and the answer says why it doesn't match.
pub const UNREAD: u32 = 9;

/// The status if no moment has everything that was read. The answer says which part contradicts the
/// others.
pub const CONTRADICTION: u32 = 10;

/// The status if what was read determines no moment. The answer says which part is missing.
pub const MISSING: u32 = 11;

/// The status if the bytes of the date aren't UTF-8 and those of the description are, whatever the
/// description says. The value is 0.
pub const DATE_NOT_UTF8: u32 = 12;

/// The answer about a date that is read by a description.
#[repr(C)]
#[derive(Debug, Clone, Copy, PartialEq, Eq)]
pub struct DateAnswer {
    /// One of the first five statuses of an `Answer`, or `UNREAD`, `CONTRADICTION`, `MISSING`,
    /// `DATE_NOT_UTF8` or, for nodes, `NO_DESCRIPTION`.
    pub status: u32,
    /// Why a part of the date doesn't match, or else 0.
    pub reason: u32,
    /// The number that nodes have for the component that doesn't match, or else 0.
    pub component: u32,
    /// Which part contradicts the others or is missing, or else 0.
    pub part: u32,
    /// The index of the description's fault, or of the first part of the date that doesn't match,
    /// in bytes, or the index of the node that is not part of a description, or else 0.
    pub value: usize,
    /// What was read, or else a moment of which nothing is known.
    pub moment: MomentFields,
}

// `examples/timefd.h` declares it with this size.
const _: () = prove!(size_of::<DateAnswer>() == 48);

const _: () = prove!(align_of::<DateAnswer>() == 8);

impl DateAnswer {
    /// The answer for a date that was read, or not read because of this error.
    pub(crate) fn of(read: &Result<Moment, ReadTextError<'_>>) -> DateAnswer
        ensures { Answers read.now result }
    {
        match read {
            Ok(moment) => DateAnswer::read(*moment),
            Err(ReadTextError::Fault(fault)) => DateAnswer::silent(REFUSED, fault.start),
            Err(ReadTextError::Unread(error)) => DateAnswer::unread(*error),
            Err(ReadTextError::Value(error)) => DateAnswer::no_moment(*error),
            Err(ReadTextError::Memory(_)) => DateAnswer::silent(NO_MEMORY, 0),
        }
    }

    /// The answer with this status and value, if nothing was read.
    pub(crate) fn silent(status: u32, value: usize) -> DateAnswer
        ensures { result ≡ silent status value }
    {
        DateAnswer {
            status,
            reason: 0,
            component: 0,
            part: 0,
            value,
            moment: MomentFields::unknown(),
        }
    }

    /// The answer for a date that was read.
    pub(crate) fn read(moment: Moment) -> DateAnswer
        ensures { IsRead moment result }
    {
        DateAnswer {
            moment: MomentFields::of(moment),
            ..DateAnswer::silent(ACCEPTED, 0)
        }
    }

    fn unread(error: ReadError) -> DateAnswer
        ensures { result ≡ unread_answer error }
    {
        DateAnswer {
            reason: reason_code(error.reason),
            component: component_code(error.reason),
            ..DateAnswer::silent(UNREAD, error.index)
        }
    }

    fn no_moment(error: ValueError) -> DateAnswer
        ensures { result ≡ value_answer error }
    {
        match error {
            ValueError::Missing(part) => DateAnswer {
                part: part_code(part),
                ..DateAnswer::silent(MISSING, 0)
            },
            ValueError::Contradiction(part) => DateAnswer {
                part: part_code(part),
                ..DateAnswer::silent(CONTRADICTION, 0)
            },
        }
    }
}

fn reason_code(reason: UnreadReason) -> u32
    ensures { result ≡ reason_number reason }
{
    match reason {
        UnreadReason::Unread(_) => 1,
        UnreadReason::Contradiction(_) => 2,
        UnreadReason::Literal => 3,
        UnreadReason::Trailing => 4,
    }
}

// The number of the component that doesn't match, or 0 if it is no component.
fn component_code(reason: UnreadReason) -> u32
    ensures { result ≡ component_in reason }
{
    match reason {
        UnreadReason::Unread(component) | UnreadReason::Contradiction(component) => {
            u32::from(component_node(component, 0).component)
        }
        UnreadReason::Literal | UnreadReason::Trailing => 0,
    }
}

fn part_code(part: Part) -> u32
    ensures { result ≡ part_number part }
{
    match part {
        Part::Date(part) => date_part_code(part),
        Part::Time(part) => time_part_code(part),
        Part::Offset(part) => offset_part_code(part),
        Part::Instant(part) => instant_part_code(part),
    }
}

fn date_part_code(part: DatePart) -> u32
    ensures { result ≡ date_part_number part }
{
    match part {
        DatePart::Day => 1,
        DatePart::Month => 2,
        DatePart::Ordinal => 3,
        DatePart::Weekday => 4,
        DatePart::IsoWeek => 5,
        DatePart::SundayWeek => 6,
        DatePart::MondayWeek => 7,
        DatePart::YearLastTwo => 8,
        DatePart::Century => 9,
        DatePart::Year => 10,
        DatePart::IsoYearLastTwo => 11,
        DatePart::IsoCentury => 12,
        DatePart::IsoYear => 13,
    }
}

fn time_part_code(part: TimePart) -> u32
    ensures { result ≡ time_part_number part }
{
    match part {
        TimePart::Hour => 14,
        TimePart::Hour12 => 15,
        TimePart::Period => 16,
        TimePart::Minute => 17,
        TimePart::Second => 18,
        TimePart::Subsecond => 19,
    }
}

fn offset_part_code(part: OffsetPart) -> u32
    ensures { result ≡ offset_part_number part }
{
    match part {
        OffsetPart::Hour => 20,
        OffsetPart::Minute => 21,
        OffsetPart::Second => 22,
    }
}

fn instant_part_code(part: InstantPart) -> u32
    ensures { result ≡ instant_part_number part }
{
    match part {
        InstantPart::Second => 23,
        InstantPart::Millisecond => 24,
        InstantPart::Microsecond => 25,
        InstantPart::Nanosecond => 26,
    }
}
