//! Why fields determine no value.

ghost use Rattle.std.specs.Prelude.{◌≡◌};
ghost use Rattle.timefd_date_moment.specs.Reading.Sentences as spec;

use crate::reading::part::{DatePart, InstantPart, OffsetPart, Part, TimePart};
use std::error::Error;
use std::fmt;

/// Why fields determine no value.
#[derive(Debug, Clone, Copy, PartialEq, Eq)]
pub enum ValueError {
    /// This part was not read, and without it the fields determine no value.
    Missing(Part),
    /// No value agrees with all that was read. This is the first part in which the value that the
    /// fields determine differs from what was read. If they determine no value, it is the part at
    /// fault.
    Contradiction(Part),
}

impl fmt::Display for ValueError {
    ghost use Rattle.std.specs.Prelude.{Some};
    ghost use Rattle.timefd_date_moment.specs.Reading.Sentences.{sentence};

    ghost output = { λ error. Some (sentence error) };

    fn fmt<W: fmt::Write>(&self, f: &mut fmt::Formatter<W>) -> fmt::Result {
        match self {
            ValueError::Missing(part) => {
                let name = name_of(*part);
                write!(f, "the {name} was not read")
            }
            ValueError::Contradiction(part) => {
                let name = name_of(*part);
                write!(f, "the {name} disagrees with what else was read")
            }
        }
    }
}

impl Error for ValueError {}

fn name_of(part: Part) -> &'static str
    ensures { result.now ≡ spec.name part }
{
    match part {
        Part::Date(part) => date_name(part),
        Part::Time(part) => time_name(part),
        Part::Offset(part) => offset_name(part),
        Part::Instant(part) => instant_name(part),
    }
}

fn date_name(part: DatePart) -> &'static str
    ensures { result.now ≡ spec.date_name part }
{
    match part {
        DatePart::Day => "day",
        DatePart::Month => "month",
        DatePart::Ordinal => "day of the year",
        DatePart::Weekday => "weekday",
        DatePart::IsoWeek => "ISO week",
        DatePart::SundayWeek => "week from Sunday",
        DatePart::MondayWeek => "week from Monday",
        DatePart::YearLastTwo => "last two digits of the year",
        DatePart::Century => "century",
        DatePart::Year => "year",
        DatePart::IsoYearLastTwo => "last two digits of the ISO year",
        DatePart::IsoCentury => "century of the ISO year",
        DatePart::IsoYear => "ISO year",
    }
}

fn time_name(part: TimePart) -> &'static str
    ensures { result.now ≡ spec.time_name part }
{
    match part {
        TimePart::Hour => "hour",
        TimePart::Hour12 => "hour of twelve",
        TimePart::Period => "period",
        TimePart::Minute => "minute",
        TimePart::Second => "second",
        TimePart::Subsecond => "fraction of a second",
    }
}

fn offset_name(part: OffsetPart) -> &'static str
    ensures { result.now ≡ spec.offset_name part }
{
    match part {
        OffsetPart::Hour => "hour of the offset",
        OffsetPart::Minute => "minute of the offset",
        OffsetPart::Second => "second of the offset",
    }
}

fn instant_name(part: InstantPart) -> &'static str
    ensures { result.now ≡ spec.instant_name part }
{
    match part {
        InstantPart::Second => "Unix timestamp in seconds",
        InstantPart::Millisecond => "Unix timestamp in milliseconds",
        InstantPart::Microsecond => "Unix timestamp in microseconds",
        InstantPart::Nanosecond => "Unix timestamp in nanoseconds",
    }
}
