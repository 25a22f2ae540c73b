//! Numbers that are out of range.

ghost use Rattle.std.specs.Prelude.{◌≡◌};

use std::fmt;

/// The number that is out of range.
#[derive(Debug, Clone, Copy, PartialEq, Eq)]
pub enum ComponentRange {
    /// The year is not from -999,999 to 999,999.
    Year,
    /// The month is not from 1 to 12.
    Month,
    /// The month has no such day.
    Day,
    /// The hour is above 23.
    Hour,
    /// The minute is above 59.
    Minute,
    /// The second is above 59.
    Second,
    /// The nanosecond is above 999,999,999.
    Nanosecond,
    /// The offset is 26 hours or more from UTC.
    Offset,
    /// The year of the instant in UTC is not from -999,999 to 999,999.
    Instant,
}

impl fmt::Display for ComponentRange {
    ghost use Rattle.std.specs.Prelude.{Some};
    ghost use Rattle.timefd_date_moment.specs.Faults.{sentence};

    ghost output = { λ error. Some (sentence error) };

    fn fmt<W: fmt::Write>(&self, f: &mut fmt::Formatter<W>) -> fmt::Result {
        match self {
            ComponentRange::Year => write!(f, "year must be in the range -999999..=999999"),
            ComponentRange::Month => write!(f, "month must be in the range 1..=12"),
            ComponentRange::Day => write!(f, "the month has no such day"),
            ComponentRange::Hour => write!(f, "hour must be in the range 0..=23"),
            ComponentRange::Minute => write!(f, "minute must be in the range 0..=59"),
            ComponentRange::Second => write!(f, "second must be in the range 0..=59"),
            ComponentRange::Nanosecond => {
                write!(f, "nanosecond must be in the range 0..=999999999")
            }
            ComponentRange::Offset => write!(f, "offset must be less than 26 hours from UTC"),
            ComponentRange::Instant => {
                write!(f, "instant must be in the years -999999 to 999999 of UTC")
            }
        }
    }
}
