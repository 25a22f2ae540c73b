//! The parts that can be read of a date, of a time of day, of an offset and of an instant.

/// A part that can be read of a value.
#[derive(Debug, Clone, Copy, PartialEq, Eq)]
pub enum Part {
    Date(DatePart),
    Time(TimePart),
    Offset(OffsetPart),
    Instant(InstantPart),
}

/// A part that can be read of a date.
#[derive(Debug, Clone, Copy, PartialEq, Eq)]
pub enum DatePart {
    Day,
    Month,
    Ordinal,
    Weekday,
    IsoWeek,
    SundayWeek,
    MondayWeek,
    YearLastTwo,
    Century,
    Year,
    IsoYearLastTwo,
    IsoCentury,
    IsoYear,
}

/// A part that can be read of a time of day.
#[derive(Debug, Clone, Copy, PartialEq, Eq)]
pub enum TimePart {
    /// The hour of the 24-hour clock.
    Hour,
    /// The hour of the 12-hour clock.
    Hour12,
    Period,
    Minute,
    Second,
    Subsecond,
}

/// A part that can be read of an offset from UTC.
#[derive(Debug, Clone, Copy, PartialEq, Eq)]
pub enum OffsetPart {
    Hour,
    Minute,
    Second,
}

/// A part that can be read of an instant: the time since 1970, in one of these units.
#[derive(Debug, Clone, Copy, PartialEq, Eq)]
pub enum InstantPart {
    /// Whole seconds, rounded down.
    Second,
    /// Whole milliseconds, rounded towards 1970. Smaller units are rounded the same way.
    Millisecond,
    Microsecond,
    Nanosecond,
}
