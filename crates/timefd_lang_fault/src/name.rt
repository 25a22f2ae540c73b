//! The names at the head of a bracket.

/// The name of a component.
#[derive(Clone, Copy)]
pub enum ComponentName {
    Day,
    End,
    Hour,
    Ignore,
    Minute,
    Month,
    OffsetHour,
    OffsetMinute,
    OffsetSecond,
    Ordinal,
    Period,
    Second,
    Subsecond,
    UnixTimestamp,
    Weekday,
    WeekNumber,
    Year,
}

/// What kind of bracket a name begins.
#[derive(Clone, Copy)]
pub enum Name {
    /// An optional item.
    Optional,
    /// The first of several descriptions that matches.
    First,
    /// A component.
    Component(ComponentName),
}
