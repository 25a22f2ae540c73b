//! The keys of modifiers.

/// The key of a modifier, by what it sets. Several components have a key `repr`, and each `repr` is
/// a key of its own here.
#[derive(Clone, Copy)]
pub enum Key {
    /// How a number is filled on the left.
    Padding,
    /// What happens to input after the end of the description.
    TrailingInput,
    /// Whether the clock has 24 or 12 hours.
    HourRepr,
    /// How many bytes are ignored.
    Count,
    /// How a month is written.
    MonthRepr,
    /// Whether reading distinguishes capital and small letters of a name.
    CaseSensitive,
    /// Whether a sign is always written.
    Sign,
    /// Whether `AM` and `PM` are written in upper case.
    Case,
    /// How many digits of a second are written.
    Digits,
    /// The unit of a Unix timestamp.
    Precision,
    /// How a weekday is written.
    WeekdayRepr,
    /// Whether weekdays are counted from 1.
    OneIndexed,
    /// How weeks are numbered.
    WeekNumberRepr,
    /// How much of a year is written.
    YearRepr,
    /// Which years are meant.
    Range,
    /// Whether years are calendar years or ISO week-numbering years.
    Base,
    /// Whether an optional item is formatted.
    Format,
}
