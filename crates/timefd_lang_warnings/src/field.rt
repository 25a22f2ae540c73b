//! What each component shows.

ghost use Rattle.std.specs.Prelude.{◌≡◌};
ghost use Rattle.timefd_lang_warnings.specs.Fields as spec;

use timefd_lang_component::Component;

/// What a component shows. A month by name and a month by number are two fields, and so are
/// weekdays, since one explains the other.
#[derive(Clone, Copy, PartialEq, Eq)]
pub enum ShownField {
    Year,
    Century,
    YearLastTwo,
    IsoYear,
    IsoCentury,
    IsoYearLastTwo,
    MonthName,
    MonthNumber,
    Day,
    Ordinal,
    WeekdayName,
    WeekdayNumber,
    IsoWeek,
    SundayWeek,
    MondayWeek,
    Hour24,
    Hour12,
    Period,
    Minute,
    Second,
    Subsecond,
    OffsetHour,
    OffsetMinute,
    OffsetSecond,
    Timestamp,
    /// Nothing: a parser skips bytes, or expects the end.
    Nothing,
}

/// What a component shows.
pub(crate) fn field_of(component: Component) -> ShownField
    ensures { result ≡ spec.field_of component }
{
    modern_field(component.modern())
}

fn modern_field(component: Component) -> ShownField
    ensures { result ≡ spec.modern_field component }
{
    match component {
        Component::Day(_) => ShownField::Day,
        Component::MonthShort(_) => ShownField::MonthName,
        Component::MonthLong(_) => ShownField::MonthName,
        Component::MonthNumerical(_) => ShownField::MonthNumber,
        Component::Ordinal(_) => ShownField::Ordinal,
        Component::WeekdayShort(_) => ShownField::WeekdayName,
        Component::WeekdayLong(_) => ShownField::WeekdayName,
        Component::WeekdaySunday(_) => ShownField::WeekdayNumber,
        Component::WeekdayMonday(_) => ShownField::WeekdayNumber,
        Component::WeekNumberIso(_) => ShownField::IsoWeek,
        Component::WeekNumberSunday(_) => ShownField::SundayWeek,
        Component::WeekNumberMonday(_) => ShownField::MondayWeek,
        Component::CalendarYearFullExtendedRange(_) => ShownField::Year,
        Component::CalendarYearFullStandardRange(_) => ShownField::Year,
        Component::CalendarYearCenturyExtendedRange(_) => ShownField::Century,
        Component::CalendarYearCenturyStandardRange(_) => ShownField::Century,
        Component::IsoYearFullExtendedRange(_) => ShownField::IsoYear,
        Component::IsoYearFullStandardRange(_) => ShownField::IsoYear,
        Component::IsoYearCenturyExtendedRange(_) => ShownField::IsoCentury,
        Component::IsoYearCenturyStandardRange(_) => ShownField::IsoCentury,
        Component::CalendarYearLastTwo(_) => ShownField::YearLastTwo,
        Component::IsoYearLastTwo(_) => ShownField::IsoYearLastTwo,
        Component::Hour12(_) => ShownField::Hour12,
        Component::Hour24(_) => ShownField::Hour24,
        Component::Minute(_) => ShownField::Minute,
        Component::Period(_) => ShownField::Period,
        Component::Second(_) => ShownField::Second,
        Component::Subsecond(_) => ShownField::Subsecond,
        Component::OffsetHour(_) => ShownField::OffsetHour,
        Component::OffsetMinute(_) => ShownField::OffsetMinute,
        Component::OffsetSecond(_) => ShownField::OffsetSecond,
        Component::UnixTimestampSecond(_) => ShownField::Timestamp,
        Component::UnixTimestampMillisecond(_) => ShownField::Timestamp,
        Component::UnixTimestampMicrosecond(_) => ShownField::Timestamp,
        Component::UnixTimestampNanosecond(_) => ShownField::Timestamp,
        Component::Ignore(_) | Component::End(_) => ShownField::Nothing,
        Component::Month(_)
        | Component::Weekday(_)
        | Component::WeekNumber(_)
        | Component::Hour(_)
        | Component::UnixTimestamp(_)
        | Component::Year(_) => ShownField::Nothing,
    }
}
