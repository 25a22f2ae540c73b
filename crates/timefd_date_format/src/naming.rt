//! The names of components, as written at the start of a bracket.

ghost use Rattle.std.specs.Prelude.{◌≡◌};
ghost use Rattle.timefd_date_format.specs.Sentences as spec;

use timefd_lang_component::Component;

/// The name at the start of the component's bracket, like `hour`.
pub fn component_name(component: Component) -> &'static str
    ensures { result.now ≡ spec.name component }
{
    match component {
        Component::Day(_) => "day",
        Component::MonthShort(_)
        | Component::MonthLong(_)
        | Component::MonthNumerical(_)
        | Component::Month(_) => "month",
        Component::Ordinal(_) => "ordinal",
        Component::WeekdayShort(_)
        | Component::WeekdayLong(_)
        | Component::WeekdaySunday(_)
        | Component::WeekdayMonday(_)
        | Component::Weekday(_) => "weekday",
        Component::WeekNumberIso(_)
        | Component::WeekNumberSunday(_)
        | Component::WeekNumberMonday(_)
        | Component::WeekNumber(_) => "week_number",
        Component::CalendarYearFullExtendedRange(_)
        | Component::CalendarYearFullStandardRange(_)
        | Component::CalendarYearCenturyExtendedRange(_)
        | Component::CalendarYearCenturyStandardRange(_)
        | Component::IsoYearFullExtendedRange(_)
        | Component::IsoYearFullStandardRange(_)
        | Component::IsoYearCenturyExtendedRange(_)
        | Component::IsoYearCenturyStandardRange(_)
        | Component::CalendarYearLastTwo(_)
        | Component::IsoYearLastTwo(_)
        | Component::Year(_) => "year",
        Component::Hour12(_) | Component::Hour24(_) | Component::Hour(_) => "hour",
        Component::Minute(_) => "minute",
        Component::Second(_) => "second",
        Component::Period(_) => "period",
        Component::Subsecond(_) => "subsecond",
        Component::OffsetHour(_) => "offset_hour",
        Component::OffsetMinute(_) => "offset_minute",
        Component::OffsetSecond(_) => "offset_second",
        Component::UnixTimestampSecond(_)
        | Component::UnixTimestampMillisecond(_)
        | Component::UnixTimestampMicrosecond(_)
        | Component::UnixTimestampNanosecond(_)
        | Component::UnixTimestamp(_) => "unix_timestamp",
        Component::Ignore(_) => "ignore",
        Component::End(_) => "end",
    }
}
