//! The form of each component: its name, and the words that distinguish it from others with that
//! name.

ghost use Rattle.std.specs.Prelude.{◌≡◌};
ghost use Rattle.timefd_lang_component.specs.Bracket.Words as spec;

use crate::Component;
use crate::bracket::defaults::Defaults;

/// The name with the words that say the form, up to the digits of a count. Empty for a deprecated
/// component: its modern form is written instead.
pub fn form(component: Component, defaults: Defaults) -> &'static str
    ensures { result.now ≡ spec.form defaults component }
{
    match component {
        Component::Day(_) => "day",
        Component::MonthShort(_) => "month repr:short",
        Component::MonthLong(_) => "month repr:long",
        Component::MonthNumerical(_) => defaults.choose("month repr:numerical", "month"),
        Component::Ordinal(_) => "ordinal",
        Component::WeekdayShort(_) => "weekday repr:short",
        Component::WeekdayLong(_) => defaults.choose("weekday repr:long", "weekday"),
        Component::WeekdaySunday(_) => "weekday repr:sunday",
        Component::WeekdayMonday(_) => "weekday repr:monday",
        Component::WeekNumberIso(_) => defaults.choose("week_number repr:iso", "week_number"),
        Component::WeekNumberSunday(_) => "week_number repr:sunday",
        Component::WeekNumberMonday(_) => "week_number repr:monday",
        Component::CalendarYearFullExtendedRange(_) => defaults.choose(
            "year repr:full range:extended base:calendar",
            "year range:extended",
        ),
        Component::CalendarYearFullStandardRange(_) => defaults.choose(
            "year repr:full range:standard base:calendar",
            "year range:standard",
        ),
        Component::CalendarYearCenturyExtendedRange(_) => defaults.choose(
            "year repr:century range:extended base:calendar",
            "year repr:century range:extended",
        ),
        Component::CalendarYearCenturyStandardRange(_) => defaults.choose(
            "year repr:century range:standard base:calendar",
            "year repr:century range:standard",
        ),
        Component::IsoYearFullExtendedRange(_) => defaults.choose(
            "year repr:full range:extended base:iso_week",
            "year range:extended base:iso_week",
        ),
        Component::IsoYearFullStandardRange(_) => defaults.choose(
            "year repr:full range:standard base:iso_week",
            "year range:standard base:iso_week",
        ),
        Component::IsoYearCenturyExtendedRange(_) =>
            "year repr:century range:extended base:iso_week",
        Component::IsoYearCenturyStandardRange(_) =>
            "year repr:century range:standard base:iso_week",
        Component::CalendarYearLastTwo(_) => defaults.choose(
            "year repr:last_two base:calendar",
            "year repr:last_two",
        ),
        Component::IsoYearLastTwo(_) => "year repr:last_two base:iso_week",
        Component::Hour12(_) => "hour repr:12",
        Component::Hour24(_) => defaults.choose("hour repr:24", "hour"),
        Component::Minute(_) => "minute",
        Component::Period(_) => "period",
        Component::Second(_) => "second",
        Component::Subsecond(_) => "subsecond",
        Component::OffsetHour(_) => "offset_hour",
        Component::OffsetMinute(_) => "offset_minute",
        Component::OffsetSecond(_) => "offset_second",
        Component::Ignore(_) => "ignore count:",
        Component::UnixTimestampSecond(_) => defaults.choose(
            "unix_timestamp precision:second",
            "unix_timestamp",
        ),
        Component::UnixTimestampMillisecond(_) => "unix_timestamp precision:millisecond",
        Component::UnixTimestampMicrosecond(_) => "unix_timestamp precision:microsecond",
        Component::UnixTimestampNanosecond(_) => "unix_timestamp precision:nanosecond",
        Component::End(_) => "end",
        Component::Month(_) => "",
        Component::Weekday(_) => "",
        Component::WeekNumber(_) => "",
        Component::Hour(_) => "",
        Component::UnixTimestamp(_) => "",
        Component::Year(_) => "",
    }
}
