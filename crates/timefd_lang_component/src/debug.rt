//! How a component prints, and how its modifiers print alone. Match arms with calls are expensive to
//! prove, so only the match on the modifiers has them; the arms of the other match are names.

use crate::component::Component;
use std::fmt;

impl fmt::Debug for Component {
    fn fmt<W: fmt::Write>(&self, f: &mut fmt::Formatter<W>) -> fmt::Result {
        let modifiers = ModifiersOf(*self);
        f.debug_tuple(variant_name(*self))
            .field(&modifiers)
            .finish()
    }
}

/// The name of a component's variant.
fn variant_name(component: Component) -> &'static str {
    match component {
        Component::Day(_) => "Day",
        Component::MonthShort(_) => "MonthShort",
        Component::MonthLong(_) => "MonthLong",
        Component::MonthNumerical(_) => "MonthNumerical",
        Component::Ordinal(_) => "Ordinal",
        Component::WeekdayShort(_) => "WeekdayShort",
        Component::WeekdayLong(_) => "WeekdayLong",
        Component::WeekdaySunday(_) => "WeekdaySunday",
        Component::WeekdayMonday(_) => "WeekdayMonday",
        Component::WeekNumberIso(_) => "WeekNumberIso",
        Component::WeekNumberSunday(_) => "WeekNumberSunday",
        Component::WeekNumberMonday(_) => "WeekNumberMonday",
        Component::CalendarYearFullExtendedRange(_) => "CalendarYearFullExtendedRange",
        Component::CalendarYearFullStandardRange(_) => "CalendarYearFullStandardRange",
        Component::CalendarYearCenturyExtendedRange(_) => "CalendarYearCenturyExtendedRange",
        Component::CalendarYearCenturyStandardRange(_) => "CalendarYearCenturyStandardRange",
        Component::IsoYearFullExtendedRange(_) => "IsoYearFullExtendedRange",
        Component::IsoYearFullStandardRange(_) => "IsoYearFullStandardRange",
        Component::IsoYearCenturyExtendedRange(_) => "IsoYearCenturyExtendedRange",
        Component::IsoYearCenturyStandardRange(_) => "IsoYearCenturyStandardRange",
        Component::CalendarYearLastTwo(_) => "CalendarYearLastTwo",
        Component::IsoYearLastTwo(_) => "IsoYearLastTwo",
        Component::Hour12(_) => "Hour12",
        Component::Hour24(_) => "Hour24",
        Component::Minute(_) => "Minute",
        Component::Period(_) => "Period",
        Component::Second(_) => "Second",
        Component::Subsecond(_) => "Subsecond",
        Component::OffsetHour(_) => "OffsetHour",
        Component::OffsetMinute(_) => "OffsetMinute",
        Component::OffsetSecond(_) => "OffsetSecond",
        Component::Ignore(_) => "Ignore",
        Component::UnixTimestampSecond(_) => "UnixTimestampSecond",
        Component::UnixTimestampMillisecond(_) => "UnixTimestampMillisecond",
        Component::UnixTimestampMicrosecond(_) => "UnixTimestampMicrosecond",
        Component::UnixTimestampNanosecond(_) => "UnixTimestampNanosecond",
        Component::End(_) => "End",
        Component::Month(_) => "Month",
        Component::Weekday(_) => "Weekday",
        Component::WeekNumber(_) => "WeekNumber",
        Component::Hour(_) => "Hour",
        Component::UnixTimestamp(_) => "UnixTimestamp",
        Component::Year(_) => "Year",
    }
}

/// A component that prints as its modifiers alone, like a part of a description of version 3.
#[derive(Clone, Copy)]
pub struct ModifiersOf(pub Component);

impl fmt::Debug for ModifiersOf {
    fn fmt<W: fmt::Write>(&self, f: &mut fmt::Formatter<W>) -> fmt::Result {
        match &self.0 {
            Component::Day(fields) => fmt::Debug::fmt(fields, f),
            Component::MonthShort(fields) => fmt::Debug::fmt(fields, f),
            Component::MonthLong(fields) => fmt::Debug::fmt(fields, f),
            Component::MonthNumerical(fields) => fmt::Debug::fmt(fields, f),
            Component::Ordinal(fields) => fmt::Debug::fmt(fields, f),
            Component::WeekdayShort(fields) => fmt::Debug::fmt(fields, f),
            Component::WeekdayLong(fields) => fmt::Debug::fmt(fields, f),
            Component::WeekdaySunday(fields) => fmt::Debug::fmt(fields, f),
            Component::WeekdayMonday(fields) => fmt::Debug::fmt(fields, f),
            Component::WeekNumberIso(fields) => fmt::Debug::fmt(fields, f),
            Component::WeekNumberSunday(fields) => fmt::Debug::fmt(fields, f),
            Component::WeekNumberMonday(fields) => fmt::Debug::fmt(fields, f),
            Component::CalendarYearFullExtendedRange(fields) => fmt::Debug::fmt(fields, f),
            Component::CalendarYearFullStandardRange(fields) => fmt::Debug::fmt(fields, f),
            Component::CalendarYearCenturyExtendedRange(fields) => fmt::Debug::fmt(fields, f),
            Component::CalendarYearCenturyStandardRange(fields) => fmt::Debug::fmt(fields, f),
            Component::IsoYearFullExtendedRange(fields) => fmt::Debug::fmt(fields, f),
            Component::IsoYearFullStandardRange(fields) => fmt::Debug::fmt(fields, f),
            Component::IsoYearCenturyExtendedRange(fields) => fmt::Debug::fmt(fields, f),
            Component::IsoYearCenturyStandardRange(fields) => fmt::Debug::fmt(fields, f),
            Component::CalendarYearLastTwo(fields) => fmt::Debug::fmt(fields, f),
            Component::IsoYearLastTwo(fields) => fmt::Debug::fmt(fields, f),
            Component::Hour12(fields) => fmt::Debug::fmt(fields, f),
            Component::Hour24(fields) => fmt::Debug::fmt(fields, f),
            Component::Minute(fields) => fmt::Debug::fmt(fields, f),
            Component::Period(fields) => fmt::Debug::fmt(fields, f),
            Component::Second(fields) => fmt::Debug::fmt(fields, f),
            Component::Subsecond(fields) => fmt::Debug::fmt(fields, f),
            Component::OffsetHour(fields) => fmt::Debug::fmt(fields, f),
            Component::OffsetMinute(fields) => fmt::Debug::fmt(fields, f),
            Component::OffsetSecond(fields) => fmt::Debug::fmt(fields, f),
            Component::Ignore(fields) => fmt::Debug::fmt(fields, f),
            Component::UnixTimestampSecond(fields) => fmt::Debug::fmt(fields, f),
            Component::UnixTimestampMillisecond(fields) => fmt::Debug::fmt(fields, f),
            Component::UnixTimestampMicrosecond(fields) => fmt::Debug::fmt(fields, f),
            Component::UnixTimestampNanosecond(fields) => fmt::Debug::fmt(fields, f),
            Component::End(fields) => fmt::Debug::fmt(fields, f),
            Component::Month(fields) => fmt::Debug::fmt(fields, f),
            Component::Weekday(fields) => fmt::Debug::fmt(fields, f),
            Component::WeekNumber(fields) => fmt::Debug::fmt(fields, f),
            Component::Hour(fields) => fmt::Debug::fmt(fields, f),
            Component::UnixTimestamp(fields) => fmt::Debug::fmt(fields, f),
            Component::Year(fields) => fmt::Debug::fmt(fields, f),
        }
    }
}
