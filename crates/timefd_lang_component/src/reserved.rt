//! How many bytes a component reserves.

ghost use Rattle.std.specs.Prelude.{◌≡◌, Bool};
ghost use Rattle.timefd_lang_component.specs.Modern.{modern, modern_month, modern_timestamp, modern_weekday, modern_year};
ghost use Rattle.timefd_lang_component.specs.Reserved as spec;
ghost use Rattle.timefd_lang_component.specs.Reserved.{reserved};
ghost use Rattle.timefd_modifier.specs.declared.day.Weekday.{Weekday};
ghost use Rattle.timefd_modifier.specs.declared.month.Month.{Month};
ghost use Rattle.timefd_modifier.specs.declared.timestamp.UnixTimestamp.{UnixTimestamp};
ghost use Rattle.timefd_modifier.specs.declared.year.Year.{Year};

use crate::component::Component;
use timefd_modifier::{
    MonthRepr, SubsecondDigits, UnixTimestampPrecision, WeekdayRepr, YearRange, YearRepr,
};

/// How many bytes the modern form of a component reserves: the length of its longest text.
#[inline(always)]
pub fn reserved_bytes(component: Component) -> usize
    ensures { result ≡ reserved (modern component) }
{
    match component {
        Component::Ignore(_) | Component::End(_) => 0,
        Component::WeekdaySunday(_) | Component::WeekdayMonday(_) => 1,
        Component::Day(_)
        | Component::MonthNumerical(_)
        | Component::WeekNumberIso(_)
        | Component::WeekNumberSunday(_)
        | Component::WeekNumberMonday(_)
        | Component::CalendarYearLastTwo(_)
        | Component::IsoYearLastTwo(_)
        | Component::Hour12(_)
        | Component::Hour24(_)
        | Component::Minute(_)
        | Component::Second(_)
        | Component::OffsetMinute(_)
        | Component::OffsetSecond(_)
        | Component::Period(_) => 2,
        Component::MonthShort(_)
        | Component::Ordinal(_)
        | Component::WeekdayShort(_)
        | Component::CalendarYearCenturyStandardRange(_)
        | Component::IsoYearCenturyStandardRange(_)
        | Component::OffsetHour(_) => 3,
        Component::CalendarYearFullStandardRange(_)
        | Component::CalendarYearCenturyExtendedRange(_)
        | Component::IsoYearFullStandardRange(_)
        | Component::IsoYearCenturyExtendedRange(_) => 5,
        Component::CalendarYearFullExtendedRange(_) | Component::IsoYearFullExtendedRange(_) => 7,
        Component::MonthLong(_) | Component::WeekdayLong(_) => 9,
        Component::UnixTimestampSecond(_) => 15,
        Component::UnixTimestampMillisecond(_) => 18,
        Component::UnixTimestampMicrosecond(_) => 21,
        Component::UnixTimestampNanosecond(_) => 24,
        Component::Subsecond(subsecond) => digits_shown(subsecond.digits),
        Component::Month(month) => month_bytes(month.repr),
        Component::Weekday(weekday) => weekday_bytes(weekday.repr),
        Component::WeekNumber(_) | Component::Hour(_) => 2,
        Component::UnixTimestamp(timestamp) => timestamp_bytes(timestamp.precision),
        Component::Year(year) => year_bytes(year.repr, year.range),
    }
}

fn month_bytes(repr: MonthRepr) -> usize
    ensures { (fields : Month) → result ≡ reserved (modern_month repr fields) }
{
    match repr {
        MonthRepr::Numerical => 2,
        MonthRepr::Short => 3,
        MonthRepr::Long => 9,
    }
}

fn weekday_bytes(repr: WeekdayRepr) -> usize
    ensures { (fields : Weekday) → result ≡ reserved (modern_weekday repr fields) }
{
    match repr {
        WeekdayRepr::Sunday | WeekdayRepr::Monday => 1,
        WeekdayRepr::Short => 3,
        WeekdayRepr::Long => 9,
    }
}

fn timestamp_bytes(precision: UnixTimestampPrecision) -> usize
    ensures { (fields : UnixTimestamp) → result ≡ reserved (modern_timestamp precision fields) }
{
    match precision {
        UnixTimestampPrecision::Second => 15,
        UnixTimestampPrecision::Millisecond => 18,
        UnixTimestampPrecision::Microsecond => 21,
        UnixTimestampPrecision::Nanosecond => 24,
    }
}

fn year_bytes(repr: YearRepr, range: YearRange) -> usize
    ensures { (iso : Bool) (fields : Year) → result ≡ reserved (modern_year iso repr range fields) }
{
    match (repr, range) {
        (YearRepr::Full, YearRange::Extended) => 7,
        (YearRepr::Full, YearRange::Standard) => 5,
        (YearRepr::Century, YearRange::Extended) => 5,
        (YearRepr::Century, YearRange::Standard) => 3,
        (YearRepr::LastTwo, _) => 2,
    }
}

fn digits_shown(digits: SubsecondDigits) -> usize
    ensures { result ≡ spec.digits_shown digits }
{
    match digits {
        SubsecondDigits::One => 1,
        SubsecondDigits::Two => 2,
        SubsecondDigits::Three => 3,
        SubsecondDigits::Four => 4,
        SubsecondDigits::Five => 5,
        SubsecondDigits::Six => 6,
        SubsecondDigits::Seven => 7,
        SubsecondDigits::Eight => 8,
        SubsecondDigits::Nine | SubsecondDigits::OneOrMore => 9,
    }
}
