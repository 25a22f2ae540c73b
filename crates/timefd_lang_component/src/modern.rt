//! From a deprecated component to the modern one with the same meaning.

ghost use Rattle.std.specs.Prelude.{◌≡◌, true, false};
ghost use Rattle.timefd_lang_component.specs.Modern as spec;

use crate::component::Component;
use timefd_modifier as modifier;
use timefd_modifier::{
    MonthRepr, UnixTimestampPrecision, WeekNumberRepr, WeekdayRepr, YearRange, YearRepr,
};

impl Component {
    /// The modern component with the same meaning. A component that isn't deprecated stays as it is.
    #[inline(always)]
    pub fn modern(self) -> Component
        ensures table { result ≡ spec.modern self }
        ensures modern { spec.modern result ≡ result }
    {
        match self {
            Component::Month(month) => modern_month(month),
            Component::Weekday(weekday) => modern_weekday(weekday),
            Component::WeekNumber(week) => modern_week_number(week),
            Component::Hour(hour) => modern_hour(hour),
            Component::UnixTimestamp(timestamp) => modern_timestamp(timestamp),
            Component::Year(year) => modern_year(year),
            component => component,
        }
    }
}

#[inline(always)]
fn modern_month(month: modifier::Month) -> Component
    ensures { result ≡ spec.modern_month month.repr month }
{
    match month.repr {
        MonthRepr::Numerical => Component::MonthNumerical(modifier::MonthNumerical {
            padding: month.padding,
        }),
        MonthRepr::Long => Component::MonthLong(modifier::MonthLong {
            case_sensitive: month.case_sensitive,
        }),
        MonthRepr::Short => Component::MonthShort(modifier::MonthShort {
            case_sensitive: month.case_sensitive,
        }),
    }
}

#[inline(always)]
fn modern_weekday(weekday: modifier::Weekday) -> Component
    ensures { result ≡ spec.modern_weekday weekday.repr weekday }
{
    match weekday.repr {
        WeekdayRepr::Short => Component::WeekdayShort(modifier::WeekdayShort {
            case_sensitive: weekday.case_sensitive,
        }),
        WeekdayRepr::Long => Component::WeekdayLong(modifier::WeekdayLong {
            case_sensitive: weekday.case_sensitive,
        }),
        WeekdayRepr::Sunday => Component::WeekdaySunday(modifier::WeekdaySunday {
            one_indexed: weekday.one_indexed,
        }),
        WeekdayRepr::Monday => Component::WeekdayMonday(modifier::WeekdayMonday {
            one_indexed: weekday.one_indexed,
        }),
    }
}

#[inline(always)]
fn modern_week_number(week: modifier::WeekNumber) -> Component
    ensures { result ≡ spec.modern_week_number week.repr week }
{
    match week.repr {
        WeekNumberRepr::Iso => Component::WeekNumberIso(modifier::WeekNumberIso {
            padding: week.padding,
        }),
        WeekNumberRepr::Sunday => Component::WeekNumberSunday(modifier::WeekNumberSunday {
            padding: week.padding,
        }),
        WeekNumberRepr::Monday => Component::WeekNumberMonday(modifier::WeekNumberMonday {
            padding: week.padding,
        }),
    }
}

#[inline(always)]
fn modern_hour(hour: modifier::Hour) -> Component
    ensures { result ≡ spec.modern_hour hour.is_12_hour_clock hour }
{
    if hour.is_12_hour_clock {
        Component::Hour12(modifier::Hour12 {
            padding: hour.padding,
        })
    } else {
        Component::Hour24(modifier::Hour24 {
            padding: hour.padding,
        })
    }
}

#[inline(always)]
fn modern_timestamp(timestamp: modifier::UnixTimestamp) -> Component
    ensures { result ≡ spec.modern_timestamp timestamp.precision timestamp }
{
    let sign_is_mandatory = timestamp.sign_is_mandatory;
    match timestamp.precision {
        UnixTimestampPrecision::Second => Component::UnixTimestampSecond(
            modifier::UnixTimestampSecond { sign_is_mandatory },
        ),
        UnixTimestampPrecision::Millisecond => Component::UnixTimestampMillisecond(
            modifier::UnixTimestampMillisecond { sign_is_mandatory },
        ),
        UnixTimestampPrecision::Microsecond => Component::UnixTimestampMicrosecond(
            modifier::UnixTimestampMicrosecond { sign_is_mandatory },
        ),
        UnixTimestampPrecision::Nanosecond => Component::UnixTimestampNanosecond(
            modifier::UnixTimestampNanosecond { sign_is_mandatory },
        ),
    }
}

#[inline(always)]
fn modern_year(year: modifier::Year) -> Component
    ensures { result ≡ spec.modern_year year.iso_week_based year.repr year.range year }
{
    if year.iso_week_based {
        modern_iso_year(year)
    } else {
        modern_calendar_year(year)
    }
}

#[inline(always)]
fn modern_calendar_year(year: modifier::Year) -> Component
    ensures { result ≡ spec.modern_year false year.repr year.range year }
{
    let padding = year.padding;
    let sign_is_mandatory = year.sign_is_mandatory;
    match (year.repr, year.range) {
        (YearRepr::Full, YearRange::Extended) => Component::CalendarYearFullExtendedRange(
            modifier::CalendarYearFullExtendedRange {
                padding,
                sign_is_mandatory,
            },
        ),
        (YearRepr::Full, YearRange::Standard) => Component::CalendarYearFullStandardRange(
            modifier::CalendarYearFullStandardRange {
                padding,
                sign_is_mandatory,
            },
        ),
        (YearRepr::Century, YearRange::Extended) => Component::CalendarYearCenturyExtendedRange(
            modifier::CalendarYearCenturyExtendedRange {
                padding,
                sign_is_mandatory,
            },
        ),
        (YearRepr::Century, YearRange::Standard) => Component::CalendarYearCenturyStandardRange(
            modifier::CalendarYearCenturyStandardRange {
                padding,
                sign_is_mandatory,
            },
        ),
        (YearRepr::LastTwo, _) => Component::CalendarYearLastTwo(modifier::CalendarYearLastTwo {
            padding,
        }),
    }
}

#[inline(always)]
fn modern_iso_year(year: modifier::Year) -> Component
    ensures { result ≡ spec.modern_year true year.repr year.range year }
{
    let padding = year.padding;
    let sign_is_mandatory = year.sign_is_mandatory;
    match (year.repr, year.range) {
        (YearRepr::Full, YearRange::Extended) => Component::IsoYearFullExtendedRange(
            modifier::IsoYearFullExtendedRange {
                padding,
                sign_is_mandatory,
            },
        ),
        (YearRepr::Full, YearRange::Standard) => Component::IsoYearFullStandardRange(
            modifier::IsoYearFullStandardRange {
                padding,
                sign_is_mandatory,
            },
        ),
        (YearRepr::Century, YearRange::Extended) => Component::IsoYearCenturyExtendedRange(
            modifier::IsoYearCenturyExtendedRange {
                padding,
                sign_is_mandatory,
            },
        ),
        (YearRepr::Century, YearRange::Standard) => Component::IsoYearCenturyStandardRange(
            modifier::IsoYearCenturyStandardRange {
                padding,
                sign_is_mandatory,
            },
        ),
        (YearRepr::LastTwo, _) => Component::IsoYearLastTwo(modifier::IsoYearLastTwo { padding }),
    }
}
