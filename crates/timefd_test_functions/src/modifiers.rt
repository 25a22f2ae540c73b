//! Defaults and printed forms, against the table of modifiers.

use super::printed::expect_printed;
use std::alloc::Global;
use std::num::NonZero;
use std::process::Abort;
use timefd_modifier::*;

/// Compares the default of each type with the text that its `Debug` prints.
macro_rules! defaults {
    ($rt:expr, $alloc:expr; $($kind:ident => $shown:expr,)*) => {
        $(expect_printed($rt, $alloc, &$kind::default(), $shown);)*
    };
}

fn day_and_month_defaults(rt: &impl Abort, alloc: Global) {
    defaults!(rt, alloc;
        Day => "Day { padding: Zero }",
        Ordinal => "Ordinal { padding: Zero }",
        WeekdayShort => "WeekdayShort { case_sensitive: true }",
        WeekdayLong => "WeekdayLong { case_sensitive: true }",
        WeekdaySunday => "WeekdaySunday { one_indexed: true }",
        WeekdayMonday => "WeekdayMonday { one_indexed: true }",
        Weekday => "Weekday { repr: Long, one_indexed: true, case_sensitive: true }",
        MonthShort => "MonthShort { case_sensitive: true }",
        MonthLong => "MonthLong { case_sensitive: true }",
        MonthNumerical => "MonthNumerical { padding: Zero }",
        Month => "Month { padding: Zero, repr: Numerical, case_sensitive: true }",
        WeekNumberIso => "WeekNumberIso { padding: Zero }",
        WeekNumberSunday => "WeekNumberSunday { padding: Zero }",
        WeekNumberMonday => "WeekNumberMonday { padding: Zero }",
        WeekNumber => "WeekNumber { padding: Zero, repr: Iso }",
    );
}

fn year_defaults(rt: &impl Abort, alloc: Global) {
    defaults!(rt, alloc;
        CalendarYearFullExtendedRange =>
            "CalendarYearFullExtendedRange { padding: Zero, sign_is_mandatory: false }",
        CalendarYearFullStandardRange =>
            "CalendarYearFullStandardRange { padding: Zero, sign_is_mandatory: false }",
        CalendarYearCenturyExtendedRange =>
            "CalendarYearCenturyExtendedRange { padding: Zero, sign_is_mandatory: false }",
        CalendarYearCenturyStandardRange =>
            "CalendarYearCenturyStandardRange { padding: Zero, sign_is_mandatory: false }",
        IsoYearFullExtendedRange =>
            "IsoYearFullExtendedRange { padding: Zero, sign_is_mandatory: false }",
        IsoYearFullStandardRange =>
            "IsoYearFullStandardRange { padding: Zero, sign_is_mandatory: false }",
        IsoYearCenturyExtendedRange =>
            "IsoYearCenturyExtendedRange { padding: Zero, sign_is_mandatory: false }",
        IsoYearCenturyStandardRange =>
            "IsoYearCenturyStandardRange { padding: Zero, sign_is_mandatory: false }",
        CalendarYearLastTwo => "CalendarYearLastTwo { padding: Zero }",
        IsoYearLastTwo => "IsoYearLastTwo { padding: Zero }",
        Year =>
            "Year { padding: Zero, repr: Full, range: Extended, iso_week_based: false, \
             sign_is_mandatory: false }",
    );
}

fn time_defaults(rt: &impl Abort, alloc: Global) {
    defaults!(rt, alloc;
        Hour12 => "Hour12 { padding: Zero }",
        Hour24 => "Hour24 { padding: Zero }",
        Hour => "Hour { padding: Zero, is_12_hour_clock: false }",
        Minute => "Minute { padding: Zero }",
        Second => "Second { padding: Zero }",
        Period => "Period { is_uppercase: true, case_sensitive: true }",
        Subsecond => "Subsecond { digits: OneOrMore }",
        OffsetHour => "OffsetHour { sign_is_mandatory: false, padding: Zero }",
        OffsetMinute => "OffsetMinute { padding: Zero }",
        OffsetSecond => "OffsetSecond { padding: Zero }",
        UnixTimestampSecond => "UnixTimestampSecond { sign_is_mandatory: false }",
        UnixTimestampMillisecond => "UnixTimestampMillisecond { sign_is_mandatory: false }",
        UnixTimestampMicrosecond => "UnixTimestampMicrosecond { sign_is_mandatory: false }",
        UnixTimestampNanosecond => "UnixTimestampNanosecond { sign_is_mandatory: false }",
        UnixTimestamp => "UnixTimestamp { precision: Second, sign_is_mandatory: false }",
        End => "End { trailing_input: Prohibit }",
    );
}

fn value_defaults(rt: &impl Abort, alloc: Global) {
    defaults!(rt, alloc;
        Padding => "Zero",
        MonthRepr => "Numerical",
        WeekdayRepr => "Long",
        WeekNumberRepr => "Iso",
        YearRepr => "Full",
        YearRange => "Extended",
        SubsecondDigits => "OneOrMore",
        UnixTimestampPrecision => "Second",
        TrailingInput => "Prohibit",
    );
}

fn one_field_changes(rt: &impl Abort) {
    let year = Year::default().with_range(YearRange::Standard);
    assert!(rt;
        year == Year {
            padding: Padding::Zero,
            repr: YearRepr::Full,
            range: YearRange::Standard,
            iso_week_based: false,
            sign_is_mandatory: false,
        }
    );
}

fn one_count_changes(rt: &impl Abort, alloc: Global) {
    let five = NonZero::<u16>::new(5).expect(rt, "five is not zero");
    let seven = NonZero::<u16>::new(7).expect(rt, "seven is not zero");
    let ignore = Ignore::count(five).with_count(seven);
    assert!(rt; ignore == Ignore { count: seven });
    expect_printed(rt, alloc, &ignore, "Ignore { count: 7 }");
}

#[test]
fn defaults_and_changes(rt: HostRuntime) {
    let alloc = rt.alloc();
    day_and_month_defaults(&rt, alloc);
    year_defaults(&rt, alloc);
    time_defaults(&rt, alloc);
    value_defaults(&rt, alloc);
    one_field_changes(&rt);
    one_count_changes(&rt, alloc);
}
