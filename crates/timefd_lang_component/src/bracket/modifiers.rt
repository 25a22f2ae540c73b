//! The modifiers of each component, in the order in which they are written.

ghost use Rattle.std.specs.Prelude.{◌≡◌};
ghost use Rattle.timefd_lang_component.specs.Bracket.Words as spec;

use crate::Component;
use crate::bracket::defaults::Defaults;
use crate::bracket::modifier::{cased, indexed, lettered, numbered, padded, signed, trailed};

/// The two modifiers that follow the form. Each may be empty. `digits` are those of the count of an
/// `ignore`.
pub fn modifiers<'a>(
    component: Component,
    defaults: Defaults,
    digits: &'a str,
) -> (&'a str, &'a str)
    ensures first { result.0.now ≡ spec.first_modifier defaults component digits.now }
    ensures second { result.1.now ≡ spec.second_modifier defaults component }
{
    (
        first_modifier(component, defaults, digits),
        second_modifier(component, defaults),
    )
}

fn first_modifier<'a>(component: Component, defaults: Defaults, digits: &'a str) -> &'a str
    ensures { result.now ≡ spec.first_modifier defaults component digits.now }
{
    match component {
        Component::Day(fields) => padded(fields.padding, defaults),
        Component::MonthShort(fields) => cased(fields.case_sensitive, defaults),
        Component::MonthLong(fields) => cased(fields.case_sensitive, defaults),
        Component::MonthNumerical(fields) => padded(fields.padding, defaults),
        Component::Ordinal(fields) => padded(fields.padding, defaults),
        Component::WeekdayShort(fields) => cased(fields.case_sensitive, defaults),
        Component::WeekdayLong(fields) => cased(fields.case_sensitive, defaults),
        Component::WeekdaySunday(fields) => indexed(fields.one_indexed, defaults),
        Component::WeekdayMonday(fields) => indexed(fields.one_indexed, defaults),
        Component::WeekNumberIso(fields) => padded(fields.padding, defaults),
        Component::WeekNumberSunday(fields) => padded(fields.padding, defaults),
        Component::WeekNumberMonday(fields) => padded(fields.padding, defaults),
        Component::CalendarYearFullExtendedRange(fields) => padded(fields.padding, defaults),
        Component::CalendarYearFullStandardRange(fields) => padded(fields.padding, defaults),
        Component::CalendarYearCenturyExtendedRange(fields) => padded(fields.padding, defaults),
        Component::CalendarYearCenturyStandardRange(fields) => padded(fields.padding, defaults),
        Component::IsoYearFullExtendedRange(fields) => padded(fields.padding, defaults),
        Component::IsoYearFullStandardRange(fields) => padded(fields.padding, defaults),
        Component::IsoYearCenturyExtendedRange(fields) => padded(fields.padding, defaults),
        Component::IsoYearCenturyStandardRange(fields) => padded(fields.padding, defaults),
        Component::CalendarYearLastTwo(fields) => padded(fields.padding, defaults),
        Component::IsoYearLastTwo(fields) => padded(fields.padding, defaults),
        Component::Hour12(fields) => padded(fields.padding, defaults),
        Component::Hour24(fields) => padded(fields.padding, defaults),
        Component::Minute(fields) => padded(fields.padding, defaults),
        Component::Period(fields) => lettered(fields.is_uppercase, defaults),
        Component::Second(fields) => padded(fields.padding, defaults),
        Component::Subsecond(fields) => numbered(fields.digits, defaults),
        Component::OffsetHour(fields) => padded(fields.padding, defaults),
        Component::OffsetMinute(fields) => padded(fields.padding, defaults),
        Component::OffsetSecond(fields) => padded(fields.padding, defaults),
        Component::Ignore(_) => digits,
        Component::UnixTimestampSecond(fields) => signed(fields.sign_is_mandatory, defaults),
        Component::UnixTimestampMillisecond(fields) => signed(fields.sign_is_mandatory, defaults),
        Component::UnixTimestampMicrosecond(fields) => signed(fields.sign_is_mandatory, defaults),
        Component::UnixTimestampNanosecond(fields) => signed(fields.sign_is_mandatory, defaults),
        Component::End(fields) => trailed(fields.trailing_input, defaults),
        Component::Month(_) => "",
        Component::Weekday(_) => "",
        Component::WeekNumber(_) => "",
        Component::Hour(_) => "",
        Component::UnixTimestamp(_) => "",
        Component::Year(_) => "",
    }
}

fn second_modifier(component: Component, defaults: Defaults) -> &'static str
    ensures { result.now ≡ spec.second_modifier defaults component }
{
    match component {
        Component::CalendarYearFullExtendedRange(fields) => signed(
            fields.sign_is_mandatory,
            defaults,
        ),
        Component::CalendarYearFullStandardRange(fields) => signed(
            fields.sign_is_mandatory,
            defaults,
        ),
        Component::CalendarYearCenturyExtendedRange(fields) => signed(
            fields.sign_is_mandatory,
            defaults,
        ),
        Component::CalendarYearCenturyStandardRange(fields) => signed(
            fields.sign_is_mandatory,
            defaults,
        ),
        Component::IsoYearFullExtendedRange(fields) => signed(fields.sign_is_mandatory, defaults),
        Component::IsoYearFullStandardRange(fields) => signed(fields.sign_is_mandatory, defaults),
        Component::IsoYearCenturyExtendedRange(fields) => signed(
            fields.sign_is_mandatory,
            defaults,
        ),
        Component::IsoYearCenturyStandardRange(fields) => signed(
            fields.sign_is_mandatory,
            defaults,
        ),
        Component::Period(fields) => cased(fields.case_sensitive, defaults),
        Component::OffsetHour(fields) => signed(fields.sign_is_mandatory, defaults),
        Component::Day(_)
        | Component::MonthShort(_)
        | Component::MonthLong(_)
        | Component::MonthNumerical(_)
        | Component::Ordinal(_)
        | Component::WeekdayShort(_)
        | Component::WeekdayLong(_)
        | Component::WeekdaySunday(_)
        | Component::WeekdayMonday(_)
        | Component::WeekNumberIso(_)
        | Component::WeekNumberSunday(_)
        | Component::WeekNumberMonday(_)
        | Component::CalendarYearLastTwo(_)
        | Component::IsoYearLastTwo(_)
        | Component::Hour12(_)
        | Component::Hour24(_)
        | Component::Minute(_)
        | Component::Second(_)
        | Component::Subsecond(_)
        | Component::OffsetMinute(_)
        | Component::OffsetSecond(_)
        | Component::Ignore(_)
        | Component::UnixTimestampSecond(_)
        | Component::UnixTimestampMillisecond(_)
        | Component::UnixTimestampMicrosecond(_)
        | Component::UnixTimestampNanosecond(_)
        | Component::End(_)
        | Component::Month(_)
        | Component::Weekday(_)
        | Component::WeekNumber(_)
        | Component::Hour(_)
        | Component::UnixTimestamp(_)
        | Component::Year(_) => "",
    }
}
