//! Which components show only what was read of a date.

ghost use Rattle.std.specs.Prelude.{◌≡◌};
ghost use Rattle.timefd_format.specs.Completing.Given as spec;

use timefd_date_moment::fields::Fields;
use timefd_lang_component::Component;

/// Whether a modern component shows the same of each date that has what was read. A timestamp never does, since
/// it shows all of a date; a component that shows no part of a date always does.
pub(crate) fn is_given(fields: &Fields, component: Component) -> bool
    ensures { result ≡ spec.is_given fields.now component }
{
    match component {
        Component::Day(_) => fields.day.is_some(),
        Component::MonthShort(_) | Component::MonthLong(_) | Component::MonthNumerical(_) => {
            fields.month.is_some()
        }
        Component::Ordinal(_) => fields.ordinal.is_some(),
        Component::WeekdayShort(_)
        | Component::WeekdayLong(_)
        | Component::WeekdaySunday(_)
        | Component::WeekdayMonday(_) => fields.weekday.is_some(),
        Component::WeekNumberIso(_) => fields.iso_week.is_some(),
        Component::WeekNumberSunday(_) => fields.sunday_week.is_some(),
        Component::WeekNumberMonday(_) => fields.monday_week.is_some(),
        Component::CalendarYearFullExtendedRange(_)
        | Component::CalendarYearFullStandardRange(_)
        | Component::CalendarYearCenturyExtendedRange(_)
        | Component::CalendarYearCenturyStandardRange(_) => is_year_given(fields),
        Component::IsoYearFullExtendedRange(_)
        | Component::IsoYearFullStandardRange(_)
        | Component::IsoYearCenturyExtendedRange(_)
        | Component::IsoYearCenturyStandardRange(_) => is_iso_year_given(fields),
        Component::CalendarYearLastTwo(_) => {
            fields.year_last_two.is_some() || fields.year.is_some()
        }
        Component::IsoYearLastTwo(_) => {
            fields.iso_year_last_two.is_some() || fields.iso_year.is_some()
        }
        Component::Hour12(_)
        | Component::Hour24(_)
        | Component::Minute(_)
        | Component::Second(_)
        | Component::Period(_)
        | Component::Subsecond(_)
        | Component::OffsetHour(_)
        | Component::OffsetMinute(_)
        | Component::OffsetSecond(_)
        | Component::Ignore(_)
        | Component::End(_) => true,
        Component::UnixTimestampSecond(_)
        | Component::UnixTimestampMillisecond(_)
        | Component::UnixTimestampMicrosecond(_)
        | Component::UnixTimestampNanosecond(_)
        | Component::Month(_)
        | Component::Weekday(_)
        | Component::WeekNumber(_)
        | Component::Hour(_)
        | Component::UnixTimestamp(_)
        | Component::Year(_) => false,
    }
}

/// Whether the year was read, whole or as its century and its last two digits.
fn is_year_given(fields: &Fields) -> bool
    ensures { result ≡ spec.is_year_given fields.now.year fields.now.century fields.now.year_last_two }
{
    let has_halves = fields.century.is_some() && fields.year_last_two.is_some();
    fields.year.is_some() || has_halves
}

/// Whether the year of ISO weeks was read, whole or as its century and its last two digits.
fn is_iso_year_given(fields: &Fields) -> bool
    ensures { result
        ≡ spec.is_year_given fields.now.iso_year fields.now.iso_century fields.now.iso_year_last_two }
{
    let has_halves = fields.iso_century.is_some() && fields.iso_year_last_two.is_some();
    fields.iso_year.is_some() || has_halves
}
