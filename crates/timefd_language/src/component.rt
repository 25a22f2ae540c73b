//! The component that a name and its modifiers make.

ghost use Rattle.std.specs.Prelude.{◌≡◌, codes, MatchOption, Ok, Err};
ghost use Rattle.timefd_lang_fault.specs.Faults.{missing_modifier};
ghost use Rattle.timefd_language.specs.Names as spec;
ghost use Rattle.timefd_language.specs.Names.{row_for};

use crate::setting::Settings;
use timefd_lang_component::Component;
use timefd_lang_fault::ComponentName;
use timefd_modifier as modifier;

/// The component with this name and these settings. `None` only for `ignore` without a count.
#[inline(always)]
pub fn component_of(name: ComponentName, settings: Settings) -> Option<Component>
    ensures { MatchOption result ((row_for name).component settings ≡ Err
        (missing_modifier (codes "count"))) (λ c. (row_for name).component settings ≡ Ok c) }
{
    let Settings {
        padding,
        trailing_input,
        digits,
        ..
    } = settings;
    let component = match name {
        ComponentName::Day => Component::Day(modifier::Day { padding }),
        ComponentName::End => Component::End(modifier::End { trailing_input }),
        ComponentName::Hour => hour(settings),
        ComponentName::Ignore => Component::Ignore(modifier::Ignore::count(settings.count?)),
        ComponentName::Minute => Component::Minute(modifier::Minute { padding }),
        ComponentName::Month => month(settings),
        ComponentName::OffsetHour => offset_hour(settings),
        ComponentName::OffsetMinute => Component::OffsetMinute(modifier::OffsetMinute { padding }),
        ComponentName::OffsetSecond => Component::OffsetSecond(modifier::OffsetSecond { padding }),
        ComponentName::Ordinal => Component::Ordinal(modifier::Ordinal { padding }),
        ComponentName::Period => period(settings),
        ComponentName::Second => Component::Second(modifier::Second { padding }),
        ComponentName::Subsecond => Component::Subsecond(modifier::Subsecond { digits }),
        ComponentName::UnixTimestamp => unix_timestamp(settings),
        ComponentName::Weekday => weekday(settings),
        ComponentName::WeekNumber => week_number(settings),
        ComponentName::Year => year(settings),
    };
    Some(component)
}

#[inline(always)]
fn hour(settings: Settings) -> Component
    ensures { result ≡ spec.hour settings }
{
    let hour = modifier::Hour {
        padding: settings.padding,
        is_12_hour_clock: settings.is_12_hour_clock,
    };
    Component::Hour(hour).modern()
}

#[inline(always)]
fn month(settings: Settings) -> Component
    ensures { result ≡ spec.month settings }
{
    let month = modifier::Month {
        padding: settings.padding,
        repr: settings.month_repr,
        case_sensitive: settings.case_sensitive,
    };
    Component::Month(month).modern()
}

#[inline(always)]
fn offset_hour(settings: Settings) -> Component
    ensures { result ≡ spec.offset_hour settings }
{
    Component::OffsetHour(modifier::OffsetHour {
        sign_is_mandatory: settings.sign_is_mandatory,
        padding: settings.padding,
    })
}

#[inline(always)]
fn period(settings: Settings) -> Component
    ensures { result ≡ spec.period settings }
{
    Component::Period(modifier::Period {
        is_uppercase: settings.is_uppercase,
        case_sensitive: settings.case_sensitive,
    })
}

#[inline(always)]
fn unix_timestamp(settings: Settings) -> Component
    ensures { result ≡ spec.unix_timestamp settings }
{
    let timestamp = modifier::UnixTimestamp {
        precision: settings.precision,
        sign_is_mandatory: settings.sign_is_mandatory,
    };
    Component::UnixTimestamp(timestamp).modern()
}

#[inline(always)]
fn weekday(settings: Settings) -> Component
    ensures { result ≡ spec.weekday settings }
{
    let weekday = modifier::Weekday {
        repr: settings.weekday_repr,
        one_indexed: settings.one_indexed,
        case_sensitive: settings.case_sensitive,
    };
    Component::Weekday(weekday).modern()
}

#[inline(always)]
fn week_number(settings: Settings) -> Component
    ensures { result ≡ spec.week_number settings }
{
    let week_number = modifier::WeekNumber {
        padding: settings.padding,
        repr: settings.week_number_repr,
    };
    Component::WeekNumber(week_number).modern()
}

#[inline(always)]
fn year(settings: Settings) -> Component
    ensures { result ≡ spec.year settings }
{
    let year = modifier::Year {
        padding: settings.padding,
        repr: settings.year_repr,
        range: settings.range,
        iso_week_based: settings.iso_week_based,
        sign_is_mandatory: settings.sign_is_mandatory,
    };
    Component::Year(year).modern()
}
