//! Warnings about the time of day.

ghost use Rattle.std.specs.Prelude.{◌≡◌};
ghost use Rattle.timefd_lang_warnings.specs.Clock as spec;
ghost use Rattle.timefd_lang_warnings.specs.Parts.{parts};

use crate::field::ShownField;
use crate::parts::{ReadDescription, has, shows};
use crate::sought::Sought;

// The next component after an hour is a month as a number, and there is no minute.
pub(crate) fn has_month_for_minute(description: ReadDescription<'_, '_>) -> bool
    ensures { result ≡ spec.month_for_minute (parts description.entry) }
{
    let is_after = has(
        description,
        Sought::Before(ShownField::Hour24, ShownField::MonthNumber),
    ) || has(
        description,
        Sought::Before(ShownField::Hour12, ShownField::MonthNumber),
    );
    is_after && !shows(description, ShownField::Minute)
}

// The next component after a year is a minute, and there is no month.
pub(crate) fn has_minute_for_month(description: ReadDescription<'_, '_>) -> bool
    ensures { result ≡ spec.minute_for_month (parts description.entry) }
{
    has(
        description,
        Sought::Before(ShownField::Year, ShownField::Minute),
    ) && !shows(description, ShownField::MonthNumber)
        && !shows(description, ShownField::MonthName)
}

pub(crate) fn has_hour_without_period(description: ReadDescription<'_, '_>) -> bool
    ensures { result ≡ spec.hour_without_period (parts description.entry) }
{
    shows(description, ShownField::Hour12)
        && !shows(description, ShownField::Period)
        && !shows(description, ShownField::Hour24)
}

pub(crate) fn has_period_with_hour_24(description: ReadDescription<'_, '_>) -> bool
    ensures { result ≡ spec.period_with_hour_24 (parts description.entry) }
{
    shows(description, ShownField::Period)
        && shows(description, ShownField::Hour24)
        && !shows(description, ShownField::Hour12)
}

// A timestamp has whole seconds.
pub(crate) fn has_subsecond_without_second(description: ReadDescription<'_, '_>) -> bool
    ensures { result ≡ spec.subsecond_without_second (parts description.entry) }
{
    shows(description, ShownField::Subsecond)
        && !shows(description, ShownField::Second)
        && !shows(description, ShownField::Timestamp)
}
