//! Which parts of a moment something was read of.

ghost use Rattle.std.specs.Prelude.{◌≡◌};
ghost use Rattle.timefd_date_moment.specs.Reading.Known as spec;

use crate::fields::Fields;

/// Whether any part of a date was read.
pub(crate) fn has_date(fields: &Fields) -> bool
    ensures { result ≡ spec.has_date fields.now }
{
    has_year(fields) || has_iso_year(fields) || has_day(fields) || has_week(fields)
}

fn has_year(fields: &Fields) -> bool
    ensures { result ≡ spec.has_year fields.now }
{
    fields.year.is_some() || fields.century.is_some() || fields.year_last_two.is_some()
}

fn has_iso_year(fields: &Fields) -> bool
    ensures { result ≡ spec.has_iso_year fields.now }
{
    fields.iso_year.is_some() || fields.iso_century.is_some() || fields.iso_year_last_two.is_some()
}

fn has_day(fields: &Fields) -> bool
    ensures { result ≡ spec.has_day fields.now }
{
    fields.month.is_some() || fields.day.is_some() || fields.ordinal.is_some()
}

fn has_week(fields: &Fields) -> bool
    ensures { result ≡ spec.has_week fields.now }
{
    fields.weekday.is_some()
        || fields.iso_week.is_some()
        || fields.sunday_week.is_some()
        || fields.monday_week.is_some()
}

/// Whether any part of a time of day was read.
pub(crate) fn has_time(fields: &Fields) -> bool
    ensures { result ≡ spec.has_time fields.now }
{
    has_hour(fields)
        || fields.minute.is_some()
        || fields.second.is_some()
        || fields.subsecond.is_some()
}

fn has_hour(fields: &Fields) -> bool
    ensures { result ≡ spec.has_hour fields.now }
{
    fields.hour.is_some() || fields.hour_12.is_some() || fields.is_afternoon.is_some()
}

/// Whether any part of an offset was read.
pub(crate) fn has_offset(fields: &Fields) -> bool
    ensures { result ≡ spec.has_offset fields.now }
{
    fields.offset_hour.is_some() || fields.offset_minute.is_some() || fields.offset_second.is_some()
}
