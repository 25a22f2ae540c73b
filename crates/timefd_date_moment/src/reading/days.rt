//! Values that are calculated from a date. Each is a function that isn't inlined: most texts show none of
//! these values, and so the function that compares every part stays small.

ghost use Rattle.std.specs.Prelude.{◌≡◌};
ghost use Rattle.timefd_date_moment.specs.Moments as spec;

use crate::Date;

/// The day of the year, from 1.
#[inline(never)]
pub(crate) fn ordinal(date: Date) -> u32
    ensures { result ≡ spec.date_ordinal date }
{
    date.ordinal() as u32
}

/// The number of days after Monday.
#[inline(never)]
pub(crate) fn weekday(date: Date) -> u32
    ensures { result ≡ spec.days_from_monday date }
{
    date.number_days_from_monday() as u32
}

#[inline(never)]
pub(crate) fn iso_week(date: Date) -> u32
    ensures { result ≡ spec.iso_week date }
{
    date.iso_week() as u32
}

/// The week of the year. Weeks begin on Sunday.
#[inline(never)]
pub(crate) fn sunday_week(date: Date) -> u32
    ensures { result ≡ spec.sunday_week date }
{
    date.sunday_based_week() as u32
}

/// The week of the year. Weeks begin on Monday.
#[inline(never)]
pub(crate) fn monday_week(date: Date) -> u32
    ensures { result ≡ spec.monday_week date }
{
    date.monday_based_week() as u32
}

/// The ISO week-numbering year, counted from the year -1,000,000.
#[inline(never)]
pub(crate) fn iso_years(date: Date) -> u32
    ensures { result ≡ spec.iso_years date }
{
    date.iso_years()
}
