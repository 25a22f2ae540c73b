//! Warnings about dates.

ghost use Rattle.std.specs.Prelude.{◌≡◌};
ghost use Rattle.timefd_lang_warnings.specs.Dates as spec;
ghost use Rattle.timefd_lang_warnings.specs.Parts.{parts};

use crate::field::ShownField;
use crate::parts::{ReadDescription, shows};

// An ISO week with the calendar year, and no day that the year could belong to.
pub(crate) fn has_week_with_calendar_year(description: ReadDescription<'_, '_>) -> bool
    ensures { result ≡ spec.week_with_calendar_year (parts description.entry) }
{
    shows(description, ShownField::IsoWeek)
        && shows_any_year(description)
        && !shows_any_iso_year(description)
        && !shows_any_day(description)
}

// A month or a day with the year of ISO weeks.
pub(crate) fn has_date_with_iso_year(description: ReadDescription<'_, '_>) -> bool
    ensures { result ≡ spec.date_with_iso_year (parts description.entry) }
{
    let has_date = shows_month(description) || shows_any_day(description);
    has_date && shows_any_iso_year(description) && !shows_any_year(description)
}

// Parts of a date that don't determine one. A timestamp does.
pub(crate) fn has_undetermined_date(description: ReadDescription<'_, '_>) -> bool
    ensures { result ≡ spec.undetermined_date (parts description.entry) }
{
    shows_date_part(description)
        && !determines_date(description)
        && !shows(description, ShownField::Timestamp)
}

fn shows_any_year(description: ReadDescription<'_, '_>) -> bool
    ensures { result ≡ spec.shows_any_year (parts description.entry) }
{
    shows(description, ShownField::Year)
        || shows(description, ShownField::Century)
        || shows(description, ShownField::YearLastTwo)
}

fn shows_any_iso_year(description: ReadDescription<'_, '_>) -> bool
    ensures { result ≡ spec.shows_any_iso_year (parts description.entry) }
{
    shows(description, ShownField::IsoYear)
        || shows(description, ShownField::IsoCentury)
        || shows(description, ShownField::IsoYearLastTwo)
}

// A day of the month or of the year.
fn shows_any_day(description: ReadDescription<'_, '_>) -> bool
    ensures { result ≡ spec.shows_any_day (parts description.entry) }
{
    shows(description, ShownField::Day) || shows(description, ShownField::Ordinal)
}

fn shows_month(description: ReadDescription<'_, '_>) -> bool
    ensures { result ≡ spec.shows_month (parts description.entry) }
{
    shows(description, ShownField::MonthName) || shows(description, ShownField::MonthNumber)
}

fn shows_weekday(description: ReadDescription<'_, '_>) -> bool
    ensures { result ≡ spec.shows_weekday (parts description.entry) }
{
    shows(description, ShownField::WeekdayName) || shows(description, ShownField::WeekdayNumber)
}

fn shows_week(description: ReadDescription<'_, '_>) -> bool
    ensures { result ≡ spec.shows_week (parts description.entry) }
{
    shows(description, ShownField::IsoWeek)
        || shows(description, ShownField::SundayWeek)
        || shows(description, ShownField::MondayWeek)
}

fn shows_date_part(description: ReadDescription<'_, '_>) -> bool
    ensures { result ≡ spec.shows_date_part (parts description.entry) }
{
    shows_any_year(description)
        || shows_any_iso_year(description)
        || shows_month(description)
        || shows_any_day(description)
        || shows_weekday(description)
        || shows_week(description)
}

// The year, whole or as its century and its last two digits.
fn shows_year(description: ReadDescription<'_, '_>) -> bool
    ensures { result ≡ spec.shows_year (parts description.entry) }
{
    let has_halves = shows(description, ShownField::Century)
        && shows(description, ShownField::YearLastTwo);
    shows(description, ShownField::Year) || has_halves
}

fn shows_iso_year(description: ReadDescription<'_, '_>) -> bool
    ensures { result ≡ spec.shows_iso_year (parts description.entry) }
{
    let has_halves = shows(description, ShownField::IsoCentury)
        && shows(description, ShownField::IsoYearLastTwo);
    shows(description, ShownField::IsoYear) || has_halves
}

fn determines_date(description: ReadDescription<'_, '_>) -> bool
    ensures { result ≡ spec.determines_date (parts description.entry) }
{
    if shows_year(description) && determines_in_year(description) {
        return true;
    }
    shows_iso_year(description)
        && shows(description, ShownField::IsoWeek)
        && shows_weekday(description)
}

// The day within a known year.
fn determines_in_year(description: ReadDescription<'_, '_>) -> bool
    ensures { result ≡ spec.determines_in_year (parts description.entry) }
{
    let has_month_day = shows_month(description) && shows(description, ShownField::Day);
    let has_week_day = shows_weekday(description)
        && (shows(description, ShownField::SundayWeek)
            || shows(description, ShownField::MondayWeek));
    shows(description, ShownField::Ordinal) || has_month_day || has_week_day
}
