//! The part at fault if no date has the fields of a way.

ghost use Rattle.std.specs.Prelude.{◌≡◌};
ghost use Rattle.timefd_date_moment.specs.Reading.Faults as spec;

use crate::fields::{Fields, Signed};
use crate::reading::part::DatePart;
use crate::reading::way::DateWay;

/// The part at fault if no date has these fields: a part of the year, the month or the weekday if its
/// number is out of range; otherwise the day, the ordinal or the week.
pub(crate) fn way_fault(fields: &Fields, way: DateWay) -> DatePart
    ensures { result ≡ spec.way_fault fields.now way }
{
    match way {
        DateWay::Calendar { month, .. } => year_fault(fields, month_fault(month)),
        DateWay::Ordinal { .. } => year_fault(fields, DatePart::Ordinal),
        DateWay::IsoWeek { weekday, .. } => {
            iso_year_fault(fields, weekday_fault(weekday, DatePart::IsoWeek))
        }
        DateWay::SundayWeek { weekday, .. } => {
            year_fault(fields, weekday_fault(weekday, DatePart::SundayWeek))
        }
        DateWay::MondayWeek { weekday, .. } => {
            year_fault(fields, weekday_fault(weekday, DatePart::MondayWeek))
        }
    }
}

fn month_fault(month: u16) -> DatePart
    ensures { result ≡ spec.month_fault month }
{
    if month == 0 || month > 12 {
        DatePart::Month
    } else {
        DatePart::Day
    }
}

fn weekday_fault(weekday: u16, week: DatePart) -> DatePart
    ensures { result ≡ spec.weekday_fault weekday week }
{
    if weekday > 6 { DatePart::Weekday } else { week }
}

fn year_fault(fields: &Fields, other: DatePart) -> DatePart
    ensures { result ≡ spec.year_fault fields.now other }
{
    if is_beyond(fields.year, 999_999) {
        DatePart::Year
    } else if is_beyond(fields.century, 9_999) {
        DatePart::Century
    } else if is_above(fields.year_last_two, 99) {
        DatePart::YearLastTwo
    } else {
        other
    }
}

fn iso_year_fault(fields: &Fields, other: DatePart) -> DatePart
    ensures { result ≡ spec.iso_year_fault fields.now other }
{
    if is_beyond(fields.iso_year, 999_999) {
        DatePart::IsoYear
    } else if is_beyond(fields.iso_century, 9_999) {
        DatePart::IsoCentury
    } else if is_above(fields.iso_year_last_two, 99) {
        DatePart::IsoYearLastTwo
    } else {
        other
    }
}

fn is_beyond(read: Option<Signed>, most: u128) -> bool
    ensures { result ≡ spec.is_beyond read most }
{
    match read {
        Some(read) => read.magnitude > most,
        None => false,
    }
}

fn is_above(read: Option<u16>, most: u16) -> bool
    ensures { result ≡ spec.is_above read most }
{
    match read {
        Some(read) => read > most,
        None => false,
    }
}
