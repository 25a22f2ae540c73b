//! The ways in which fields determine a date.

ghost use Rattle.std.specs.Prelude.{◌≡◌, ◌≤◌, IfOk, IfSome};
ghost use Rattle.timefd_date_moment.specs.Reading.Ways as spec;

use crate::Date;
use crate::fields::Fields;
use crate::reading::days;
use crate::reading::part::DatePart;
use crate::reading::year::years_read;

/// Fields that determine a date. Years are counted from the year -1,000,000, and weekdays from
/// Monday.
#[derive(Clone, Copy)]
pub(crate) enum DateWay {
    Calendar { years: u32, month: u16, day: u16 },
    Ordinal { years: u32, ordinal: u16 },
    IsoWeek { years: u32, week: u16, weekday: u16 },
    SundayWeek { years: u32, week: u16, weekday: u16 },
    MondayWeek { years: u32, week: u16, weekday: u16 },
}

/// The first way in which the fields determine a date. An `Err` is the part that was not read.
pub(crate) fn date_way(fields: &Fields) -> Result<DateWay, DatePart>
    ensures value { result ≡ spec.date_way fields.now }
    ensures within { IfOk result (λ way. spec.way_years way ≤ 2000000) }
{
    let years = years_read(fields.year, fields.century, fields.year_last_two);
    let iso_years = years_read(
        fields.iso_year,
        fields.iso_century,
        fields.iso_year_last_two,
    );
    match way_of(fields, years, iso_years) {
        Some(way) => Ok(way),
        None => Err(lack(fields, years.is_some(), iso_years.is_some())),
    }
}

fn way_of(fields: &Fields, years: Option<u32>, iso_years: Option<u32>) -> Option<DateWay>
    requires years { IfSome years (λ n. n ≤ 2000000) }
    requires iso_years { IfSome iso_years (λ n. n ≤ 2000000) }
    ensures value { result ≡ spec.way_of fields.now years iso_years }
    ensures within { IfSome result (λ way. spec.way_years way ≤ 2000000) }
{
    if let Some(way) = calendar(years, fields.month, fields.day) {
        return Some(way);
    }
    if let Some(way) = ordinal(years, fields.ordinal) {
        return Some(way);
    }
    if let Some(way) = iso_week(iso_years, fields.iso_week, fields.weekday) {
        return Some(way);
    }
    if let Some(way) = sunday_week(years, fields.sunday_week, fields.weekday) {
        return Some(way);
    }
    monday_week(years, fields.monday_week, fields.weekday)
}

fn calendar(years: Option<u32>, month: Option<u16>, day: Option<u16>) -> Option<DateWay>
    requires { IfSome years (λ n. n ≤ 2000000) }
    ensures value { result ≡ spec.calendar years month day }
    ensures within { IfSome result (λ way. spec.way_years way ≤ 2000000) }
{
    Some(DateWay::Calendar {
        years: years?,
        month: month?,
        day: day?,
    })
}

fn ordinal(years: Option<u32>, ordinal: Option<u16>) -> Option<DateWay>
    requires { IfSome years (λ n. n ≤ 2000000) }
    ensures value { result ≡ spec.ordinal years ordinal }
    ensures within { IfSome result (λ way. spec.way_years way ≤ 2000000) }
{
    Some(DateWay::Ordinal {
        years: years?,
        ordinal: ordinal?,
    })
}

fn iso_week(years: Option<u32>, week: Option<u16>, weekday: Option<u16>) -> Option<DateWay>
    requires { IfSome years (λ n. n ≤ 2000000) }
    ensures value { result ≡ spec.iso_week years week weekday }
    ensures within { IfSome result (λ way. spec.way_years way ≤ 2000000) }
{
    Some(DateWay::IsoWeek {
        years: years?,
        week: week?,
        weekday: weekday?,
    })
}

fn sunday_week(years: Option<u32>, week: Option<u16>, weekday: Option<u16>) -> Option<DateWay>
    requires { IfSome years (λ n. n ≤ 2000000) }
    ensures value { result ≡ spec.sunday_week years week weekday }
    ensures within { IfSome result (λ way. spec.way_years way ≤ 2000000) }
{
    Some(DateWay::SundayWeek {
        years: years?,
        week: week?,
        weekday: weekday?,
    })
}

fn monday_week(years: Option<u32>, week: Option<u16>, weekday: Option<u16>) -> Option<DateWay>
    requires { IfSome years (λ n. n ≤ 2000000) }
    ensures value { result ≡ spec.monday_week years week weekday }
    ensures within { IfSome result (λ way. spec.way_years way ≤ 2000000) }
{
    Some(DateWay::MondayWeek {
        years: years?,
        week: week?,
        weekday: weekday?,
    })
}

/// The part that is missing, given what was read.
fn lack(fields: &Fields, has_year: bool, has_iso_year: bool) -> DatePart
    ensures { result ≡ spec.lack fields.now has_year has_iso_year }
{
    if fields.iso_week.is_some() {
        return if has_iso_year {
            DatePart::Weekday
        } else {
            DatePart::IsoYear
        };
    }
    if has_year {
        return lack_in_year(fields);
    }
    if has_iso_year {
        return DatePart::IsoWeek;
    }
    lack_of_year(fields)
}

fn lack_in_year(fields: &Fields) -> DatePart
    ensures { result ≡ spec.lack_in_year fields.now }
{
    if fields.month.is_some() {
        DatePart::Day
    } else if fields.sunday_week.is_some() || fields.monday_week.is_some() {
        DatePart::Weekday
    } else {
        DatePart::Month
    }
}

fn lack_of_year(fields: &Fields) -> DatePart
    ensures { result ≡ spec.lack_of_year fields.now }
{
    if fields.century.is_some() {
        DatePart::YearLastTwo
    } else if fields.year_last_two.is_some() {
        DatePart::Century
    } else {
        DatePart::Year
    }
}

/// Whether a date has the fields of a way.
pub(crate) fn has_way(way: DateWay, date: Date) -> bool
    ensures { result ≡ spec.has_way way date }
{
    match way {
        DateWay::Calendar { years, month, day } => {
            years == date.years && month == date.month as u16 && day == date.day as u16
        }
        DateWay::Ordinal { years, ordinal } => {
            years == date.years && ordinal as u32 == days::ordinal(date)
        }
        DateWay::IsoWeek {
            years,
            week,
            weekday,
        } => {
            years == days::iso_years(date)
                && week as u32 == days::iso_week(date)
                && weekday as u32 == days::weekday(date)
        }
        DateWay::SundayWeek {
            years,
            week,
            weekday,
        } => {
            years == date.years
                && week as u32 == days::sunday_week(date)
                && weekday as u32 == days::weekday(date)
        }
        DateWay::MondayWeek {
            years,
            week,
            weekday,
        } => {
            years == date.years
                && week as u32 == days::monday_week(date)
                && weekday as u32 == days::weekday(date)
        }
    }
}
