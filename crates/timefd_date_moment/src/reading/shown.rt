//! Compares the parts of a value with what was read.

ghost use Rattle.std.specs.Prelude.{◌≡◌};
ghost use Rattle.timefd_date_moment.specs.Moments.{magnitude};
ghost use Rattle.timefd_date_moment.specs.Reading.Shown as spec;

use crate::fields::{Fields, Fraction, Signed};
use crate::reading::days;
use crate::reading::part::{DatePart, OffsetPart, TimePart};
use crate::{Date, Time, UtcOffset};

pub(crate) fn is_count(read: Option<u16>, number: u32) -> bool
    ensures { result ≡ spec.is_count read number }
{
    match read {
        Some(read) => read as u32 == number,
        None => true,
    }
}

pub(crate) fn is_flag(read: Option<bool>, flag: bool) -> bool
    ensures { result ≡ spec.is_flag read flag }
{
    match read {
        Some(true) => flag,
        Some(false) => !flag,
        None => true,
    }
}

/// Whether a part of a number is as it was read, with the number's sign. Zero may have either sign.
pub(crate) fn is_shown(read: Option<Signed>, is_negative: bool, whole: u128, part: u128) -> bool
    ensures { result ≡ spec.is_shown read is_negative whole part }
{
    match read {
        Some(read) => {
            read.magnitude == part && (whole == 0 || is_flag(Some(read.is_negative), is_negative))
        }
        None => true,
    }
}

/// The distance of a year from the year 0.
fn magnitude(years: u32) -> u32
    ensures { result ≡ magnitude years }
{
    if years < 1_000_000 {
        1_000_000 - years
    } else {
        years - 1_000_000
    }
}

fn is_year(read: Option<Signed>, years: u32) -> bool
    ensures { result ≡ spec.is_year read years }
{
    let whole = magnitude(years) as u128;
    is_shown(read, years < 1_000_000, whole, whole)
}

fn is_century(read: Option<Signed>, years: u32) -> bool
    ensures { result ≡ spec.is_century read years }
{
    let whole = magnitude(years) as u128;
    is_shown(read, years < 1_000_000, whole, whole / 100)
}

fn is_last_two(read: Option<u16>, years: u32) -> bool
    ensures { result ≡ spec.is_last_two read years }
{
    is_count(read, magnitude(years) % 100)
}

pub(crate) fn date_has(fields: &Fields, date: Date, part: DatePart) -> bool
    ensures { result ≡ spec.date_has fields.now date part }
{
    match part {
        DatePart::Day => is_count(fields.day, date.day as u32),
        DatePart::Month => is_count(fields.month, date.month as u32),
        DatePart::Ordinal => match fields.ordinal {
            Some(read) => read as u32 == days::ordinal(date),
            None => true,
        },
        DatePart::Weekday => match fields.weekday {
            Some(read) => read as u32 == days::weekday(date),
            None => true,
        },
        DatePart::IsoWeek => match fields.iso_week {
            Some(read) => read as u32 == days::iso_week(date),
            None => true,
        },
        DatePart::SundayWeek => match fields.sunday_week {
            Some(read) => read as u32 == days::sunday_week(date),
            None => true,
        },
        DatePart::MondayWeek => match fields.monday_week {
            Some(read) => read as u32 == days::monday_week(date),
            None => true,
        },
        DatePart::YearLastTwo => is_last_two(fields.year_last_two, date.years),
        DatePart::Century => is_century(fields.century, date.years),
        DatePart::Year => is_year(fields.year, date.years),
        DatePart::IsoYearLastTwo => match fields.iso_year_last_two {
            Some(read) => is_last_two(Some(read), days::iso_years(date)),
            None => true,
        },
        DatePart::IsoCentury => match fields.iso_century {
            Some(read) => is_century(Some(read), days::iso_years(date)),
            None => true,
        },
        DatePart::IsoYear => match fields.iso_year {
            Some(read) => is_year(Some(read), days::iso_years(date)),
            None => true,
        },
    }
}

fn first_of_date(fields: &Fields, date: Date, parts: &[DatePart]) -> Option<DatePart>
    ensures { result ≡ spec.first_false (spec.date_has fields.now date) parts.now }
{
    for part in parts {
        if !date_has(fields, date, *part) {
            return Some(*part);
        }
    }
    None
}

/// The first part of a date that differs from what was read.
pub(crate) fn date_contradiction(fields: &Fields, date: Date) -> Option<DatePart>
    ensures { result ≡ spec.first_false (spec.date_has fields.now date) spec.date_parts }
{
    first_of_date(
        fields,
        date,
        &[
            DatePart::Day,
            DatePart::Month,
            DatePart::Ordinal,
            DatePart::Weekday,
            DatePart::IsoWeek,
            DatePart::SundayWeek,
            DatePart::MondayWeek,
            DatePart::YearLastTwo,
            DatePart::Century,
            DatePart::Year,
            DatePart::IsoYearLastTwo,
            DatePart::IsoCentury,
            DatePart::IsoYear,
        ],
    )
}

/// Whether a number is as it was read, or 0 if it was not read.
fn is_count_or_zero(read: Option<u16>, number: u32) -> bool
    ensures { result ≡ spec.is_count_or_zero read number }
{
    match read {
        Some(read) => read as u32 == number,
        None => number == 0,
    }
}

/// Whether the nanoseconds are as they were read, or 0 if they were not read.
fn is_fraction(read: Option<Fraction>, nanosecond: u32) -> bool
    ensures { result ≡ spec.is_fraction read nanosecond }
{
    match read {
        Some(fraction) => fraction.nanosecond == nanosecond as u128,
        None => nanosecond == 0,
    }
}

fn time_has(fields: &Fields, time: Time, part: TimePart) -> bool
    ensures { result ≡ spec.time_has fields.now time part }
{
    match part {
        TimePart::Hour => is_count(fields.hour, time.hour as u32),
        TimePart::Hour12 => is_count(fields.hour_12, time.hour_of_twelve() as u32),
        TimePart::Period => is_flag(fields.is_afternoon, time.hour >= 12),
        TimePart::Minute => is_count_or_zero(fields.minute, time.minute as u32),
        TimePart::Second => is_count_or_zero(fields.second, time.second as u32),
        TimePart::Subsecond => is_fraction(fields.subsecond, time.nanosecond),
    }
}

fn first_of_time(fields: &Fields, time: Time, parts: &[TimePart]) -> Option<TimePart>
    ensures { result ≡ spec.first_false (spec.time_has fields.now time) parts.now }
{
    for part in parts {
        if !time_has(fields, time, *part) {
            return Some(*part);
        }
    }
    None
}

/// The first part of a time of day that differs from what was read.
pub(crate) fn time_contradiction(fields: &Fields, time: Time) -> Option<TimePart>
    ensures { result ≡ spec.first_false (spec.time_has fields.now time) spec.time_parts }
{
    first_of_time(
        fields,
        time,
        &[
            TimePart::Hour,
            TimePart::Hour12,
            TimePart::Period,
            TimePart::Minute,
            TimePart::Second,
            TimePart::Subsecond,
        ],
    )
}

pub(crate) fn offset_has(fields: &Fields, offset: UtcOffset, part: OffsetPart) -> bool
    ensures { result ≡ spec.offset_has fields.now offset part }
{
    match part {
        OffsetPart::Hour => is_shown(
            fields.offset_hour,
            offset.is_negative,
            offset.seconds as u128,
            (offset.seconds / 3_600) as u128,
        ),
        OffsetPart::Minute => is_count_or_zero(fields.offset_minute, offset.seconds / 60 % 60),
        OffsetPart::Second => is_count_or_zero(fields.offset_second, offset.seconds % 60),
    }
}

fn first_of_offset(fields: &Fields, offset: UtcOffset, parts: &[OffsetPart]) -> Option<OffsetPart>
    ensures { result ≡ spec.first_false (spec.offset_has fields.now offset) parts.now }
{
    for part in parts {
        if !offset_has(fields, offset, *part) {
            return Some(*part);
        }
    }
    None
}

/// The first part of an offset that differs from what was read.
pub(crate) fn offset_contradiction(fields: &Fields, offset: UtcOffset) -> Option<OffsetPart>
    ensures { result ≡ spec.first_false (spec.offset_has fields.now offset) spec.offset_parts }
{
    first_of_offset(
        fields,
        offset,
        &[OffsetPart::Hour, OffsetPart::Minute, OffsetPart::Second],
    )
}
