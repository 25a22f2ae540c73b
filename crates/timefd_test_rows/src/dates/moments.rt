//! The dates, times of day and offsets that fields name: numbers between commas, or `none`.

use crate::fault::RowFault;
use std::alloc::Global;
use timefd_date_moment::{Date, Moment, Time, UtcOffset};

/// A date, a time of day and an offset, as a row writes them.
pub type MomentFields = (&'static str, &'static str, &'static str);

/// The moments of the rows that are written at each moment.
pub const EACH: &[MomentFields] = &[
    ("2026,11,23", "5,36,7,12345678", "3600"),
    ("2024,2,29", "12,0,0,500000000", "-1800"),
    ("1970,1,1", "0,0,0,0", "0"),
    ("2021,1,3", "23,59,59,999999999", "20730"),
    ("-44,3,15", "9,5,1,120000000", "-80000"),
    ("12345,6,7", "13,8,9,1", "45296"),
    ("0,12,31", "0,30,0,100", "0"),
    ("2018,12,31", "11,59,59,7000", "-3661"),
    ("-999999,1,1", "0,0,0,0", "0"),
    ("999999,12,31", "23,59,59,999999999", "-59"),
    ("1969,12,31", "23,59,59,999500000", "0"),
];

/// Moments of the years 1 to 9999: noon and midnight, first and last days of years with 52 and 53 weeks,
/// leap days, offsets of whole minutes.
pub const LATE: &[MomentFields] = &[
    ("2026,11,23", "5,36,7,12345678", "3600"),
    ("2024,2,29", "12,0,0,500000000", "-19800"),
    ("1970,1,1", "0,0,0,0", "0"),
    ("2021,1,3", "23,59,59,999999999", "20700"),
    ("2018,12,31", "11,59,59,7000", "-3660"),
    ("2000,1,1", "13,8,9,1", "45240"),
    ("2020,12,31", "0,30,0,100", "0"),
    ("9999,12,28", "23,59,59,0", "-86340"),
    ("1,1,1", "0,0,0,0", "0"),
    ("1969,12,31", "23,59,59,999500000", "0"),
];

/// Moments of the years -9999 to 0.
pub const EARLY: &[MomentFields] = &[
    ("-44,3,15", "9,5,1,120000000", "3600"),
    ("0,12,31", "12,30,0,100", "0"),
    ("-9999,1,2", "0,0,1,0", "-7200"),
];

const NO_DATE: RowFault = RowFault::Field("a date such as 2026,11,23, or none");

const NO_TIME: RowFault = RowFault::Field("a time of day such as 5,36,7,0, or none");

const NO_OFFSET: RowFault = RowFault::Field("an offset in seconds such as -3600, or none");

/// The numbers of a date.
#[derive(Clone, Copy)]
pub struct DateNumbers {
    pub year: i32,
    pub month: u8,
    pub day: u8,
}

/// The numbers of a time of day.
#[derive(Clone, Copy)]
pub struct TimeNumbers {
    pub hour: u8,
    pub minute: u8,
    pub second: u8,
    pub nanosecond: u32,
}

fn parts<'f>(alloc: Global, field: &'f str) -> Result<Vec<&'f str>, RowFault> {
    let mut parts = Vec::new(alloc);
    for part in field.split(',') {
        parts.push(part)?;
    }
    Ok(parts)
}

/// A number of one byte, or the fault.
fn small(part: &str, fault: RowFault) -> Result<u8, RowFault> {
    part.parse::<u8>().ok().ok_or(fault)
}

/// The numbers of a field such as `2026,11,23`.
pub fn date_numbers(alloc: Global, field: &str) -> Result<DateNumbers, RowFault> {
    let parts = parts(alloc, field)?;
    let [year, month, day] = parts.as_slice() else {
        return Err(NO_DATE);
    };
    Ok(DateNumbers {
        year: year.parse::<i32>().ok().ok_or(NO_DATE)?,
        month: small(month, NO_DATE)?,
        day: small(day, NO_DATE)?,
    })
}

/// The numbers of a field such as `5,36,7,12345678`.
pub fn time_numbers(alloc: Global, field: &str) -> Result<TimeNumbers, RowFault> {
    let parts = parts(alloc, field)?;
    let [hour, minute, second, nanosecond] = parts.as_slice() else {
        return Err(NO_TIME);
    };
    Ok(TimeNumbers {
        hour: small(hour, NO_TIME)?,
        minute: small(minute, NO_TIME)?,
        second: small(second, NO_TIME)?,
        nanosecond: nanosecond.parse::<u32>().ok().ok_or(NO_TIME)?,
    })
}

/// The seconds of a field such as `-3600`.
pub fn offset_seconds(field: &str) -> Result<i32, RowFault> {
    field.parse::<i32>().ok().ok_or(NO_OFFSET)
}

/// The date that a field names.
pub fn date_of(alloc: Global, field: &str) -> Result<Date, RowFault> {
    let numbers = date_numbers(alloc, field)?;
    let date = Date::from_calendar_date(numbers.year, numbers.month, numbers.day);
    date.ok().ok_or(NO_DATE)
}

/// The time of day that a field names.
pub fn time_of(alloc: Global, field: &str) -> Result<Time, RowFault> {
    let TimeNumbers {
        hour,
        minute,
        second,
        nanosecond,
    } = time_numbers(alloc, field)?;
    let time = Time::from_hms_nano(hour, minute, second, nanosecond);
    time.ok().ok_or(NO_TIME)
}

/// The offset that a field names.
pub fn offset_of(field: &str) -> Result<UtcOffset, RowFault> {
    let offset = UtcOffset::from_whole_seconds(offset_seconds(field)?);
    offset.ok().ok_or(NO_OFFSET)
}

/// The moment that three fields name. Each may be `none`.
pub fn moment_of(alloc: Global, date: &str, time: &str, offset: &str) -> Result<Moment, RowFault> {
    let mut moment = Moment {
        date: None,
        time: None,
        offset: None,
    };
    if date != "none" {
        moment.date = Some(date_of(alloc, date)?);
    }
    if time != "none" {
        moment.time = Some(time_of(alloc, time)?);
    }
    if offset != "none" {
        moment.offset = Some(offset_of(offset)?);
    }
    Ok(moment)
}
