//! Instants, the dates and times that they are in UTC, and how moments and instants are printed.

use super::calendar::printed;
use super::moments::{date_of, moment_of, offset_of, time_of};
use crate::fault::RowFault;
use std::alloc::Global;
use timefd_date_moment::{Moment, UnixTime};

/// What is asked about an instant or a moment.
#[derive(Clone, Copy)]
pub enum InstantAsk {
    /// `nanoseconds DATE TIME OFFSET`: the nanoseconds since the start of 1970.
    Nanoseconds,
    /// `utc NANOSECONDS`: the date, the time of day and the offset of the instant, or what is out of range.
    Utc,
    /// `moment DATE TIME OFFSET`, as it is printed.
    Moment,
    /// `instant NANOSECONDS`, as it is printed.
    Instant,
}

impl InstantAsk {
    /// The ask that the word names.
    pub fn of_word(word: &str) -> Option<InstantAsk> {
        match word {
            "nanoseconds" => Some(InstantAsk::Nanoseconds),
            "utc" => Some(InstantAsk::Utc),
            "moment" => Some(InstantAsk::Moment),
            "instant" => Some(InstantAsk::Instant),
            _ => None,
        }
    }

    fn fields(self) -> &'static str {
        match self {
            InstantAsk::Nanoseconds | InstantAsk::Moment => "DATE TIME OFFSET",
            InstantAsk::Utc | InstantAsk::Instant => "NANOSECONDS",
        }
    }
}

/// The answer to the ask.
pub fn answer(alloc: Global, ask: InstantAsk, fields: &[&str]) -> Result<String, RowFault> {
    match (ask, fields) {
        (InstantAsk::Nanoseconds, [date, time, offset]) => nanoseconds(alloc, date, time, offset),
        (InstantAsk::Utc, [count]) => in_utc(alloc, count),
        (InstantAsk::Moment, [date, time, offset]) => {
            printed(alloc, moment_of(alloc, date, time, offset))
        }
        (InstantAsk::Instant, [count]) => printed(alloc, unix_of(count)),
        _ => Err(RowFault::Fields(ask.fields())),
    }
}

/// The instant at this many nanoseconds since the start of 1970.
fn unix_of(field: &str) -> Result<UnixTime, RowFault> {
    match field.parse::<i128>() {
        Ok(count) => Ok(UnixTime::from_nanoseconds(count)),
        Err(_) => Err(RowFault::Field("a number of nanoseconds")),
    }
}

/// The nanoseconds from the start of 1970 to a date and a time of day at an offset.
fn nanoseconds(alloc: Global, date: &str, time: &str, offset: &str) -> Result<String, RowFault> {
    let date = date_of(alloc, date)?;
    let time = time_of(alloc, time)?;
    let unix = UnixTime::of(date, time, offset_of(offset)?);
    let sign = if unix.is_negative { "-" } else { "" };
    let count = unix.nanoseconds;
    Ok(format!(in alloc; "{sign}{count}")?)
}

/// The date, the time of day and the offset in numbers.
fn in_utc(alloc: Global, count: &str) -> Result<String, RowFault> {
    match Moment::from_unix(unix_of(count)?) {
        Ok(moment) => moment_numbers(alloc, moment),
        Err(fault) => Ok(format!(in alloc; "{fault:?}")?),
    }
}

/// A moment, as rows write it.
fn moment_numbers(alloc: Global, moment: Moment) -> Result<String, RowFault> {
    let mut numbers = String::new(alloc);
    match moment.date {
        Some(date) => write!(numbers, "{},{},{} ", date.year(), date.month, date.day)?,
        None => numbers.push_str("none ")?,
    }
    match moment.time {
        Some(time) => {
            write!(numbers, "{},{},", time.hour, time.minute)?;
            write!(numbers, "{},{} ", time.second, time.nanosecond)?;
        }
        None => numbers.push_str("none ")?,
    }
    match moment.offset {
        Some(offset) => write!(numbers, "{}", offset.whole_seconds())?,
        None => numbers.push_str("none")?,
    }
    Ok(numbers)
}
